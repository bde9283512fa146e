//! `central` with weights in original bytes.

use super::{FRAME, HEAD, LITTLE, joined, run, three_frames};
use mon_command::{Status, TraceFault};
use mon_io::{MemInputs, MemSink};
use pcap_reader::PcapFault;
use std::alloc::{AllocError, Global};
use std::process::Abort;
use std::test::Fail;

// The heads of a record of 42 captured bytes: of no original byte, and of as many as the field holds; the latter also
// at second 580.
const EMPTY: [u8; 16] = [100, 0, 0, 0, 0, 0, 0, 0, 42, 0, 0, 0, 0, 0, 0, 0];

const GREATEST: [u8; 16] = [
    100, 0, 0, 0, 0, 0, 0, 0, 42, 0, 0, 0, 0xff, 0xff, 0xff, 0xff,
];

const LATE: [u8; 16] = [68, 2, 0, 0, 0, 0, 0, 0, 42, 0, 0, 0, 0xff, 0xff, 0xff, 0xff];

const THREE: &str = "univmon central 1
packets 3 keyed 3 routed 3
sketch seed 1 levels 0 rows 1 width 16 heap all weight bytes
epoch 0 packets 3 weight 126 heaps kept
level 0 packets 3 weight 126 keys 1 nonzero 1
cardinality 1
total 126
heavy 10.0.0.1 1000 10.1.0.2 53 17 weight 126
end
";

const WEIGHTLESS: &str = "univmon central 1
packets 1 keyed 1 routed 1
sketch seed 1 levels 0 rows 1 width 16 heap all weight bytes
epoch 0 packets 1 weight 0 heaps kept
level 0 packets 1 weight 0 keys 1 nonzero 0
cardinality 0
total 0
end
";

const MOST: &str = "univmon central 1
packets 4096 keyed 4096 routed 4096
sketch seed 1 levels 0 rows 1 width 16 heap all weight bytes
epoch 0 packets 4096 weight 17592186040320 heaps kept
level 0 packets 4096 weight 17592186040320 keys 1 nonzero 1
cardinality 1
total 17592186040320
heavy 10.0.0.1 1000 10.1.0.2 53 17 weight 17592186040320
end
";

const LINE: &str = "central A --weight bytes --levels 0 --rows 1 --width 16";

// Inputs with the one file `A`.
fn trace(alloc: Global, bytes: Vec<u8>) -> Result<MemInputs, AllocError> {
    let mut files = Vec::new(alloc);
    files.push((String::from_str(alloc, "A")?, bytes))?;
    Ok(MemInputs::new(files, Vec::new(alloc)))
}

// The header, and this record so many times.
fn repeated(alloc: Global, number: u32, head: &[u8], frame: &[u8]) -> Result<Vec<u8>, AllocError> {
    let mut bytes = joined(alloc, &[&LITTLE])?;
    for _ in 0..number {
        bytes.extend_from_slice(head)?;
        bytes.extend_from_slice(frame)?;
    }
    Ok(bytes)
}

#[test]
fn bytes_are_counted(rt: HostRuntime) -> Result<(), Fail> {
    let alloc = rt.alloc();
    let mut inputs = trace(alloc, three_frames(alloc, &LITTLE, &HEAD)?)?;
    let mut sink = MemSink::new(alloc, 4096, Vec::new(alloc))?;
    assert_eq!(rt; run(alloc, LINE, &mut inputs, &mut sink)?, Status::Done);
    assert_eq!(rt; sink.bytes(), THREE.as_bytes());
    Ok(())
}

#[test]
fn a_packet_of_no_weight_is_a_packet(rt: HostRuntime) -> Result<(), Fail> {
    let alloc = rt.alloc();
    let mut inputs = trace(alloc, repeated(alloc, 1, &EMPTY, &FRAME)?)?;
    let mut sink = MemSink::new(alloc, 4096, Vec::new(alloc))?;
    assert_eq!(rt; run(alloc, LINE, &mut inputs, &mut sink)?, Status::Done);
    assert_eq!(rt; sink.bytes(), WEIGHTLESS.as_bytes());
    Ok(())
}

#[test]
fn the_greatest_weight_is_taken(rt: HostRuntime) -> Result<(), Fail> {
    let alloc = rt.alloc();
    let mut inputs = trace(alloc, repeated(alloc, 4096, &GREATEST, &FRAME)?)?;
    let mut sink = MemSink::new(alloc, 4096, Vec::new(alloc))?;
    assert_eq!(rt; run(alloc, LINE, &mut inputs, &mut sink)?, Status::Done);
    assert_eq!(rt; sink.bytes(), MOST.as_bytes());
    Ok(())
}

// A record more of a trace of 4,096, the words, and the fault.
fn assert_fault(
    rt: &impl Abort,
    alloc: Global,
    line: &str,
    frame: &[u8],
    more: &[u8],
    fault: TraceFault,
) -> Result<(), Fail> {
    let mut bytes = repeated(alloc, 4096, &GREATEST, frame)?;
    bytes.extend_from_slice(more)?;
    bytes.extend_from_slice(&FRAME)?;
    let mut sink = MemSink::new(alloc, 4096, Vec::new(alloc))?;
    let status = run(alloc, line, &mut trace(alloc, bytes)?, &mut sink)?;
    assert_eq!(rt; status, Status::Trace(fault), "{line}");
    assert!(rt; sink.bytes().is_empty());
    Ok(())
}

#[test]
fn a_heavy_record_is_told(rt: HostRuntime) -> Result<(), Fail> {
    let heavy = TraceFault::Weight { number: 4096 };
    assert_fault(&rt, rt.alloc(), LINE, &FRAME, &GREATEST, heavy)
}

#[test]
fn late_is_told_before_heavy(rt: HostRuntime) -> Result<(), Fail> {
    let late = TraceFault::Epochs {
        number: 4096,
        index: 8,
    };
    let line = "central A --weight bytes --epoch 60";
    assert_fault(&rt, rt.alloc(), line, &FRAME, &LATE, late)
}

#[test]
fn records_without_a_key_count_towards_the_limit(rt: HostRuntime) -> Result<(), Fail> {
    let mut arp = FRAME;
    arp[13] = 6;
    let heavy = TraceFault::Weight { number: 4096 };
    assert_fault(&rt, rt.alloc(), LINE, &arp, &GREATEST, heavy)
}

// Records of no captured byte, one more than a trace may have.
#[test]
fn a_record_too_many_is_told(rt: HostRuntime) -> Result<(), Fail> {
    let alloc = rt.alloc();
    let head = [100, 0, 0, 0, 0, 0, 0, 0, 0, 0, 0, 0, 42, 0, 0, 0];
    let mut inputs = trace(alloc, repeated(alloc, 1_048_577, &head, &[])?)?;
    let mut sink = MemSink::new(alloc, 4096, Vec::new(alloc))?;
    let status = run(alloc, "total A", &mut inputs, &mut sink)?;
    assert_eq!(rt; status, Status::Trace(TraceFault::Pcap(PcapFault::TooMany)));
    assert!(rt; sink.bytes().is_empty());
    Ok(())
}
