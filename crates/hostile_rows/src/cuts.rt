//! The count of a trace of three packets, cut to each length.

use crate::made::{files_of, three_packets, words_of};
use mon_command::{Status, TraceFault, run_alone};
use mon_io::{MemInputs, MemSink};
use pcap_reader::PcapFault;
use std::alloc::Global;
use std::process::Abort;
use std::test::Fail;

const NONE: &str = "univmon total 1\npackets 0\nkeyed 0\nunkeyed 0\nend\n";

const ONE: &str = "univmon total 1\npackets 1\nkeyed 1\nunkeyed 0\nend\n";

const TWO: &str = "univmon total 1\npackets 2\nkeyed 2\nunkeyed 0\nend\n";

// The count of the trace cut to so many bytes ends so, and writes this text.
fn assert_cut(
    rt: &impl Abort,
    alloc: Global,
    length: u32,
    status: Status,
    text: &str,
) -> Result<(), Fail> {
    let words = words_of(alloc, "total A")?;
    let mut trace = three_packets(alloc)?;
    trace.truncate(length as usize);
    let files = files_of(alloc, "", &trace)?;
    let mut inputs = MemInputs::new(files, Vec::new(alloc));
    let mut sink = MemSink::new(alloc, 64, Vec::new(alloc))?;
    let found = run_alone(alloc, &words, &mut inputs, &mut sink);
    assert_eq!(rt; found, status, "{length} bytes");
    assert_eq!(rt; sink.bytes(), text.as_bytes(), "{length} bytes");
    Ok(())
}

// Cut inside the record that stands here, and before the next one there, the trace is refused there.
fn assert_cut_inside(rt: &impl Abort, alloc: Global, at: u32, next: u32) -> Result<(), Fail> {
    for length in (at..next).skip(1) {
        let short = PcapFault::ShortRecord { at: u64::from(at) };
        let status = Status::Trace(TraceFault::Pcap(short));
        assert_cut(rt, alloc, length, status, "")?;
    }
    Ok(())
}

#[test]
fn a_header_that_is_cut(rt: HostRuntime) -> Result<(), Fail> {
    for length in 0..24_u32 {
        let short = PcapFault::ShortHeader {
            at: u64::from(length),
        };
        let status = Status::Trace(TraceFault::Pcap(short));
        assert_cut(&rt, rt.alloc(), length, status, "")?;
    }
    Ok(())
}

#[test]
fn records_that_are_cut(rt: HostRuntime) -> Result<(), Fail> {
    for (at, next, text) in [(24, 82, NONE), (82, 140, ONE), (140, 198, TWO)] {
        assert_cut(&rt, rt.alloc(), at, Status::Done, text)?;
        assert_cut_inside(&rt, rt.alloc(), at, next)?;
    }
    Ok(())
}
