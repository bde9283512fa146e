//! Worked traces, and inputs that fail or give little at a time.
ghost use Rattle.std.specs.Prelude.{None};
ghost use Rattle.mon_io.specs.MemInputs.{mem_inputs_state};
ghost use Rattle.mon_io.specs.Inputs.{PickedAny};

use crate::{Packet, PcapFault, PcapReader, PcapStop};
use flow_keys::Link;
use mon_io::{Fault, Inputs, MemInputs};
use std::alloc::{AllocError, Global};
use std::process::Abort;
use std::test::Fail;

const LITTLE: [u8; 24] = [
    0xd4, 0xc3, 0xb2, 0xa1, 2, 0, 4, 0, 0, 0, 0, 0, 0, 0, 0, 0, 0xff, 0xff, 0, 0, 1, 0, 0, 0,
];

const LITTLE_HEAD: [u8; 16] = [100, 0, 0, 0, 0, 0, 0, 0, 42, 0, 0, 0, 42, 0, 0, 0];

// The magic number of times in nanoseconds, and big-endian numbers.
const BIG: [u8; 24] = [
    0xa1, 0xb2, 0x3c, 0x4d, 0, 2, 0, 4, 0, 0, 0, 0, 0, 0, 0, 0, 0, 0, 0xff, 0xff, 0, 0, 0, 1,
];

const BIG_HEAD: [u8; 16] = [0, 0, 0, 100, 0, 0, 0, 0, 0, 0, 0, 42, 0, 0, 0, 42];

const FRAME: [u8; 42] = [
    2, 0, 0, 0, 0, 2, 2, 0, 0, 0, 0, 1, 8, 0, 0x45, 0, 0, 0x1c, 0, 0, 0, 0, 0x40, 0x11, 0, 0, 10,
    0, 0, 1, 10, 1, 0, 2, 3, 0xe8, 0, 0x35, 0, 8, 0, 0,
];

const PACKET: Packet = Packet {
    seconds: 100,
    original: 42,
    link: Link::Ethernet,
};

// Inputs that give one byte a read, and tell nothing.
#[derive(Drop)]
struct Trickle {
    inputs: MemInputs,
}

impl Inputs for Trickle {
    ghost state = { λ trickle. record { contents = λ _. None; rest = None; faults = (mem_inputs_state trickle.inputs).faults } };

    ghost picks = { PickedAny };

    fn pick(&mut self, name: &str) -> Result<(), Fault> {
        self.inputs.pick(name)
    }

    fn read(&mut self, buf: &mut [u8]) -> Result<usize, Fault> {
        let most = buf.len().min(1);
        self.inputs.read(&mut buf[..most])
    }
}

// A header and three records of the frame.
fn trace(alloc: Global, header: &[u8], head: &[u8]) -> Result<Vec<u8>, AllocError> {
    let mut bytes = header.to_vec(alloc)?;
    for _ in 0..3 {
        bytes.extend_from_slice(head)?;
        bytes.extend_from_slice(&FRAME)?;
    }
    Ok(bytes)
}

// Inputs with one trace, of which the calls with these numbers fail.
fn inputs(alloc: Global, bytes: Vec<u8>, fails: &[u32]) -> Result<MemInputs, AllocError> {
    let mut files = Vec::new(alloc);
    files.push((String::from_str(alloc, "trace")?, bytes))?;
    Ok(MemInputs::new(files, fails.to_vec(alloc)?))
}

// How many packets come, and the stop behind them, if there is one.
fn outcome<I: Inputs>(alloc: Global, inputs: &mut I) -> (u32, Option<PcapStop>) {
    let mut reader = match PcapReader::begin(alloc, inputs, "trace") {
        Ok(reader) => reader,
        Err(stop) => return (0, Some(stop)),
    };
    for count in 0..u32::MAX {
        match reader.next(inputs) {
            Ok(Some(_)) => {}
            Ok(None) => return (count, None),
            Err(stop) => return (count, Some(stop)),
        }
    }
    (u32::MAX, None)
}

fn bad(fault: PcapFault) -> Option<PcapStop> {
    Some(PcapStop::Bad(fault))
}

// The frame comes three times, and then the end.
fn assert_frames<I: Inputs>(rt: &impl Abort, alloc: Global, inputs: &mut I) -> Result<(), Fail> {
    let mut reader = PcapReader::begin(alloc, inputs, "trace")?;
    assert_eq!(rt; reader.captured(), b"".as_slice());
    for _ in 0..3 {
        assert_eq!(rt; reader.next(inputs), Ok(Some(PACKET)));
        assert_eq!(rt; reader.captured(), FRAME.as_slice());
    }
    assert_eq!(rt; reader.next(inputs), Ok(None));
    assert_eq!(rt; reader.captured(), FRAME.as_slice());
    Ok(())
}

#[test]
fn gives_each_packet(rt: HostRuntime) -> Result<(), Fail> {
    let alloc = rt.alloc();
    for (header, head) in [(LITTLE, LITTLE_HEAD), (BIG, BIG_HEAD)] {
        let bytes = trace(alloc, &header, &head)?;
        assert_frames(&rt, alloc, &mut inputs(alloc, bytes, &[])?)?;
    }
    let bytes = trace(alloc, &LITTLE, &LITTLE_HEAD)?;
    let mut trickle = Trickle {
        inputs: inputs(alloc, bytes, &[])?,
    };
    assert_frames(&rt, alloc, &mut trickle)
}

// The trace of three records of the frame, with two bytes changed at each of two places.
fn changed(
    alloc: Global,
    (header, head): (&[u8], &[u8]),
    changes: [(usize, [u8; 2]); 2],
) -> Result<Vec<u8>, AllocError> {
    let mut bytes = trace(alloc, header, head)?;
    for (at, new) in changes {
        for (byte, new) in bytes.iter_mut().skip(at).zip(new) {
            *byte = new;
        }
    }
    Ok(bytes)
}

// The link of the first packet, if there is one.
fn first_link<I: Inputs>(alloc: Global, inputs: &mut I) -> Option<Link> {
    let mut reader = PcapReader::begin(alloc, inputs, "trace").ok()?;
    Some(reader.next(inputs).ok()??.link)
}

// Times in nanoseconds with little-endian numbers, in microseconds with big-endian ones, and each link.
#[test]
fn reads_every_magic_and_link(rt: HostRuntime) -> Result<(), Fail> {
    let alloc = rt.alloc();
    let little = (LITTLE.as_slice(), LITTLE_HEAD.as_slice());
    let big = (BIG.as_slice(), BIG_HEAD.as_slice());
    for (parts, changes, link) in [
        (little, [(0, [0x4d, 0x3c]), (20, [1, 0])], Link::Ethernet),
        (little, [(0, [0x4d, 0x3c]), (20, [101, 0])], Link::Raw),
        (big, [(2, [0xc3, 0xd4]), (22, [0, 113])], Link::Cooked1),
        (big, [(2, [0xc3, 0xd4]), (22, [1, 20])], Link::Cooked2),
    ] {
        let mut inputs = inputs(alloc, changed(alloc, parts, changes)?, &[])?;
        assert_eq!(rt; first_link(alloc, &mut inputs), Some(link), "{changes:?}");
    }
    Ok(())
}

// The trace of three little-endian records with four bytes changed at a place, cut to a length.
#[test]
fn tells_the_first_fault(rt: HostRuntime) -> Result<(), Fail> {
    let alloc = rt.alloc();
    let short = bad(PcapFault::ShortRecord { at: 140 });
    let long = PcapFault::LongRecord {
        at: 24,
        length: 262_145,
    };
    for (at, changed, length, packets, stop) in [
        (20, [1, 0, 0, 0xf0], 198, 3, None),
        (20, [1, 0, 0, 0], 140, 2, None),
        (20, [1, 0, 0, 0], 24, 0, None),
        (
            20,
            [1, 0, 0, 0],
            23,
            0,
            bad(PcapFault::ShortHeader { at: 23 }),
        ),
        (20, [1, 0, 0, 0], 141, 2, short),
        (20, [1, 0, 0, 0], 197, 2, short),
        (
            0,
            [10, 13, 13, 10],
            28,
            0,
            bad(PcapFault::NotClassic { magic: 0x0a0d_0d0a }),
        ),
        (
            4,
            [2, 0, 3, 0],
            198,
            0,
            bad(PcapFault::Version { major: 2, minor: 3 }),
        ),
        (20, [2, 0, 0, 0], 198, 0, bad(PcapFault::Link { number: 2 })),
        (32, [1, 0, 4, 0], 198, 0, bad(long)),
    ] {
        let mut bytes = trace(alloc, &LITTLE, &LITTLE_HEAD)?;
        for (byte, new) in bytes.iter_mut().skip(at).zip(changed) {
            *byte = new;
        }
        bytes.truncate(length);
        let told = outcome(alloc, &mut inputs(alloc, bytes, &[])?);
        assert_eq!(rt;
            told,
            (packets, stop),
            "{changed:?} at {at}, cut to {length}"
        );
    }
    Ok(())
}

// A header, and zeros up to a length.
#[test]
fn takes_the_greatest(rt: HostRuntime) -> Result<(), Fail> {
    let alloc = rt.alloc();
    for (captured, length, packets, stop) in [
        ([0, 0, 4, 0], 262_184, 1, None),
        ([0, 0, 0, 0], 16_777_240, 1_048_576, None),
        ([0, 0, 0, 0], 16_777_241, 1_048_576, bad(PcapFault::TooMany)),
    ] {
        let mut bytes = LITTLE.to_vec(alloc)?;
        bytes.extend_from_slice(&[0; 8])?;
        bytes.extend_from_slice(&captured)?;
        bytes.resize(length, 0)?;
        let told = outcome(alloc, &mut inputs(alloc, bytes, &[])?);
        assert_eq!(rt; told, (packets, stop), "{length} bytes");
    }
    Ok(())
}

#[test]
fn stops_at_a_failed_read(rt: HostRuntime) -> Result<(), Fail> {
    let alloc = rt.alloc();
    let bytes = trace(alloc, &LITTLE, &LITTLE_HEAD)?;
    // The pick, the header, two pieces of the first record, the head of the second.
    let mut failing = inputs(alloc, bytes, &[5])?;
    let mut reader = PcapReader::begin(alloc, &mut failing, "trace")?;
    assert_eq!(rt; reader.next(&mut failing), Ok(Some(PACKET)));
    assert_eq!(rt; reader.next(&mut failing), Err(PcapStop::Read));
    assert_eq!(rt; reader.captured(), b"".as_slice());
    assert_eq!(rt; reader.next(&mut failing), Err(PcapStop::Read));
    assert_eq!(rt;
        PcapReader::begin(alloc, &mut failing, "other").err(),
        Some(PcapStop::Read)
    );
    Ok(())
}
