//! The bytes of traces.
use std::test::Fail;
use trace_maker::trace_bytes;

const HEADER: [u8; 24] = [
    0xd4, 0xc3, 0xb2, 0xa1, 2, 0, 4, 0, 0, 0, 0, 0, 0, 0, 0, 0, 0xff, 0xff, 0, 0, 1, 0, 0, 0,
];

// The first three packets of seed 1, of 20,000 flows.
const FIRST: [u8; 58] = [
    0, 0x10, 0x5e, 0x5f, 0, 0, 0, 0, 0x2a, 0, 0, 0, 0xf, 2, 0, 0, 2, 0, 0, 0, 0, 2, 2, 0, 0, 0, 0,
    1, 8, 0, 0x45, 0, 2, 1, 0, 0, 0, 0, 0x40, 6, 0, 0, 0xa, 7, 1, 0x4e, 0xa, 0x6b, 0, 1, 0x2b,
    0x2b, 1, 0xbb, 0, 0, 0, 0,
];

const SECOND: [u8; 58] = [
    0, 0x10, 0x5e, 0x5f, 0x14, 0, 0, 0, 0x2a, 0, 0, 0, 0xbc, 4, 0, 0, 2, 0, 0, 0, 0, 2, 2, 0, 0, 0,
    0, 1, 8, 0, 0x45, 0, 4, 0xae, 0, 0, 0, 0, 0x40, 6, 0, 0, 0xa, 5, 0, 0x5f, 0xa, 0x69, 0, 1, 0xf,
    0x27, 1, 0xbb, 0, 0, 0, 0,
];

const THIRD: [u8; 58] = [
    0, 0x10, 0x5e, 0x5f, 0x28, 0, 0, 0, 0x2a, 0, 0, 0, 0x36, 5, 0, 0, 2, 0, 0, 0, 0, 2, 2, 0, 0, 0,
    0, 1, 8, 0, 0x45, 0, 5, 0x28, 0, 0, 0, 0, 0x40, 0x11, 0, 0, 0xa, 0x10, 0, 0xb9, 0xa, 0x74, 0,
    1, 0x19, 0xbe, 1, 0xbb, 0, 0, 0, 0,
];

// The thousandth packet.
const THOUSANDTH: [u8; 58] = [
    0, 0x10, 0x5e, 0x5f, 0xc, 0x4e, 0, 0, 0x2a, 0, 0, 0, 0x83, 0, 0, 0, 2, 0, 0, 0, 0, 2, 2, 0, 0,
    0, 0, 1, 8, 0, 0x45, 0, 0, 0x75, 0, 0, 0, 0, 0x40, 0x11, 0, 0, 0xa, 8, 1, 0xdd, 0xa, 0x6c, 0,
    1, 0x3b, 0xee, 1, 0xbb, 0, 0, 0, 0,
];

// The first packet of the next second, of the greatest seed and of the most flows.
const A_SECOND_LATER: [u8; 58] = [
    1, 0x10, 0x5e, 0x5f, 0, 0, 0, 0, 0x2a, 0, 0, 0, 0x95, 5, 0, 0, 2, 0, 0, 0, 0, 2, 2, 0, 0, 0, 0,
    1, 8, 0, 0x45, 0, 5, 0x87, 0, 0, 0, 0, 0x40, 0x11, 0, 0, 0xa, 0x18, 3, 0x34, 0xa, 0x7c, 0, 1,
    0x64, 0x30, 1, 0xbb, 0, 0, 0, 0,
];

#[test]
fn a_trace_without_packets_is_its_header(rt: HostRuntime) -> Result<(), Fail> {
    let trace = trace_bytes(rt.alloc(), 0, 0, 1)?;
    assert_eq!(rt; trace.as_slice(), HEADER.as_slice());
    Ok(())
}

#[test]
fn three_packets(rt: HostRuntime) -> Result<(), Fail> {
    let trace = trace_bytes(rt.alloc(), 1, 3, 20_000)?;
    let mut wanted = HEADER.to_vec(rt.alloc())?;
    wanted.extend_from_slice(&FIRST)?;
    wanted.extend_from_slice(&SECOND)?;
    wanted.extend_from_slice(&THIRD)?;
    assert_eq!(rt; trace.as_slice(), wanted.as_slice());
    Ok(())
}

#[test]
fn a_thousand_packets(rt: HostRuntime) -> Result<(), Fail> {
    let trace = trace_bytes(rt.alloc(), 1, 1_000, 20_000)?;
    assert_eq!(rt; trace.len(), 58_024);
    assert!(rt; trace.as_slice().ends_with(&THOUSANDTH));
    Ok(())
}

#[test]
fn more_packets_than_a_second_has(rt: HostRuntime) -> Result<(), Fail> {
    let trace = trace_bytes(rt.alloc(), u64::MAX, 50_001, 65_536)?;
    assert!(rt; trace.as_slice().ends_with(&A_SECOND_LATER));
    Ok(())
}
