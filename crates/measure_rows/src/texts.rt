//! Whole texts, and lines of them, of children that are answered in this process.

use crate::made::{
    FRAME, HEADER, ONE_SWITCH, PRICED, WIDE_PATH, assert_lines, three_packets, trace_of, written,
};
use std::alloc::{AllocError, Global};
use std::test::Fail;

// The measure of three packets of one key.
const THREE_PACKETS: &str = "univmon measure 1
packets 3 keyed 3 routed 3
sketch seed 1 levels 12 rows 5 width 1024 heap 64 weight packets
placement optimal cost 15 bound 15
path p0 s0
switch s0 load 5 capacity 10
epoch 0 packets 3 weight 3 heaps kept
cardinality 1
total 3
heavy 10.0.0.1 1000 10.1.0.2 53 17 weight 3
end
";

// The same with another seed.
const OTHER_SEED: &str = "univmon measure 1
packets 3 keyed 3 routed 3
sketch seed 18446744073709551615 levels 12 rows 5 width 1024 heap 64 weight packets
placement optimal cost 15 bound 15
path p0 s0
switch s0 load 5 capacity 10
epoch 0 packets 3 weight 3 heaps kept
cardinality 1
total 3
heavy 10.0.0.1 1000 10.1.0.2 53 17 weight 3
end
";

// The same where bytes are counted: three times 42.
const IN_BYTES: &str = "univmon measure 1
packets 3 keyed 3 routed 3
sketch seed 1 levels 12 rows 5 width 1024 heap 64 weight bytes
placement optimal cost 15 bound 15
path p0 s0
switch s0 load 5 capacity 10
epoch 0 packets 3 weight 126 heaps kept
cardinality 1
total 126
heavy 10.0.0.1 1000 10.1.0.2 53 17 weight 126
end
";

// The measure of no packet.
const NO_PACKETS: &str = "univmon measure 1
packets 0 keyed 0 routed 0
sketch seed 1 levels 12 rows 5 width 1024 heap 64 weight packets
placement optimal cost 15 bound 15
path p0 s0
switch s0 load 5 capacity 10
epoch 0 packets 0 weight 0 heaps kept
cardinality 0
total 0
end
";

// The magic number of times in nanoseconds, and big-endian numbers.
const BIG_HEADER: [u8; 24] = [
    0xa1, 0xb2, 0x3c, 0x4d, 0, 2, 0, 4, 0, 0, 0, 0, 0, 0, 0, 0, 0, 0, 0xff, 0xff, 0, 0, 0, 1,
];

const BIG_HEAD: [u8; 16] = [0, 0, 0, 100, 0, 0, 0, 0, 0, 0, 0, 42, 0, 0, 0, 42];

// Three packets of one key, with big-endian numbers.
fn big_endian(alloc: Global) -> Result<Vec<u8>, AllocError> {
    let mut bytes = BIG_HEADER.to_vec(alloc)?;
    for _ in 0..3 {
        bytes.extend_from_slice(&BIG_HEAD)?;
        bytes.extend_from_slice(&FRAME)?;
    }
    Ok(bytes)
}

#[test]
fn packets_of_one_key(rt: HostRuntime) -> Result<(), Fail> {
    let three = three_packets(rt.alloc())?;
    let big = big_endian(rt.alloc())?;
    let seed = "measure T A --seed 18446744073709551615";
    for (line, trace, text) in [
        ("measure T A", three.as_slice(), THREE_PACKETS),
        (seed, three.as_slice(), OTHER_SEED),
        ("measure T A --weight bytes", three.as_slice(), IN_BYTES),
        ("measure T A", big.as_slice(), THREE_PACKETS),
        ("measure T A", HEADER.as_slice(), NO_PACKETS),
    ] {
        let sink = written(&rt, rt.alloc(), line, ONE_SWITCH, trace)?;
        assert_eq!(rt; sink.bytes(), text.as_bytes(), "{line}");
    }
    Ok(())
}

#[test]
fn a_packet_without_a_path_and_no_packet(rt: HostRuntime) -> Result<(), Fail> {
    let mut stray = FRAME;
    stray[26..30].copy_from_slice(&[192, 168, 0, 1]);
    let trace = trace_of(rt.alloc(), &[(100, FRAME), (100, stray)])?;
    let sink = written(&rt, rt.alloc(), "measure T A", WIDE_PATH, &trace)?;
    let lines = [
        "packets 2 keyed 2 routed 1",
        "placement optimal cost 20 bound 20",
        "path p0 s0",
        "epoch 0 packets 1 weight 1 heaps kept",
        "heavy 10.0.0.1 1000 10.1.0.2 53 17 weight 1",
    ];
    assert_lines(&rt, sink.bytes(), &lines);
    let sink = written(&rt, rt.alloc(), "measure T A", PRICED, &HEADER)?;
    let lines = [
        "placement optimal cost 12 bound 12",
        "path p0 b",
        "path p1 b",
        "switch a load 0 capacity 10",
        "switch b load 8 capacity 10",
    ];
    assert_lines(&rt, sink.bytes(), &lines);
    Ok(())
}
