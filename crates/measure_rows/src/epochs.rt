//! The change from an epoch to the next, and heaps that drop a key.

use crate::made::{FRAME, ONE_SWITCH, assert_lines, trace_of, written};
use std::alloc::{AllocError, Global};
use std::test::Fail;

// The measure of three packets of a key, and of five of it a minute later.
const TWO_EPOCHS: &str = "univmon measure 1
packets 8 keyed 8 routed 8
sketch seed 1 levels 12 rows 5 width 1024 heap 64 weight packets
placement optimal cost 15 bound 15
path p0 s0
switch s0 load 5 capacity 10
epoch 0 packets 3 weight 3 heaps kept
cardinality 1
total 3
heavy 10.0.0.1 1000 10.1.0.2 53 17 weight 3
epoch 1 packets 5 weight 5 heaps kept
cardinality 1
total 5
heavy 10.0.0.1 1000 10.1.0.2 53 17 weight 5
change 0 1 total 2
changed 10.0.0.1 1000 10.1.0.2 53 17 by 2
end
";

#[test]
fn two_epochs_of_one_key(rt: HostRuntime) -> Result<(), Fail> {
    let mut records = Vec::new(rt.alloc());
    for seconds in [100, 100, 100, 160, 160, 160, 160, 160] {
        records.push((seconds, FRAME))?;
    }
    let trace = trace_of(rt.alloc(), &records)?;
    let line = "measure T A --epoch 60";
    let sink = written(&rt, rt.alloc(), line, ONE_SWITCH, &trace)?;
    assert_eq!(rt; sink.bytes(), TWO_EPOCHS.as_bytes());
    Ok(())
}

// The lines of the epochs in a text, without those of levels.
fn epoch_lines(alloc: Global, text: &[u8]) -> Result<Vec<u8>, AllocError> {
    let mut lines = Vec::new(alloc);
    for line in text.split(|byte| *byte == b'\n') {
        let behind = !lines.is_empty() || line.starts_with(b"epoch ");
        if behind && !line.starts_with(b"level ") {
            lines.extend_from_slice(line)?;
            lines.push(b'\n')?;
        }
    }
    Ok(lines)
}

#[test]
fn heaps_of_one_key_and_of_two(rt: HostRuntime) -> Result<(), Fail> {
    let alloc = rt.alloc();
    let mut other = FRAME;
    other[35] = 0xe9;
    let trace = trace_of(alloc, &[(100, FRAME), (100, FRAME), (100, other)])?;
    let dropped = written(&rt, alloc, "measure T A --heap 1", ONE_SWITCH, &trace)?;
    let line = "epoch 0 packets 3 weight 3 heaps dropped";
    assert_lines(&rt, dropped.bytes(), &[line]);
    let kept = written(&rt, alloc, "measure T A --heap 2", ONE_SWITCH, &trace)?;
    let line = "epoch 0 packets 3 weight 3 heaps kept";
    assert_lines(&rt, kept.bytes(), &[line]);
    let central = written(&rt, alloc, "central A", ONE_SWITCH, &trace)?;
    let lines = epoch_lines(alloc, central.bytes())?;
    assert_eq!(rt; epoch_lines(alloc, kept.bytes())?, lines);
    Ok(())
}
