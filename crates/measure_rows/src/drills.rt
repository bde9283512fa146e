//! The made trace and topology, and the measure of them.

use crate::made::{HEADER, assert_lines, written};
use std::test::Fail;
use topology::Topology;

#[test]
fn a_trace_and_a_topology_are_made(rt: HostRuntime) -> Result<(), Fail> {
    let alloc = rt.alloc();
    let trace = written(&rt, alloc, "generate trace --packets 0", "", &[])?;
    assert_eq!(rt; trace.bytes(), HEADER.as_slice());
    let text = written(&rt, alloc, "generate topology", "", &[])?;
    let topology = Topology::from_toml(alloc, text.bytes())?;
    assert_eq!(rt; topology.switches(), 12);
    assert_eq!(rt; topology.paths(), 30);
    Ok(())
}

#[test]
fn a_drill_of_many_packets(rt: HostRuntime) -> Result<(), Fail> {
    let sink = written(&rt, rt.alloc(), "drill", "", &[])?;
    let lines = [
        "univmon drill 1",
        "packets 200000 keyed 200000 routed 200000",
        "sketch seed 1 levels 12 rows 5 width 1024 heap 64 weight packets",
        "epoch 0 packets 200000 weight 200000 heaps dropped",
        "cardinality 16597",
        "total 188058",
    ];
    assert_lines(&rt, sink.bytes(), &lines);
    Ok(())
}
