//! Calls that start nobody, and those whose input or sink fails.

use crate::made::{CROWDED, PRICED, inputs_of, run_over, words_of};
use child_worker::WorkerAnswer;
use inline_crew::InlineCrew;
use mon_command::{Input, Status, run, run_alone};
use mon_io::MemSink;
use std::alloc::Global;
use std::process::Abort;
use std::test::Fail;
use topology::TopologyFault;

// The header of a trace.
const TRACE: [u8; 24] = [
    0xd4, 0xc3, 0xb2, 0xa1, 2, 0, 4, 0, 0, 0, 0, 0, 0, 0, 0, 0, 0xff, 0xff, 0, 0, 1, 0, 0, 0,
];

// A tree which shows that no placement fits `CROWDED`.
const TREE: &str = "univmon tree 1\nhall 2 0 1\nend\n";

// Job 0, a search of 1,024 nodes in `CROWDED`, and its reply with that tree.
const JOB: [u8; 32] = [
    0x55, 0x4d, 0x4a, 0x42, 1, 1, 0, 0, 0, 0, 0, 4, 1, 8, 0, 0, 0, 0, 0, 0, 0, 0, 0, 2, 5, 0, 1, 0,
    5, 0, 1, 0,
];

const REPLY: [u8; 15] = [0x55, 0x4d, 0x52, 0x50, 2, 1, 0, 0, 0, 0, 1, 2, 2, 0, 1];

const CENTRAL: &str = "univmon central 1
packets 0 keyed 0 routed 0
sketch seed 1 levels 0 rows 1 width 16 heap all weight packets
epoch 0 packets 0 weight 0 heaps kept
level 0 packets 0 weight 0 keys 0 nonzero 0
cardinality 0
total 0
end
";

// The command of a line over the four files writes this text and starts nobody; without a crew it writes the same.
fn assert_alone(rt: &impl Abort, alloc: Global, line: &str, text: &[u8]) -> Result<(), Fail> {
    let words = words_of(alloc, line)?;
    let files = [
        ("A", TRACE.as_slice()),
        ("T", CROWDED.as_bytes()),
        ("C", TREE.as_bytes()),
        ("-", JOB.as_slice()),
    ];
    let mut crew = InlineCrew::new(alloc, WorkerAnswer::new(alloc));
    let mut sink = MemSink::new(alloc, 512, Vec::new(alloc))?;
    let mut inputs = inputs_of(alloc, &files, &[])?;
    let status = run(alloc, &words, &mut inputs, &mut crew, &mut sink);
    assert_eq!(rt; status, Status::Done, "{line}");
    assert_eq!(rt; sink.bytes(), text, "{line}");
    assert_eq!(rt; crew.entries().len(), 0, "{line}");
    let mut other_sink = MemSink::new(alloc, 512, Vec::new(alloc))?;
    let mut inputs = inputs_of(alloc, &files, &[])?;
    let status = run_alone(alloc, &words, &mut inputs, &mut other_sink);
    assert_eq!(rt; status, Status::Done, "{line}");
    assert_eq!(rt; other_sink.bytes(), text, "{line}");
    Ok(())
}

#[test]
fn four_commands_start_nobody(rt: HostRuntime) -> Result<(), Fail> {
    let total = "univmon total 1\npackets 0\nkeyed 0\nunkeyed 0\nend\n";
    let check = "univmon check 1\nbound none\nbranches 0\nfull no\nend\n";
    let central = "central A --levels 0 --rows 1 --width 16";
    assert_alone(&rt, rt.alloc(), "total A", total.as_bytes())?;
    assert_alone(&rt, rt.alloc(), central, CENTRAL.as_bytes())?;
    assert_alone(&rt, rt.alloc(), "check T C", check.as_bytes())?;
    assert_alone(&rt, rt.alloc(), "child", &REPLY)
}

// With this topology, of which the calls with these numbers fail, nothing is written and nobody is started.
fn assert_refused(
    rt: &impl Abort,
    alloc: Global,
    topology: &str,
    fails: &[u32],
    status: Status,
) -> Result<(), Fail> {
    let words = words_of(alloc, "place T")?;
    let mut inputs = inputs_of(alloc, &[("T", topology.as_bytes())], fails)?;
    let mut crew = InlineCrew::new(alloc, WorkerAnswer::new(alloc));
    let mut sink = MemSink::new(alloc, 512, Vec::new(alloc))?;
    let ended = run(alloc, &words, &mut inputs, &mut crew, &mut sink);
    assert_eq!(rt; ended, status);
    assert_eq!(rt; crew.entries().len(), 0);
    assert!(rt; sink.bytes().is_empty());
    Ok(())
}

#[test]
fn no_topology_starts_nobody(rt: HostRuntime) -> Result<(), Fail> {
    let fault = Status::Topology(TopologyFault::NotToml);
    assert_refused(&rt, rt.alloc(), "x", &[], fault)?;
    let fault = Status::ReadFault(Input::Topology);
    assert_refused(&rt, rt.alloc(), PRICED, &[0], fault)
}

#[test]
fn a_sink_that_is_full(rt: HostRuntime) -> Result<(), Fail> {
    let alloc = rt.alloc();
    let mut crew = InlineCrew::new(alloc, WorkerAnswer::new(alloc));
    let mut sink = MemSink::new(alloc, 20, Vec::new(alloc))?;
    let ended = run_over(alloc, "place T", PRICED, &mut crew, &mut sink)?;
    assert_eq!(rt; ended, Status::SinkFault);
    assert_eq!(rt; sink.bytes(), b"univmon place 1\nnode".as_slice());
    Ok(())
}
