//! Inputs and sinks that fail.

use crate::made::{ONE_SWITCH, THREE_PACKETS, files_of, three_packets, words_of};
use child_worker::WorkerAnswer;
use inline_crew::InlineCrew;
use mon_command::{Input, Status, run};
use mon_io::{MemInputs, MemSink};
use std::alloc::Global;
use std::process::Abort;
use std::test::Fail;

// How a measure of three packets ends where these calls of the inputs and of the sink fail, and what it wrote.
fn measured(
    alloc: Global,
    reads_fail: &[u32],
    writes_fail: &[u32],
) -> Result<(Status, MemSink), Fail> {
    let words = words_of(alloc, "measure T A")?;
    let files = files_of(alloc, ONE_SWITCH, &three_packets(alloc)?)?;
    let mut inputs = MemInputs::new(files, reads_fail.to_vec(alloc)?);
    let mut sink = MemSink::new(alloc, 4096, writes_fail.to_vec(alloc)?)?;
    let mut crew = InlineCrew::new(alloc, WorkerAnswer::new(alloc));
    let status = run(alloc, &words, &mut inputs, &mut crew, &mut sink);
    Ok((status, sink))
}

#[test]
fn each_call_of_the_inputs_fails(rt: HostRuntime) -> Result<(), Fail> {
    let mut due = Input::Topology;
    for call in 0..64 {
        let (status, sink) = measured(rt.alloc(), &[call], &[])?;
        match status {
            Status::Done => {
                assert_eq!(rt; due, Input::Trace);
                assert_eq!(rt; sink.bytes(), THREE_PACKETS.as_bytes());
                return Ok(());
            }
            Status::ReadFault(Input::Trace) if call > 0 => due = Input::Trace,
            other => assert_eq!(rt; other, Status::ReadFault(due), "call {call}"),
        }
        assert_eq!(rt; sink.bytes().len(), 0);
    }
    panic!(rt; "fewer calls than 64")
}

#[test]
fn each_call_of_the_sink_fails(rt: HostRuntime) -> Result<(), Fail> {
    let text = THREE_PACKETS.as_bytes();
    for call in 0..64 {
        let (status, sink) = measured(rt.alloc(), &[], &[call])?;
        if status == Status::Done {
            assert!(rt; call > 0, "the text is written");
            assert_eq!(rt; sink.bytes(), text);
            return Ok(());
        }
        assert_eq!(rt; status, Status::SinkFault, "call {call}");
        assert!(rt; text.starts_with(sink.bytes()), "call {call}");
        assert!(rt; call > 0 || sink.bytes().is_empty(), "nothing at first");
    }
    panic!(rt; "fewer calls than 64")
}
