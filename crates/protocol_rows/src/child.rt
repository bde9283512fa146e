//! What a child answers to its standard input.

use crate::made::{EMPTY_JOB, SOLVE_JOB, SOLVE_REPLY, joined};
use child_worker::{ChildStatus, answer};
use job_format::JobFault;
use mon_io::{MemInputs, MemSink};
use std::alloc::{AllocError, Global};
use std::process::Abort;
use std::test::Fail;

// The reply to the job without items, version 2.
const EMPTY_REPLY: [u8; 32] = [
    0x55, 0x4d, 0x52, 0x50, 2, 0, 0, 0, 0, 0, 0, 1, 16, 0, 1, 0, 0, 0, 0, 0, 0, 0, 0, 0, 0, 0, 0,
    0, 0, 0, 0, 0,
];

// Standard input with these bytes, of which the calls with these numbers fail.
fn input(alloc: Global, bytes: &[u8], fails: &[u32]) -> Result<MemInputs, AllocError> {
    let mut files = Vec::new(alloc);
    files.push((String::from_str(alloc, "-")?, bytes.to_vec(alloc)?))?;
    Ok(MemInputs::new(files, fails.to_vec(alloc)?))
}

// A child ends so, and writes this.
fn assert_answer(
    rt: &impl Abort,
    alloc: Global,
    job: &[u8],
    status: ChildStatus,
    reply: &[u8],
) -> Result<(), Fail> {
    let mut sink = MemSink::new(alloc, 64, Vec::new(alloc))?;
    let end = answer(alloc, &mut input(alloc, job, &[])?, &mut sink);
    assert_eq!(rt; end, status);
    assert_eq!(rt; sink.bytes(), reply);
    Ok(())
}

#[test]
fn a_job_is_answered(rt: HostRuntime) -> Result<(), Fail> {
    assert_answer(&rt, rt.alloc(), &EMPTY_JOB, ChildStatus::Done, &EMPTY_REPLY)?;
    assert_answer(&rt, rt.alloc(), &SOLVE_JOB, ChildStatus::Done, &SOLVE_REPLY)
}

#[test]
fn no_job_is_answered(rt: HostRuntime) -> Result<(), Fail> {
    let short = ChildStatus::Job(JobFault::Short);
    assert_answer(&rt, rt.alloc(), &EMPTY_JOB[..25], short, &[])?;
    let extra = ChildStatus::Job(JobFault::Extra);
    let longer = joined(rt.alloc(), &[&EMPTY_JOB, &[0]])?;
    assert_answer(&rt, rt.alloc(), &longer, extra, &[])
}

#[test]
fn an_input_or_a_sink_fails(rt: HostRuntime) -> Result<(), Fail> {
    let alloc = rt.alloc();
    // The pick, and the first and the second read.
    for call in [0, 1, 2] {
        let mut sink = MemSink::new(alloc, 64, Vec::new(alloc))?;
        let end = answer(alloc, &mut input(alloc, &EMPTY_JOB, &[call])?, &mut sink);
        assert_eq!(rt; end, ChildStatus::Read, "call {call}");
        assert_eq!(rt; sink.bytes().len(), 0);
    }
    let mut sink = MemSink::new(alloc, 64, [0].to_vec(alloc)?)?;
    let end = answer(alloc, &mut input(alloc, &EMPTY_JOB, &[])?, &mut sink);
    assert_eq!(rt; end, ChildStatus::Sink);
    assert_eq!(rt; sink.bytes().len(), 0);
    Ok(())
}
