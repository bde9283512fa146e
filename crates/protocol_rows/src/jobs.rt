//! Jobs without items, and a search, read and written.
ghost use Rattle.job_format.specs.Job.{IsJob, job_of};

use crate::made::{EMPTY_JOB, SOLVE_JOB, joined, params};
use child_jobs::{read_job, write_job, write_solve};
use job_format::{Job, JobFault};
use std::alloc::{AllocError, Global};
use std::process::Abort;
use std::test::Fail;

/// The job that the bytes spell.
pub(crate) fn job_of(rt: &impl Abort, alloc: Global, bytes: &[u8]) -> Job
    ensures within { IsJob (job_of result) }
{
    match read_job(alloc, bytes) {
        Ok(job) => job,
        Err(_) => panic!(rt; "no job"),
    }
}

/// The bytes are no job, for this reason.
pub(crate) fn assert_no_job(rt: &impl Abort, alloc: Global, bytes: &[u8], fault: JobFault) {
    match read_job(alloc, bytes) {
        Ok(_) => panic!(rt; "a job where {fault:?} was due"),
        Err(why) => assert_eq!(rt; why, fault),
    }
}

/// A job that is written as these bytes.
pub(crate) fn assert_written(rt: &impl Abort, alloc: Global, job: &Job, bytes: &[u8])
    requires within { IsJob (job_of job.now) }
{
    let mut out = Vec::new(alloc);
    assert!(rt; write_job(job, &mut out).is_ok());
    assert!(rt; out.as_slice() == bytes);
}

#[test]
fn a_job_without_items(rt: HostRuntime) -> Result<(), Fail> {
    let job = job_of(&rt, rt.alloc(), &EMPTY_JOB);
    assert_written(&rt, rt.alloc(), &job, &EMPTY_JOB);
    match &job {
        Job::Replay {
            job: number,
            params: numbers,
            items,
        } => {
            assert_eq!(rt; *number, 0);
            assert_eq!(rt; *numbers, params(&rt));
            assert_eq!(rt; items.len(), 0);
        }
        Job::Solve { .. } => panic!(rt; "a replay job"),
    }
    Ok(())
}

#[test]
fn a_byte_less_and_a_byte_more(rt: HostRuntime) -> Result<(), Fail> {
    assert_no_job(&rt, rt.alloc(), &EMPTY_JOB[..25], JobFault::Short);
    let longer = joined(rt.alloc(), &[&EMPTY_JOB, &[0]])?;
    assert_no_job(&rt, rt.alloc(), &longer, JobFault::Extra);
    assert_no_job(&rt, rt.alloc(), &SOLVE_JOB[..31], JobFault::Short);
    let longer = joined(rt.alloc(), &[&SOLVE_JOB, &[0]])?;
    assert_no_job(&rt, rt.alloc(), &longer, JobFault::Extra);
    Ok(())
}

#[test]
fn a_search(rt: HostRuntime) -> Result<(), Fail> {
    let job = job_of(&rt, rt.alloc(), &SOLVE_JOB);
    assert_written(&rt, rt.alloc(), &job, &SOLVE_JOB);
    match &job {
        Job::Solve {
            job: number,
            nodes,
            problem,
        } => {
            assert_eq!(rt; *number, 0);
            assert_eq!(rt; *nodes, 1024);
            let mut out = Vec::new(rt.alloc());
            assert!(rt; write_solve(0, 1024, problem, &mut out).is_ok());
            assert!(rt; out.as_slice() == SOLVE_JOB.as_slice());
        }
        Job::Replay { .. } => panic!(rt; "a search"),
    }
    Ok(())
}
