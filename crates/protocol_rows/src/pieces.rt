//! Jobs read in two pieces, at every cut.
ghost use Rattle.std.specs.Prelude.{◌≤◌, length};

use crate::made::{EMPTY_JOB, SOLVE_JOB};
use child_jobs::{JobEnd, JobReader};
use std::alloc::Global;
use std::process::Abort;
use std::test::Fail;

// What a job was whose bytes came in two pieces.
fn read_cut(rt: &impl Abort, alloc: Global, bytes: &[u8], cut: usize) -> JobEnd
    requires within { cut ≤ length bytes.now }
{
    let mut reader = JobReader::new(alloc).expect(rt, "ample memory");
    assert_eq!(rt; reader.feed(&bytes[..cut]), Ok(cut), "before {cut}");
    assert_eq!(rt;
        reader.feed(&bytes[cut..]),
        Ok(bytes.len() - cut),
        "behind {cut}"
    );
    assert!(rt;
        reader.head().is_some_and(|head| head.job == 0),
        "the head at {cut}"
    );
    reader.finish(alloc).expect(rt, "a job")
}

#[test]
fn a_job_without_items_in_two_pieces(rt: HostRuntime) {
    for cut in 0..27 {
        match read_cut(&rt, rt.alloc(), &EMPTY_JOB, cut) {
            JobEnd::Replay => {}
            JobEnd::Solve { .. } => panic!(rt; "a replay job, cut at {cut}"),
        }
    }
}

#[test]
fn a_search_in_two_pieces(rt: HostRuntime) {
    for cut in 0..33 {
        match read_cut(&rt, rt.alloc(), &SOLVE_JOB, cut) {
            JobEnd::Replay => panic!(rt; "a search, cut at {cut}"),
            JobEnd::Solve { nodes, .. } => assert_eq!(rt; nodes, 1024, "cut at {cut}"),
        }
    }
}
