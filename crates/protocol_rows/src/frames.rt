//! A job of two frames.
ghost use Rattle.std.specs.Prelude.{◌≡◌, ◌≤◌, length, IfOk};

use crate::jobs::{assert_no_job, assert_written, job_of};
use crate::made::params;
use child_jobs::{write_frame, write_head};
use flow_keys::FlowKey;
use job_format::{Item, Job, JobFault};
use std::alloc::{AllocError, Global};
use std::process::Abort;
use std::test::Fail;

// So many items of one key.
fn items_of(rt: &impl Abort, alloc: Global, count: usize) -> Result<Vec<Item>, AllocError>
    ensures count { IfOk result (λ items. length items.items ≡ count) }
{
    let key = FlowKey::from_words([4, 1, 0, 0, 0, 2, 0, 0, 0, 0, 17]).expect(rt, "a valid key");
    vec![in alloc; Item { key, weight: 1 }; count]
}

// The bytes of a job of these two frames.
fn two_frames(rt: &impl Abort, alloc: Global, first: &[Item], second: &[Item]) -> Vec<u8>
    requires first { length first.now ≤ 4096 }
    requires second { length second.now ≤ 4096 }
{
    let mut bytes = Vec::new(alloc);
    assert!(rt; write_head(0, &params(rt), &mut bytes).is_ok());
    assert!(rt; write_frame(first, &mut bytes).is_ok());
    assert!(rt; write_frame(second, &mut bytes).is_ok());
    assert!(rt; write_frame(&[], &mut bytes).is_ok());
    bytes
}

#[test]
fn a_full_frame_and_one_item(rt: HostRuntime) -> Result<(), Fail> {
    let full = items_of(&rt, rt.alloc(), 4096)?;
    let one = items_of(&rt, rt.alloc(), 1)?;
    let bytes = two_frames(&rt, rt.alloc(), &full, &one);
    assert_eq!(rt; bytes.len(), 196_686);
    let job = job_of(&rt, rt.alloc(), &bytes);
    assert_written(&rt, rt.alloc(), &job, &bytes);
    match &job {
        Job::Replay { items, .. } => assert_eq!(rt; items.len(), 4097),
        Job::Solve { .. } => panic!(rt; "a replay job"),
    }
    Ok(())
}

#[test]
fn a_first_frame_that_is_not_full(rt: HostRuntime) -> Result<(), Fail> {
    let first = items_of(&rt, rt.alloc(), 4095)?;
    let second = items_of(&rt, rt.alloc(), 2)?;
    let bytes = two_frames(&rt, rt.alloc(), &first, &second);
    assert_no_job(&rt, rt.alloc(), &bytes, JobFault::Shape);
    Ok(())
}
