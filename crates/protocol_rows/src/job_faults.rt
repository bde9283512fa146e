//! Bytes that are no job.

use crate::jobs::{assert_no_job, job_of};
use crate::made::{EMPTY_JOB, SOLVE_JOB, changed, joined};
use job_format::JobFault;
use std::test::Fail;

#[test]
fn no_job_without_items(rt: HostRuntime) -> Result<(), Fail> {
    let table = [
        (0, 0x54, JobFault::Magic),
        (3, 0, JobFault::Magic),
        (4, 2, JobFault::Version),
        (5, 2, JobFault::Shape),
        (10, 17, JobFault::Shape),
        (11, 2, JobFault::Shape),
        (12, 17, JobFault::Shape),
        (14, 0, JobFault::Shape),
        (15, 5, JobFault::Shape),
    ];
    for (at, byte, fault) in table {
        let bytes = changed(rt.alloc(), &EMPTY_JOB, at, byte)?;
        assert_no_job(&rt, rt.alloc(), &bytes, fault);
    }
    let crowded = joined(rt.alloc(), &[&EMPTY_JOB[..24], &[0x01, 0x10]])?;
    assert_no_job(&rt, rt.alloc(), &crowded, JobFault::Shape);
    Ok(())
}

// A frame of one item with a key of family 4, and the closing count.
const ITEM: [u8; 52] = [
    1, 0, 4, 0, 0, 0, 1, 0, 0, 0, 0, 0, 0, 0, 0, 0, 0, 0, 0, 0, 0, 0, 2, 0, 0, 0, 0, 0, 0, 0, 0, 0,
    0, 0, 0, 0, 0, 0, 0, 0, 0, 0, 17, 0, 0, 0, 1, 0, 0, 0, 0, 0,
];

#[test]
fn a_key_of_no_family(rt: HostRuntime) -> Result<(), Fail> {
    let bytes = joined(rt.alloc(), &[&EMPTY_JOB[..24], &ITEM])?;
    let _job = job_of(&rt, rt.alloc(), &bytes);
    let bytes = changed(rt.alloc(), &bytes, 26, 5)?;
    assert_no_job(&rt, rt.alloc(), &bytes, JobFault::Shape);
    Ok(())
}

#[test]
fn no_search(rt: HostRuntime) -> Result<(), Fail> {
    // No node, 4,352 nodes, no site, no need, a load of 0, an empty via, and an unknown site.
    for (at, byte) in [
        (11, 0),
        (11, 17),
        (12, 0),
        (23, 0),
        (24, 0),
        (26, 0),
        (27, 1),
    ] {
        let bytes = changed(rt.alloc(), &SOLVE_JOB, at, byte)?;
        assert_no_job(&rt, rt.alloc(), &bytes, JobFault::Shape);
    }
    Ok(())
}

#[test]
fn a_site_twice_in_a_via(rt: HostRuntime) -> Result<(), Fail> {
    let site = &SOLVE_JOB[13..23];
    let front = joined(rt.alloc(), &[&SOLVE_JOB[..12], &[2], site, site])?;
    let bytes = joined(rt.alloc(), &[&front, &[1, 5, 0, 2, 0, 1]])?;
    let _job = job_of(&rt, rt.alloc(), &bytes);
    let bytes = joined(rt.alloc(), &[&front, &[1, 5, 0, 2, 0, 0]])?;
    assert_no_job(&rt, rt.alloc(), &bytes, JobFault::Shape);
    Ok(())
}
