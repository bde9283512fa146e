//! Replies of version 1, and the reply of a search.

use crate::made::{SOLVE_REPLY, changed, joined, params};
use bound_certificate::{Outcome, Tree};
use child_replies::read_reply;
use reply_format::{Expect, Reply, ReplyFault};
use std::alloc::{AllocError, Global};
use std::process::Abort;
use std::test::Fail;

// The head of the reply of version 1 to the job without items.
const HEAD: [u8; 28] = [
    0x55, 0x4d, 0x52, 0x50, 1, 0, 0, 0, 0, 0, 0, 1, 16, 0, 1, 0, 0, 0, 0, 0, 0, 0, 0, 0, 0, 0, 0, 0,
];

// That reply: 16 counters, and the length of the heap, are 0.
fn empty_reply(alloc: Global) -> Result<Vec<u8>, AllocError> {
    joined(alloc, &[&HEAD, &[0; 128], &[0; 2]])
}

fn expect_none(rt: &impl Abort) -> Expect {
    Expect::Replay {
        job: 0,
        params: params(rt),
        items: 0,
        weight: 0,
    }
}

// The bytes are no such reply, for this reason.
fn assert_no_reply(
    rt: &impl Abort,
    alloc: Global,
    bytes: &[u8],
    expect: &Expect,
    fault: ReplyFault,
) {
    match read_reply(alloc, bytes, expect) {
        Ok(_) => panic!(rt; "a reply where {fault:?} was due"),
        Err(why) => assert_eq!(rt; why, fault),
    }
}

#[test]
fn a_reply_of_version_1(rt: HostRuntime) -> Result<(), Fail> {
    let bytes = empty_reply(rt.alloc())?;
    assert_eq!(rt; bytes.len(), 158);
    match read_reply(rt.alloc(), &bytes, &expect_none(&rt)) {
        Ok(Reply::Replay { body, .. }) => {
            assert_eq!(rt; body.counters.as_slice(), [0; 16].as_slice());
            match body.heaps.as_slice() {
                [heap] => assert!(rt; heap.keys.is_empty() && !heap.dropped),
                _ => panic!(rt; "one heap"),
            }
        }
        _ => panic!(rt; "a replay reply"),
    }
    Ok(())
}

#[test]
fn a_changed_reply_of_version_1_is_refused(rt: HostRuntime) -> Result<(), Fail> {
    let bytes = empty_reply(rt.alloc())?;
    let table = [
        (0, 0x54, ReplyFault::Magic),
        (3, 0x51, ReplyFault::Magic),
        (4, 3, ReplyFault::Version),
        (5, 1, ReplyFault::Job),
        (9, 1, ReplyFault::Job),
        (10, 1, ReplyFault::Shape),
        (15, 1, ReplyFault::Shape),
        (16, 1, ReplyFault::Totals),
        (27, 1, ReplyFault::Totals),
        (28, 1, ReplyFault::CounterRange),
        (155, 1, ReplyFault::CounterRange),
        (156, 2, ReplyFault::HeapLength),
        (157, 0x80, ReplyFault::HeapLength),
    ];
    for (at, byte, fault) in table {
        let other = changed(rt.alloc(), &bytes, at, byte)?;
        assert_no_reply(&rt, rt.alloc(), &other, &expect_none(&rt), fault);
    }
    Ok(())
}

#[test]
fn a_reply_of_another_length_is_refused(rt: HostRuntime) -> Result<(), Fail> {
    let expect = expect_none(&rt);
    let short = joined(rt.alloc(), &[&HEAD, &[0; 128], &[0]])?;
    assert_no_reply(&rt, rt.alloc(), &short, &expect, ReplyFault::Short);
    let long = joined(rt.alloc(), &[&HEAD, &[0; 128], &[0; 3]])?;
    assert_no_reply(&rt, rt.alloc(), &long, &expect, ReplyFault::Extra);
    Ok(())
}

#[test]
fn the_reply_of_a_search(rt: HostRuntime) -> Result<(), Fail> {
    let alloc = rt.alloc();
    match read_reply(alloc, &SOLVE_REPLY, &Expect::Solve { job: 0 }) {
        Ok(
            Reply::Solve {
                job,
                outcome: Outcome::Infeasible {
                    tree: Tree::Hall(needs),
                },
            },
        ) => {
            assert_eq!(rt; job, 0);
            assert_eq!(rt; needs.as_slice(), [0, 1].as_slice());
        }
        _ => panic!(rt; "none fits"),
    }
    let other = Expect::Solve { job: 1 };
    assert_no_reply(&rt, alloc, &SOLVE_REPLY, &other, ReplyFault::Job);
    Ok(())
}
