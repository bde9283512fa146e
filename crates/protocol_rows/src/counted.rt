//! The reply to three items, read back.

use crate::made::{changed, params};
use child_jobs::{write_frame, write_head};
use child_replies::read_reply;
use child_worker::WorkerAnswer;
use crew::Answerer;
use flow_keys::FlowKey;
use job_format::Item;
use reply_format::{Expect, Reply, ReplyFault};
use std::alloc::{AllocError, Global};
use std::process::Abort;
use std::test::Fail;

// The words of the key 10.0.0.1 1000 10.1.0.2 53 17.
const WORDS: [u32; 11] = [
    4,
    167_772_161,
    0,
    0,
    0,
    167_837_698,
    0,
    0,
    0,
    65_536_053,
    17,
];

// The reply to a job of three packets of one key.
fn reply_of_three(rt: &impl Abort, alloc: Global) -> Result<Vec<u8>, AllocError> {
    let key = FlowKey::from_words(WORDS).expect(rt, "a valid key");
    let items = vec![in alloc; Item { key, weight: 1 }; 3]?;
    let mut job = Vec::new(alloc);
    assert!(rt; write_head(0, &params(rt), &mut job).is_ok());
    assert!(rt; write_frame(&items, &mut job).is_ok());
    assert!(rt; write_frame(&[], &mut job).is_ok());
    let mut reply = Vec::new(alloc);
    assert!(rt; WorkerAnswer::new(alloc).answer(&job, &mut reply).is_ok());
    Ok(reply)
}

fn expect_three(rt: &impl Abort) -> Expect {
    Expect::Replay {
        job: 0,
        params: params(rt),
        items: 3,
        weight: 3,
    }
}

#[test]
fn three_items_are_counted(rt: HostRuntime) -> Result<(), Fail> {
    let bytes = reply_of_three(&rt, rt.alloc())?;
    assert_eq!(rt; bytes.len(), 86);
    match read_reply(rt.alloc(), &bytes, &expect_three(&rt)) {
        Ok(Reply::Replay { body, .. }) => {
            // The bucket and the sign are those of `bench/hash_values.py`.
            let counters = [0, 0, 3, 0, 0, 0, 0, 0, 0, 0, 0, 0, 0, 0, 0, 0];
            assert_eq!(rt; body.counters.as_slice(), counters.as_slice());
            match body.heaps.as_slice() {
                [heap] => match heap.keys.as_slice() {
                    [key] => {
                        assert_eq!(rt; key.words(), WORDS);
                        assert!(rt; !heap.dropped);
                    }
                    _ => panic!(rt; "one key"),
                },
                _ => panic!(rt; "one heap"),
            }
        }
        _ => panic!(rt; "a replay reply"),
    }
    Ok(())
}

#[test]
fn a_changed_reply_is_refused(rt: HostRuntime) -> Result<(), Fail> {
    let bytes = reply_of_three(&rt, rt.alloc())?;
    // The bucket, the value, and the family and the protocol of the key.
    let table = [
        (30, 16, ReplyFault::CounterPlace),
        (31, 1, ReplyFault::CounterPlace),
        (32, 0, ReplyFault::CounterRange),
        (32, 4, ReplyFault::CounterRange),
        (39, 1, ReplyFault::CounterRange),
        (42, 5, ReplyFault::HeapOrder),
        (85, 1, ReplyFault::HeapOrder),
    ];
    for (at, byte, fault) in table {
        let other = changed(rt.alloc(), &bytes, at, byte)?;
        match read_reply(rt.alloc(), &other, &expect_three(&rt)) {
            Ok(_) => panic!(rt; "a reply where {fault:?} was due"),
            Err(why) => assert_eq!(rt; why, fault),
        }
    }
    Ok(())
}
