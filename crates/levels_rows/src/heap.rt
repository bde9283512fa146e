//! What an offer answers, by rows from outside, and that the calls succeed where memory is ample.

use crate::keys::key;
use std::alloc::Global;
use std::process::Abort;
use topk_heap::{Offer, TopK};

// Offers each key and score, and compares each answer; the last list is that of the keys held at the end.
fn offers_answer(rt: &impl Abort, alloc: Global, k: u16, rows: &[(u32, i64, Offer)], held: &[u32]) {
    assert!(rt; 1 <= k);
    assert!(rt; k <= 1024);
    let mut top = TopK::new(alloc, k).expect(rt, "a table");
    for (n, score, answer) in rows {
        let given = top.offer(key(rt, *n), *score);
        assert_eq!(rt; given, *answer, "key {n} at {score}");
    }
    assert_eq!(rt; top.len(), held.len());
    let keys = top.keys_sorted(alloc).expect(rt, "the keys");
    for (found, n) in keys.iter().zip(held) {
        assert_eq!(rt; *found, key(rt, *n));
    }
}

#[test]
fn the_largest_table(rt: HostRuntime) {
    let mut top = TopK::new(rt.alloc(), 1024).expect(&rt, "a table");
    for n in 0..1024 {
        assert_eq!(rt; top.offer(key(&rt, n), 5), Offer::Kept);
    }
    assert_eq!(rt; top.offer(key(&rt, 1024), 5), Offer::Refused);
    let keys = top.keys_sorted(rt.alloc()).expect(&rt, "the keys");
    assert_eq!(rt; keys.len(), 1024);
}

#[test]
fn a_tie_goes_to_the_lesser_key(rt: HostRuntime) {
    let one = [
        (2, 5, Offer::Kept),
        (3, 5, Offer::Refused),
        (1, 5, Offer::KeptDropping(key(&rt, 2))),
        (1, 2, Offer::Kept),
    ];
    offers_answer(&rt, rt.alloc(), 1, &one, &[1]);
    let three = [
        (7, 4, Offer::Kept),
        (5, -9, Offer::Kept),
        (9, 0, Offer::Kept),
        (5, 6, Offer::Kept),
        (2, 0, Offer::KeptDropping(key(&rt, 9))),
        (8, -1, Offer::Refused),
        (7, -2, Offer::Kept),
        (8, -1, Offer::KeptDropping(key(&rt, 7))),
    ];
    offers_answer(&rt, rt.alloc(), 3, &three, &[2, 5, 8]);
}
