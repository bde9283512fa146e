//! What a tally has after a few items, where memory is ample.
use crate::keys::key;
use sketch_levels::Tally;
use std::process::Abort;

// Compares a key of the tally, by its place, with its number, how many items it has, and what they weigh.
fn has(rt: &impl Abort, tally: &Tally, index: usize, n: u32, packets: u32, weight: u64) {
    assert!(rt; index < tally.len());
    let (found, total) = tally.entry(index);
    assert_eq!(rt; found, key(rt, n));
    assert_eq!(rt; total.packets, packets);
    assert_eq!(rt; total.weight, weight);
}

#[test]
fn three_items_of_two_keys(rt: HostRuntime) {
    let mut tally = Tally::new(rt.alloc());
    assert_eq!(rt; tally.len(), 0);
    tally.add(&key(&rt, 6), 40).expect(&rt, "ample memory");
    tally.add(&key(&rt, 1), 0).expect(&rt, "ample memory");
    tally
        .add(&key(&rt, 6), 4294967295)
        .expect(&rt, "ample memory");
    assert_eq!(rt; tally.len(), 2);
    has(&rt, &tally, 0, 6, 2, 4294967335);
    has(&rt, &tally, 1, 1, 1, 0);
}
