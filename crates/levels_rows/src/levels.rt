//! What levels keep after a few packets, and after many, where memory is ample.
ghost use Rattle.std.specs.Prelude.{◌≡◌, ◌≤◌};

use crate::keys::key;
use hash_family::{Family, Params};
use sketch_levels::{AllKeys, Levels};
use std::alloc::Global;
use std::process::Abort;

// Levels with a heap of so many keys, fed with each key and weight.
fn fed(rt: &impl Abort, alloc: Global, heap: u16, packets: &[(u32, u32)]) -> Levels {
    let params = Params::new(12, 5, 1024, heap, 1).expect(rt, "within the limits");
    let mut levels = Levels::new(alloc, params).expect(rt, "ample memory");
    for (n, weight) in packets {
        assert!(rt; levels.weight() <= 1000);
        levels.feed(&key(rt, *n), *weight);
    }
    levels
}

// Compares a level's kept keys, and whether a key was dropped.
fn keeps(rt: &impl Abort, alloc: Global, levels: &Levels, level: u8, kept: &[u32], dropped: bool) {
    assert!(rt; level <= levels.params().levels);
    assert_eq!(rt; levels.dropped(level), dropped);
    let keys = levels.keys(alloc, level).expect(rt, "ample memory");
    assert_eq!(rt; keys.len(), kept.len());
    for (found, n) in keys.iter().zip(kept) {
        assert_eq!(rt; *found, key(rt, *n), "level {level}");
    }
}

// Compares the keys that all of them have at a level with these.
fn has(rt: &impl Abort, alloc: Global, all: &AllKeys, level: u8, wanted: &[u32])
    requires { level ≤ all.now.top }
{
    let keys = all.keys(alloc, level).expect(rt, "ample memory");
    assert_eq!(rt; keys.len(), wanted.len());
    for (found, n) in keys.iter().zip(wanted) {
        assert_eq!(rt; *found, key(rt, *n), "level {level}");
    }
}

#[test]
fn one_key_three_times(rt: HostRuntime) {
    let levels = fed(&rt, rt.alloc(), 4, &[(1, 1), (1, 1), (1, 1)]);
    keeps(&rt, rt.alloc(), &levels, 0, &[1], false);
    assert_eq!(rt; levels.estimate(0, &key(&rt, 1)), 3);
    let counted = levels
        .counters(0)
        .iter()
        .filter(|count| **count != 0)
        .count();
    assert_eq!(rt; counted, 5);
    assert_eq!(rt; levels.weight(), 3);
}

// By seed 1 key 3 is live at the levels 0 to 6, key 6 at 0 to 2, and key 1 at 0.
#[test]
fn a_full_heap(rt: HostRuntime) {
    let levels = fed(&rt, rt.alloc(), 2, &[(6, 1), (3, 1), (1, 1)]);
    keeps(&rt, rt.alloc(), &levels, 0, &[1, 3], true);
    keeps(&rt, rt.alloc(), &levels, 1, &[3, 6], false);
    keeps(&rt, rt.alloc(), &levels, 6, &[3], false);
    keeps(&rt, rt.alloc(), &levels, 7, &[], false);
}

// Key 6 comes back with the sum of its weights: by the weight alone, or by the estimate before the packet, it loses
// its place at level 0.
#[test]
fn a_key_comes_back(rt: HostRuntime) {
    let levels = fed(&rt, rt.alloc(), 2, &[(6, 3), (3, 5), (1, 4), (6, 4)]);
    keeps(&rt, rt.alloc(), &levels, 0, &[3, 6], true);
    keeps(&rt, rt.alloc(), &levels, 1, &[3, 6], false);
    keeps(&rt, rt.alloc(), &levels, 3, &[3], false);
}

#[test]
fn seventeen_levels(rt: HostRuntime) {
    let params = Params::new(16, 1, 16, 1024, 1).expect(&rt, "within the limits");
    let mut levels = Levels::new(rt.alloc(), params).expect(&rt, "ample memory");
    for n in 0..1024 {
        assert!(rt; levels.weight() <= 2000);
        levels.feed(&key(&rt, n), 1);
    }
    assert!(rt; levels.params().levels == 16);
    assert_eq!(rt; levels.dropped(0), false);
    let keys = levels.keys(rt.alloc(), 0).expect(&rt, "ample memory");
    assert_eq!(rt; keys.len(), 1024);
    assert_eq!(rt; levels.counters(16).len(), 16);
}

#[test]
fn noted_keys(rt: HostRuntime) {
    let family = Family::new(rt.alloc(), 1).expect(&rt, "ample memory");
    let mut all = AllKeys::new(rt.alloc(), 3).expect(&rt, "ample memory");
    for n in [6, 3, 1, 6] {
        all.note(&family, &key(&rt, n)).expect(&rt, "ample memory");
    }
    has(&rt, rt.alloc(), &all, 0, &[1, 3, 6]);
    has(&rt, rt.alloc(), &all, 2, &[3, 6]);
    has(&rt, rt.alloc(), &all, 3, &[3]);
}

// Feeds a key, and notes it by the number of levels that took it.
fn feed_and_note(rt: &impl Abort, levels: &mut Levels, all: &mut AllKeys, n: u32)
    ensures top { all.new.top ≡ all.old.top }
{
    assert!(rt; levels.weight() <= 1000);
    let live = levels.feed_by(&key(rt, n), 1);
    all.note_live(&key(rt, n), live).expect(rt, "ample memory");
}

#[test]
fn keys_noted_as_they_are_fed(rt: HostRuntime) {
    let params = Params::new(3, 5, 1024, 4, 1).expect(&rt, "within the limits");
    let mut levels = Levels::new(rt.alloc(), params).expect(&rt, "ample memory");
    let mut all = AllKeys::new(rt.alloc(), 3).expect(&rt, "ample memory");
    feed_and_note(&rt, &mut levels, &mut all, 6);
    feed_and_note(&rt, &mut levels, &mut all, 3);
    feed_and_note(&rt, &mut levels, &mut all, 1);
    feed_and_note(&rt, &mut levels, &mut all, 6);
    has(&rt, rt.alloc(), &all, 0, &[1, 3, 6]);
    has(&rt, rt.alloc(), &all, 2, &[3, 6]);
    has(&rt, rt.alloc(), &all, 3, &[3]);
}

#[test]
fn two_thousand_noted_keys(rt: HostRuntime) {
    let family = Family::new(rt.alloc(), 2).expect(&rt, "ample memory");
    let mut all = AllKeys::new(rt.alloc(), 16).expect(&rt, "ample memory");
    for n in 0..2000 {
        all.note(&family, &key(&rt, n)).expect(&rt, "ample memory");
    }
    let keys = all.keys(rt.alloc(), 0).expect(&rt, "ample memory");
    assert_eq!(rt; keys.len(), 2000);
}
