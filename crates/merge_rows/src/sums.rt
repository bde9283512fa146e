//! Sums and heavy keys of a few packets, and differences and heavy keys of many keys.
ghost use Rattle.std.specs.Prelude.{◌≡◌, ◌≤◌, ◌^◌, All};
ghost use Rattle.hash_family.specs.Setting.{setting_of};
ghost use Rattle.count_sketch.specs.Counters.{AllUpTo};

use crate::gathered::{key, merged_of};
use hash_family::{Family, Params};
use recursive_sum::{G, g_sum, heavy};
use sketch_merge::Merged;
use std::alloc::Global;
use std::process::Abort;

// The sketch of so many levels, with three rows of 16 counters, by seed 1.
fn small(rt: &impl Abort, alloc: Global, levels: u8, packets: &[(u32, u32)]) -> Merged {
    let params = Params::new(levels, 3, 16, 8, 1).expect(rt, "within the limits");
    merged_of(rt, alloc, params, packets)
}

// Compares the three sums over a sketch with these numbers.
fn sums(rt: &impl Abort, alloc: Global, merged: &Merged, one: i128, value: i128, abs: i128) {
    let family = Family::new(alloc, 1).expect(rt, "ample memory");
    assert_eq!(rt; g_sum(&family, merged, G::One), one);
    assert_eq!(rt; g_sum(&family, merged, G::Value), value);
    assert_eq!(rt; g_sum(&family, merged, G::Abs), abs);
}

// Compares the heavy keys of a sketch with these keys and numbers.
fn heavy_are(
    rt: &impl Abort,
    alloc: Global,
    merged: &Merged,
    per_mille: u32,
    wanted: &[(u32, i128)],
) {
    assert!(rt; per_mille <= 1000);
    let family = Family::new(alloc, 1).expect(rt, "ample memory");
    let found = heavy(alloc, &family, merged, per_mille).expect(rt, "ample memory");
    assert_eq!(rt; found.len(), wanted.len());
    for (pair, (n, number)) in found.iter().zip(wanted) {
        assert_eq!(rt; pair.0, key(rt, *n));
        assert_eq!(rt; pair.1, *number);
    }
}

#[test]
fn no_key_and_one_key(rt: HostRuntime) {
    let empty = small(&rt, rt.alloc(), 0, &[]);
    sums(&rt, rt.alloc(), &empty, 0, 0, 0);
    let one = small(&rt, rt.alloc(), 0, &[(1, 9)]);
    sums(&rt, rt.alloc(), &one, 1, 9, 9);
    heavy_are(&rt, rt.alloc(), &one, 1000, &[(1, 9)]);
}

// Of the weight of 22, 140 thousandths are 3.08: key 2, of weight 3, isn't heavy.
#[test]
fn six_keys_at_four_levels(rt: HostRuntime) {
    let packets = [(1, 4), (2, 3), (3, 5), (6, 2), (9, 1), (12, 7)];
    let merged = small(&rt, rt.alloc(), 3, &packets);
    sums(&rt, rt.alloc(), &merged, 6, 20, 20);
    heavy_are(&rt, rt.alloc(), &merged, 200, &[(12, 7), (3, 5)]);
    heavy_are(&rt, rt.alloc(), &merged, 140, &[(12, 7), (3, 5)]);
    heavy_are(&rt, rt.alloc(), &merged, 136, &[(12, 7), (3, 5), (2, 3)]);
}

// Keys 11 and 39 meet in two of the three rows, with opposite signs.
#[test]
fn a_negative_estimate_and_none(rt: HostRuntime) {
    let less = small(&rt, rt.alloc(), 0, &[(11, 7), (39, 2)]);
    sums(&rt, rt.alloc(), &less, 1, 5, 10);
    heavy_are(&rt, rt.alloc(), &less, 200, &[(11, 5)]);
    let none = small(&rt, rt.alloc(), 0, &[(11, 4), (39, 4)]);
    sums(&rt, rt.alloc(), &none, 0, 0, 0);
    heavy_are(&rt, rt.alloc(), &none, 0, &[]);
}

// The sketch of level 0 alone, in five rows of 2,048 counters by seed 2, of one packet of each of 2,000 keys from
// this number on.
fn many(rt: &impl Abort, alloc: Global, params: Params, first: u32) -> Merged
    requires small { first ≤ 1000 }
    ensures setting { result.setting ≡ setting_of params }
    ensures small { All (AllUpTo (2 ^ 44)) result.counters }
{
    let mut packets = [(0, 1); 2000];
    for n in 0..2000 {
        packets[n] = (first + n as u32, 1);
    }
    merged_of(rt, alloc, params, &packets)
}

#[test]
fn two_thousand_keys(rt: HostRuntime) {
    let params = Params::new(0, 5, 2048, 8, 2).expect(&rt, "within the limits");
    let before = many(&rt, rt.alloc(), params, 0);
    let after = many(&rt, rt.alloc(), params, 1000);
    assert_eq!(rt; before.keys(0).len(), 2000);
    let less = after.minus(rt.alloc(), &before).expect(&rt, "ample memory");
    assert!(rt; less.params().levels == 0);
    assert_eq!(rt; less.keys(0).len(), 3000);
    let family = Family::new(rt.alloc(), 2).expect(&rt, "ample memory");
    let found = heavy(rt.alloc(), &family, &before, 0).expect(&rt, "ample memory");
    assert_eq!(rt; found.len(), 1587);
}
