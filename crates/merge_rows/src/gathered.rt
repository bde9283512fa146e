//! Merged sketches of levels and of all keys that are live there.
ghost use Rattle.std.specs.Prelude.{◌≡◌, ◌≤◌, ◌+◌, ◌*◌, ◌^◌, [], ◌∷◌, All, length, map};
ghost use Rattle.std.specs.Cmp.Lexicographic.{slice_cmp};
ghost use Rattle.std.specs.Ordering.{nat_cmp};
ghost use Rattle.std.specs.List.Sorted.{IsStrictlySortedBy};
ghost use Rattle.hash_family.specs.Setting.{setting_of};
ghost use Rattle.count_sketch.specs.Counters.{AllUpTo};
ghost use Rattle.sketch_merge.specs.Merged.{HaveUpTo};

use flow_keys::FlowKey;
use hash_family::{Family, Params};
use sketch_levels::{AllKeys, Levels};
use sketch_merge::Merged;
use std::alloc::Global;
use std::process::Abort;

// The IPv6 key whose second word is n, which is above all those of lesser numbers.
pub(crate) fn key(rt: &impl Abort, n: u32) -> FlowKey
    ensures value { result ≡ 6 ∷ n ∷ 0 ∷ 0 ∷ 0 ∷ 0 ∷ 0 ∷ 0 ∷ 0 ∷ 0 ∷ 17 ∷ [] }
{
    FlowKey::from_words([6, n, 0, 0, 0, 0, 0, 0, 0, 0, 17]).expect(rt, "a key")
}

// The merged sketch of packets, each of a key's number and its weight, with all keys that are live at each level,
// and whether the heap of level 0 dropped one.
pub(crate) fn merged_of(
    rt: &impl Abort,
    alloc: Global,
    params: Params,
    packets: &[(u32, u32)],
) -> Merged
    ensures setting { result.setting ≡ setting_of params }
    ensures small { All (AllUpTo (2 ^ 44)) result.counters }
    ensures few { HaveUpTo 1048576 result.keys }
{
    let family = Family::new(alloc, params.seed).expect(rt, "ample memory");
    let mut levels = Levels::new(alloc, params).expect(rt, "ample memory");
    let mut all = AllKeys::new(alloc, params.levels).expect(rt, "ample memory");
    for (n, weight) in packets {
        assert!(rt; levels.weight() <= 1_000_000);
        levels.feed(&key(rt, *n), *weight);
        all.note(&family, &key(rt, *n)).expect(rt, "ample memory");
    }
    gathered(rt, alloc, &levels, &all)
}

// The merged sketch of these levels, with the keys of all levels.
fn gathered(rt: &impl Abort, alloc: Global, levels: &Levels, all: &AllKeys) -> Merged
    requires { all.now.top ≡ levels.now.setting.levels }
    ensures setting { result.setting ≡ levels.now.setting }
    ensures small { All (AllUpTo (2 ^ 44)) result.counters }
    ensures few { HaveUpTo 1048576 result.keys }
{
    let params = *levels.params();
    let weight = levels.weight();
    let dropped = levels.dropped(0);
    let counters = counters_of(rt, alloc, levels, params.levels);
    let keys = keys_of(rt, alloc, all, params.levels);
    Merged::from_levels(alloc, params, counters, keys, dropped, weight).expect(rt, "ample memory")
}

// The counters of all levels up to this one, a level behind another.
fn counters_of(rt: &impl Abort, alloc: Global, levels: &Levels, highest: u8) -> Vec<i64>
    requires highest { highest ≤ levels.now.setting.levels }
    requires few { highest ≤ 16 }
    ensures bound { AllUpTo levels.now.weight result.items }
    ensures size { length result.items
        ≡ (highest + 1) * (levels.now.setting.rows * levels.now.setting.width) }
{
    let mut counters = Vec::new(alloc);
    for level in 0..highest + 1 {
        counters
            .extend_from_slice(levels.counters(level))
            .expect(rt, "ample memory");
    }
    counters
}

// The keys of each level up to this one.
fn keys_of(rt: &impl Abort, alloc: Global, all: &AllKeys, highest: u8) -> Vec<Vec<FlowKey>>
    requires highest { highest ≤ all.now.top }
    requires few { highest ≤ 16 }
    ensures number { length result.items ≡ highest + 1 }
    ensures ascending { All (λ level. IsStrictlySortedBy (slice_cmp nat_cmp) level.items) result.items }
    ensures few { HaveUpTo 1048576 (map (λ level. level.items) result.items) }
{
    let mut keys = Vec::new(alloc);
    for level in 0..highest + 1 {
        let of_level = all.keys(alloc, level).expect(rt, "ample memory");
        assert!(rt; of_level.len() <= 1_048_576);
        keys.push(of_level).expect(rt, "ample memory");
    }
    keys
}
