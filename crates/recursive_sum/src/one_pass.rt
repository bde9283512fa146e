//! Two recursive sums in one pass: the number of keys and the weight.
ghost use Rattle.std.specs.Prelude.{◌≡◌, ◌<◌, ◌≤◌, ◌+◌, ◌*◌, ◌^◌, length, unsigned_abs};
ghost use Rattle.count_sketch.specs.Counters.{int_sum_by};
ghost use Rattle.sketch_merge.specs.Merged.{keys_at};
ghost use Rattle.recursive_sum.specs.Sum.{counts_at, turned_at, recursive_sum};
ghost use Rattle.recursive_sum.specs.declared.measure.G.TheVariants.{One, Value};

use crate::measure::{G, Totals};
use crate::sum::{highest_level, sum_and, turned, twice_and};
use flow_keys::FlowKey;
use hash_family::Family;
use sketch_merge::Merged;

/// The sums of `G::One` and of `G::Value` over merged sketches, each estimate asked once. The family is that of the
/// sketches. Takes no memory.
pub fn totals(family: &Family, merged: &Merged) -> Totals
    ensures cardinality { result.cardinality ≡ recursive_sum family.now One merged.now }
    ensures weight { result.weight ≡ recursive_sum family.now Value merged.now }
{
    let highest = highest_level(merged);
    let whole = whole_level(family, merged, highest);
    let mut cardinality = whole.cardinality;
    let mut weight = whole.weight;
    for above in 0..highest {
        let own = turned_level(family, merged, highest - 1 - above);
        cardinality = twice_and(cardinality, own.cardinality);
        weight = twice_and(weight, own.weight);
    }
    Totals {
        cardinality,
        weight,
    }
}

// What the keys of a level count.
fn whole_level(family: &Family, merged: &Merged, level: u8) -> Totals
    requires { level ≤ merged.now.setting.levels }
    ensures cardinality { result.cardinality
        ≡ int_sum_by (counts_at family.now One merged.now level) (keys_at merged.now level) }
    ensures weight { result.weight
        ≡ int_sum_by (counts_at family.now Value merged.now level) (keys_at merged.now level) }
    ensures most_keys { unsigned_abs result.cardinality ≤ length (keys_at merged.now level) * 2 ^ 45 }
    ensures most_weight { unsigned_abs result.weight ≤ length (keys_at merged.now level) * 2 ^ 45 }
    ensures few { length (keys_at merged.now level) < 2 ^ 64 }
{
    whole_totals(family, merged, level, merged.keys(level))
}

// What the keys of a level below the highest count, turned where the next level samples them.
fn turned_level(family: &Family, merged: &Merged, level: u8) -> Totals
    requires below { level < merged.now.setting.levels }
    requires high { level < 16 }
    ensures cardinality { result.cardinality
        ≡ int_sum_by (turned_at family.now One merged.now level) (keys_at merged.now level) }
    ensures weight { result.weight
        ≡ int_sum_by (turned_at family.now Value merged.now level) (keys_at merged.now level) }
    ensures most_keys { unsigned_abs result.cardinality ≤ length (keys_at merged.now level) * 2 ^ 45 }
    ensures most_weight { unsigned_abs result.weight ≤ length (keys_at merged.now level) * 2 ^ 45 }
    ensures few { length (keys_at merged.now level) < 2 ^ 64 }
{
    turned_totals(family, merged, level, merged.keys(level))
}

// What these keys count at a level.
fn whole_totals(family: &Family, merged: &Merged, level: u8, keys: &[FlowKey]) -> Totals
    requires { level ≤ merged.now.setting.levels }
    ensures cardinality { result.cardinality ≡ int_sum_by (counts_at family.now One merged.now level) keys.now }
    ensures weight { result.weight ≡ int_sum_by (counts_at family.now Value merged.now level) keys.now }
    ensures most_keys { unsigned_abs result.cardinality ≤ length keys.now * 2 ^ 45 }
    ensures most_weight { unsigned_abs result.weight ≤ length keys.now * 2 ^ 45 }
    ensures few { length keys.now < 2 ^ 64 }
{
    // Its clause says that there are fewer than 2^64 keys.
    let _few = keys.len();
    let mut cardinality = 0;
    let mut weight = 0;
    for key in keys {
        let own = counts(family, merged, level, key);
        cardinality = sum_and(cardinality, own.cardinality);
        weight = sum_and(weight, own.weight);
    }
    Totals {
        cardinality,
        weight,
    }
}

// What these keys count at a level below the highest, turned where the next level samples them.
fn turned_totals(family: &Family, merged: &Merged, level: u8, keys: &[FlowKey]) -> Totals
    requires below { level < merged.now.setting.levels }
    requires high { level < 16 }
    ensures cardinality { result.cardinality ≡ int_sum_by (turned_at family.now One merged.now level) keys.now }
    ensures weight { result.weight ≡ int_sum_by (turned_at family.now Value merged.now level) keys.now }
    ensures most_keys { unsigned_abs result.cardinality ≤ length keys.now * 2 ^ 45 }
    ensures most_weight { unsigned_abs result.weight ≤ length keys.now * 2 ^ 45 }
    ensures few { length keys.now < 2 ^ 64 }
{
    // Its clause says that there are fewer than 2^64 keys.
    let _few = keys.len();
    let mut cardinality = 0;
    let mut weight = 0;
    for key in keys {
        let own = turned_counts(family, merged, level, key);
        cardinality = sum_and(cardinality, own.cardinality);
        weight = sum_and(weight, own.weight);
    }
    Totals {
        cardinality,
        weight,
    }
}

// What the estimate of a key counts at a level.
#[inline]
#[tactic(auto, unfolding(crate::specs::Sum::counts_at, crate::specs::Sum::estimate_at))]
fn counts(family: &Family, merged: &Merged, level: u8, key: &FlowKey) -> Totals
    requires { level ≤ merged.now.setting.levels }
    ensures cardinality { result.cardinality ≡ counts_at family.now One merged.now level key.now }
    ensures weight { result.weight ≡ counts_at family.now Value merged.now level key.now }
    ensures most_keys { unsigned_abs result.cardinality ≤ 2 ^ 45 }
    ensures most_weight { unsigned_abs result.weight ≤ 2 ^ 45 }
{
    let estimate = merged.estimate(family, level, key);
    Totals {
        cardinality: G::One.of(estimate),
        weight: G::Value.of(estimate),
    }
}

// What the estimate of a key counts at a level below the highest, turned where the next level samples the key.
#[inline]
#[tactic(auto, unfolding(crate::specs::Sum::turned_at, crate::specs::Sum::turn))]
fn turned_counts(family: &Family, merged: &Merged, level: u8, key: &FlowKey) -> Totals
    requires below { level < merged.now.setting.levels }
    requires high { level < 16 }
    ensures cardinality { result.cardinality ≡ turned_at family.now One merged.now level key.now }
    ensures weight { result.weight ≡ turned_at family.now Value merged.now level key.now }
    ensures most_keys { unsigned_abs result.cardinality ≤ 2 ^ 45 }
    ensures most_weight { unsigned_abs result.weight ≤ 2 ^ 45 }
{
    let counts = counts(family, merged, level, key);
    let is_sampled = family.sample(level + 1, key);
    Totals {
        cardinality: turned(counts.cardinality, is_sampled),
        weight: turned(counts.weight, is_sampled),
    }
}
