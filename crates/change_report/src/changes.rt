//! What changed from an epoch to the next.
ghost use Rattle.std.specs.Prelude.{◌≡◌, ◌≤◌, ◌^◌, ℕ, All, IfOk};
ghost use Rattle.count_sketch.specs.Counters.{AllUpTo};
ghost use Rattle.sketch_merge.specs.Merged.{HaveUpTo};
ghost use Rattle.recursive_sum.specs.Select.{HaveOwnKeys};
ghost use Rattle.recursive_sum.specs.Sum.{estimate_at};
ghost use Rattle.change_report.specs.Change.{change_total, changed_keys, estimate_pairs, key_limit};

use flow_keys::FlowKey;
use hash_family::Family;
use mon_io::Memory;
use recursive_sum::{G, g_sum, select};
use sketch_merge::Merged;
use std::alloc::Global;

/// The sum of the absolute changes of all keys, and the keys of level 0 in either whose change is of at least
/// `per_mille` (0 to 1,000) thousandths of that sum: the greater absolute changes first, and of equal ones the lesser
/// key. Both have the same numbers, no absolute counter above 2^44, and at most 1,048,576 keys a level; the family is
/// that of the sketches. It takes memory for the difference and for the keys of level 0.
pub fn change(
    alloc: Global,
    family: &Family,
    before: &Merged,
    after: &Merged,
    per_mille: u32,
) -> Result<(i128, Vec<(FlowKey, i128)>), Memory>
    requires setting { after.now.setting ≡ before.now.setting }
    requires small { All (AllUpTo (2 ^ 44)) after.now.counters }
    requires before_small { All (AllUpTo (2 ^ 44)) before.now.counters }
    requires few { HaveUpTo key_limit after.now.keys }
    requires before_few { HaveUpTo key_limit before.now.keys }
    requires per_mille { per_mille ≤ 1000 }
    ensures total { IfOk result (λ change. change.0 ≡ change_total family.now before.now after.now) }
    ensures keys { IfOk result (λ change. change.1.items ≡ changed_keys family.now per_mille before.now after.now) }
{
    let less = after.minus(alloc, before)?;
    let total = g_sum(family, &less, G::Abs);
    let pairs = estimates(alloc, family, &less)?;
    let changed = select(alloc, pairs, per_mille, total)?;
    Ok((total, changed))
}

// The keys of level 0 with their estimates.
fn estimates(
    alloc: Global,
    family: &Family,
    merged: &Merged,
) -> Result<Vec<(FlowKey, i128)>, Memory>
    ensures value { IfOk result (λ pairs. pairs.items ≡ estimate_pairs family.now merged.now) }
    ensures distinct { IfOk result (λ pairs. HaveOwnKeys pairs.items) }
{
    let keys = merged.keys(0);
    let Ok(mut pairs) = Vec::with_capacity(alloc, keys.len()) else {
        return Err(Memory);
    };
    for key in keys {
        let number = number_of(family, merged, key);
        if pairs.push((*key, number)).is_err() {
            return Err(Memory);
        }
    }
    Ok(pairs)
}

// The estimate of a key at level 0.
#[tactic(auto, unfolding(recursive_sum::specs::Sum::estimate_at))]
fn number_of(family: &Family, merged: &Merged, key: &FlowKey) -> i128
    ensures { result ≡ estimate_at family.now merged.now 0 key.now }
{
    i128::from(merged.estimate(family, 0, key))
}
