//! The keys with the greatest estimates.
ghost use Rattle.std.specs.Prelude.{◌≡◌, ◌≤◌, ℤ, All, IfOk, if◌then◌else◌, int_lt, pos};
ghost use Rattle.recursive_sum.specs.Select.{HaveOwnKeys, IsHeavy, clipped, heavy_keys, heavy_pairs};
ghost use Rattle.recursive_sum.specs.Sum.{estimate_at};

use crate::ranking::select;
use flow_keys::FlowKey;
use hash_family::Family;
use mon_io::Memory;
use sketch_merge::Merged;
use std::alloc::Global;

/// The keys of level 0 whose estimates are above 0 and of at least `per_mille` (0 to 1,000) thousandths of the
/// weight, with their estimates: the greater first, and of equal ones the lesser key. The family is that of the
/// sketches. It takes memory for the keys of level 0.
pub fn heavy(
    alloc: Global,
    family: &Family,
    merged: &Merged,
    per_mille: u32,
) -> Result<Vec<(FlowKey, i128)>, Memory>
    requires { per_mille ≤ 1000 }
    ensures value { IfOk result (λ pairs. pairs.items ≡ heavy_keys family.now per_mille merged.now) }
    ensures each { IfOk result (λ pairs. All (IsHeavy merged.now) pairs.items) }
{
    let pairs = clipped_estimates(alloc, family, merged)?;
    select(alloc, pairs, per_mille, i128::from(merged.weight()))
}

// The keys of level 0 with their clipped estimates.
fn clipped_estimates(
    alloc: Global,
    family: &Family,
    merged: &Merged,
) -> Result<Vec<(FlowKey, i128)>, Memory>
    ensures value { IfOk result (λ pairs. pairs.items ≡ heavy_pairs family.now merged.now) }
    ensures distinct { IfOk result (λ pairs. HaveOwnKeys pairs.items) }
{
    let keys = merged.keys(0);
    let Ok(mut pairs) = Vec::with_capacity(alloc, keys.len()) else {
        return Err(Memory);
    };
    for key in keys {
        let estimate = clipped_estimate(family, merged, key);
        if pairs.push((*key, estimate)).is_err() {
            return Err(Memory);
        }
    }
    Ok(pairs)
}

// The estimate of a key at level 0, or 0 where it is negative.
#[tactic(auto, unfolding(crate::specs::Sum::estimate_at))]
fn clipped_estimate(family: &Family, merged: &Merged, key: &FlowKey) -> i128
    ensures { result ≡ clipped (estimate_at family.now merged.now 0 key.now) }
{
    i128::from(merged.estimate(family, 0, key).max(0))
}
