//! The recursive sum over the levels.
ghost use Rattle.std.specs.Prelude.{◌≡◌, ◌<◌, ◌≤◌, ◌+◌, ◌*◌, ◌^◌, ℕ, length, if◌then◌else◌};
ghost use Rattle.std.specs.Prelude.{ℤ, pos, negsuc, ◌+ℤ◌, ◌*ℤ◌, unsigned_abs};
ghost use Rattle.count_sketch.specs.Counters.{int_sum_by};
ghost use Rattle.sketch_merge.specs.Merged.{HaveUpTo, keys_at};
ghost use Rattle.recursive_sum.specs.Sum.{counts_at, turned_at, recursive_sum};

use crate::measure::G;
use flow_keys::FlowKey;
use hash_family::Family;
use sketch_merge::Merged;

/// The sum over the keys of merged sketches of what their estimates count: that of the highest level first, then at
/// each level below twice the sum so far and what the level's own keys count, turned where the next level samples
/// them. The family is that of the sketches. Takes no memory.
pub fn g_sum(family: &Family, merged: &Merged, g: G) -> i128
    ensures value { result ≡ recursive_sum family.now g merged.now }
    ensures bound { (n : ℕ) → HaveUpTo n merged.now.keys
        → unsigned_abs result ≤ 2 ^ (merged.now.setting.levels + 1) * n * 2 ^ 45 }
{
    let highest = highest_level(merged);
    let mut sum = whole_level(family, merged, highest, g);
    for above in 0..highest {
        let own = turned_level(family, merged, highest - 1 - above, g);
        sum = twice_and(sum, own);
    }
    sum
}

// The highest level, of which there is one list of keys, as of each one below.
pub(crate) fn highest_level(merged: &Merged) -> u8
    ensures value { result ≡ merged.now.setting.levels }
    ensures high { result ≤ 16 }
    ensures lists { length merged.now.keys ≡ merged.now.setting.levels + 1 }
{
    merged.params().levels
}

// What the keys of a level count.
fn whole_level(family: &Family, merged: &Merged, level: u8, g: G) -> i128
    requires { level ≤ merged.now.setting.levels }
    ensures value { result ≡ int_sum_by (counts_at family.now g merged.now level) (keys_at merged.now level) }
    ensures bound { unsigned_abs result ≤ length (keys_at merged.now level) * 2 ^ 45 }
    ensures few { length (keys_at merged.now level) < 2 ^ 64 }
{
    whole_sum(family, merged, level, g, merged.keys(level))
}

// What the keys of a level below the highest count, turned where the next level samples them.
fn turned_level(family: &Family, merged: &Merged, level: u8, g: G) -> i128
    requires below { level < merged.now.setting.levels }
    requires high { level < 16 }
    ensures value { result ≡ int_sum_by (turned_at family.now g merged.now level) (keys_at merged.now level) }
    ensures bound { unsigned_abs result ≤ length (keys_at merged.now level) * 2 ^ 45 }
    ensures few { length (keys_at merged.now level) < 2 ^ 64 }
{
    turned_sum(family, merged, level, g, merged.keys(level))
}

// What these keys count at a level.
fn whole_sum(family: &Family, merged: &Merged, level: u8, g: G, keys: &[FlowKey]) -> i128
    requires { level ≤ merged.now.setting.levels }
    ensures value { result ≡ int_sum_by (counts_at family.now g merged.now level) keys.now }
    ensures bound { unsigned_abs result ≤ length keys.now * 2 ^ 45 }
    ensures few { length keys.now < 2 ^ 64 }
{
    // Its clause says that there are fewer than 2^64 keys.
    let _few = keys.len();
    let mut sum = 0;
    for key in keys {
        sum = sum_and(sum, counts(family, merged, level, g, key));
    }
    sum
}

// What these keys count at a level below the highest, turned where the next level samples them.
fn turned_sum(family: &Family, merged: &Merged, level: u8, g: G, keys: &[FlowKey]) -> i128
    requires below { level < merged.now.setting.levels }
    requires high { level < 16 }
    ensures value { result ≡ int_sum_by (turned_at family.now g merged.now level) keys.now }
    ensures bound { unsigned_abs result ≤ length keys.now * 2 ^ 45 }
    ensures few { length keys.now < 2 ^ 64 }
{
    // Its clause says that there are fewer than 2^64 keys.
    let _few = keys.len();
    let mut sum = 0;
    for key in keys {
        sum = sum_and(sum, turned_counts(family, merged, level, g, key));
    }
    sum
}

// What the estimate of a key counts at a level.
#[tactic(auto, unfolding(crate::specs::Sum::counts_at, crate::specs::Sum::estimate_at))]
fn counts(family: &Family, merged: &Merged, level: u8, g: G, key: &FlowKey) -> i128
    requires { level ≤ merged.now.setting.levels }
    ensures value { result ≡ counts_at family.now g merged.now level key.now }
    ensures bound { unsigned_abs result ≤ 2 ^ 45 }
{
    g.of(merged.estimate(family, level, key))
}

// What the estimate of a key counts at a level below the highest, turned where the next level samples the key.
#[tactic(auto, unfolding(crate::specs::Sum::turned_at, crate::specs::Sum::turn))]
fn turned_counts(family: &Family, merged: &Merged, level: u8, g: G, key: &FlowKey) -> i128
    requires below { level < merged.now.setting.levels }
    requires high { level < 16 }
    ensures value { result ≡ turned_at family.now g merged.now level key.now }
    ensures bound { unsigned_abs result ≤ 2 ^ 45 }
{
    let counts = counts(family, merged, level, g, key);
    turned(counts, family.sample(level + 1, key))
}

// The number, with a sign of -1 where it is sampled.
#[inline]
pub(crate) fn turned(number: i128, is_sampled: bool) -> i128
    requires { unsigned_abs number ≤ 2 ^ 45 }
    ensures value { result ≡ (if is_sampled then negsuc 0 else pos 1) *ℤ number }
    ensures size { unsigned_abs result ≡ unsigned_abs number }
{
    if is_sampled { -number } else { number }
}

#[inline]
pub(crate) fn sum_and(sum: i128, number: i128) -> i128
    requires sum { unsigned_abs sum ≤ 2 ^ 110 }
    requires number { unsigned_abs number ≤ 2 ^ 45 }
    ensures value { result ≡ sum +ℤ number }
{
    sum + number
}

#[inline]
pub(crate) fn twice_and(sum: i128, own: i128) -> i128
    requires sum { unsigned_abs sum ≤ 2 ^ 125 }
    requires own { unsigned_abs own ≤ 2 ^ 110 }
    ensures value { result ≡ (pos 2 *ℤ sum) +ℤ own }
{
    2 * sum + own
}
