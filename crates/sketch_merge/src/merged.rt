//! Merged sketches.
ghost use Rattle.std.specs.Prelude.{◌≡◌, ◌≤◌, ◌+◌, ◌*◌, ◌^◌, ℕ, ℤ, List, [], length, map, All, IfOk, OnErr};
ghost use Rattle.std.specs.Prelude.{unsigned_abs};
ghost use Rattle.std.specs.List.{flat_map};
ghost use Rattle.std.specs.Cmp.Lexicographic.{slice_cmp};
ghost use Rattle.std.specs.Ordering.{nat_cmp};
ghost use Rattle.std.specs.List.Sorted.{IsStrictlySortedBy};
ghost use Rattle.hash_family.specs.Limits.{most_counters};
ghost use Rattle.hash_family.specs.Setting.{setting_of};
ghost use Rattle.count_sketch.specs.Counters.{AllUpTo};
ghost use Rattle.count_sketch.specs.Estimate.{estimate};
ghost use Rattle.reply_format.specs.Reply.{reply_of};
ghost use Rattle.sketch_merge.specs.Merged.{HaveUpTo, IsView, counters_at, difference, keys_at};
ghost use Rattle.sketch_merge.specs.Merging.{IfReplay, MayTake, merged_view, with_reply};

use crate::addition::add;
use crate::levels::level_of;
use crate::marks::joined_mark;
use crate::nothing::{no_keys, zeros};
use crate::subtraction::subtracted;
use crate::union::{unions, unions_with_heaps};
use count_sketch::estimate_in;
use flow_keys::FlowKey;
use hash_family::{Family, Params};
use mon_io::Memory;
use reply_format::Reply;
use std::alloc::Global;
use std::marker::Model;

/// The counters and the named keys of each level of a sketch, whether a heap dropped a key, and the weight of the
/// packets. No absolute counter is above 2^45.
#[derive(Drop)]
pub struct Merged {
    params: Params,
    // In order of level, row and bucket.
    counters: Vec<i64>,
    keys: Vec<Vec<FlowKey>>,
    dropped: bool,
    weight: u64,
}

impl Model for Merged {
    ghost use Rattle.std.specs.Prelude.{map};
    ghost use Rattle.hash_family.specs.Setting.{setting_of};
    ghost use Rattle.sketch_merge.specs.Merged.{View};
    ghost use Rattle.sketch_merge.specs.Stored.{IsStored, stored_view};

    ghost Value = { View };

    ghost view = { λ all.
        stored_view (setting_of all.params) all.counters.items (map (λ level. level.items) all.keys.items)
        all.dropped all.weight };

    ghost invariant = { λ all.
        IsStored (setting_of all.params) all.counters.items (map (λ level. level.items) all.keys.items) };
}

impl Merged {
    /// Merged sketches of nothing: each counter 0, no key named, none dropped, weight 0. It takes memory for the
    /// counters and for a list of keys a level.
    pub fn new(alloc: Global, params: Params) -> Result<Merged, Memory>
        ensures value { IfOk result (λ merged. merged ≡ merged_view (setting_of params) 0 []) }
        ensures small { IfOk result (λ merged. All (AllUpTo merged.weight) merged.counters) }
        ensures few { IfOk result (λ merged. HaveUpTo 0 merged.keys) }
    {
        let levels = usize::from(params.levels) + 1;
        let size = usize::from(params.rows) * usize::from(params.width);
        Ok(Merged {
            params,
            counters: zeros(alloc, levels * size)?,
            keys: no_keys(alloc, levels)?,
            dropped: false,
            weight: 0,
        })
    }

    /// Merged sketches of these numbers, from level 0 on: the counters in order of level, row and bucket, none of an
    /// absolute value above the weight, which is at most 2^44; the keys of each level in strictly ascending order.
    /// It takes no memory.
    pub fn from_levels(
        _alloc: Global,
        params: Params,
        counters: Vec<i64>,
        keys: Vec<Vec<FlowKey>>,
        dropped: bool,
        weight: u64,
    ) -> Result<Merged, Memory>
        requires shape { length counters.items ≡ (params.levels + 1) * (params.rows * params.width) }
        requires levels { length keys.items ≡ params.levels + 1 }
        requires ascending { All (λ level. IsStrictlySortedBy (slice_cmp nat_cmp) level.items) keys.items }
        requires small { AllUpTo weight counters.items }
        requires light { weight ≤ 2 ^ 44 }
        ensures setting { IfOk result (λ merged. merged.setting ≡ setting_of params) }
        ensures weight { IfOk result (λ merged. merged.weight ≡ weight) }
        ensures dropped { IfOk result (λ merged. merged.dropped ≡ dropped) }
        ensures keys { IfOk result (λ merged. merged.keys ≡ map (λ level. level.items) keys.items) }
        ensures counters { IfOk result (λ merged. (parts : List (List ℤ))
            → All (λ part. length part ≡ params.rows * params.width) parts
            → flat_map (λ part. part) parts ≡ counters.items → merged.counters ≡ parts) }
        ensures joined { IfOk result (λ merged. flat_map (λ level. level) merged.counters ≡ counters.items) }
        ensures bound { IfOk result (λ merged. All (AllUpTo weight) merged.counters) }
        ensures small { IfOk result (λ merged. All (AllUpTo (2 ^ 44)) merged.counters) }
    {
        Ok(Merged {
            params,
            counters,
            keys,
            dropped,
            weight,
        })
    }

    /// Adds the counters and the weight of a reply to a replay job, unites the keys of each level and joins the marks
    /// of dropped keys. The reply is within its limits and of the numbers of this sketch; both weigh at most 2^44
    /// together, and no absolute counter here is above the weight here. It takes memory for the keys of each level,
    /// before anything changes: where it is refused, all is as before.
    pub fn take(&mut self, alloc: Global, reply: &Reply) -> Result<(), Memory>
        requires reply { IfReplay (MayTake self.old) (reply_of reply.now) }
        ensures taken { IfOk result (λ _.
            IfReplay (λ reply. self.new ≡ with_reply self.old reply) (reply_of reply.now)) }
        ensures small { IfOk result (λ _. All (AllUpTo self.new.weight) self.new.counters) }
        ensures few { IfOk result (λ _. (n : ℕ)
            → HaveUpTo n self.old.keys → HaveUpTo (n + self.old.setting.heap) self.new.keys) }
        ensures refused { OnErr result (self.new ≡ self.old) }
    {
        let Reply::Replay { weight, body, .. } = reply else {
            unreachable!();
        };
        let heaps = body.heaps.as_slice();
        let keys = unions_with_heaps(alloc, &self.keys, heaps)?;
        self.weight += weight;
        add(&mut self.counters, body.counters.as_slice());
        self.keys = keys;
        self.dropped = joined_mark(self.dropped, heaps);
        Ok(())
    }

    /// The estimate of a key's weight at a level, from the counters of that level, by the functions of this family.
    pub fn estimate(&self, family: &Family, level: u8, key: &FlowKey) -> i64
        requires { level ≤ self.now.setting.levels }
        ensures value { result
            ≡ estimate family.now level self.now.setting.rows self.now.setting.width
            (counters_at self.now level) key.now }
        ensures bound { unsigned_abs result ≤ 2 ^ 45 }
        ensures within { (n : ℕ) → AllUpTo n (counters_at self.now level) → unsigned_abs result ≤ n }
    {
        let params = self.params();
        let counters = self.counters(level);
        estimate_in(counters, params.rows, params.width, family, level, key)
    }

    /// The keys that are named at a level, in strictly ascending order.
    pub fn keys(&self, level: u8) -> &[FlowKey]
        requires { level ≤ self.now.setting.levels }
        ensures value { result.now ≡ keys_at self.now level }
        ensures ascending { IsStrictlySortedBy (slice_cmp nat_cmp) result.now }
    {
        &self.keys[usize::from(level)]
    }

    /// The counters of a level, in order of row, then bucket.
    pub fn counters(&self, level: u8) -> &[i64]
        requires { level ≤ self.now.setting.levels }
        ensures value { result.now ≡ counters_at self.now level }
        ensures shape { length result.now ≡ self.now.setting.rows * self.now.setting.width }
        ensures few { length result.now ≤ most_counters }
        ensures bound { AllUpTo (2 ^ 45) result.now }
    {
        let size = usize::from(self.params.rows) * usize::from(self.params.width);
        level_of(&self.counters, usize::from(level), size)
    }

    /// Whether a heap dropped a key.
    pub fn dropped(&self) -> bool
        ensures value { result ≡ self.now.dropped }
    {
        self.dropped
    }

    /// The weight of the packets.
    pub fn weight(&self) -> u64
        ensures value { result ≡ self.now.weight }
    {
        self.weight
    }

    /// The numbers of the sketch.
    pub fn params(&self) -> &Params
        ensures value { setting_of result.now ≡ self.now.setting }
        ensures whole { IsView self.now }
    {
        &self.params
    }

    /// These counters less those of the other, with the keys of both; dropped where either dropped a key, and of this
    /// weight. Both have the same numbers, and no absolute counter above 2^44. It takes memory for the counters and
    /// for the keys of each level.
    pub fn minus(&self, alloc: Global, other: &Merged) -> Result<Merged, Memory>
        requires setting { self.now.setting ≡ other.now.setting }
        requires small { All (AllUpTo (2 ^ 44)) self.now.counters }
        requires other_small { All (AllUpTo (2 ^ 44)) other.now.counters }
        ensures value { IfOk result (λ less. less ≡ difference self.now other.now) }
        ensures few { IfOk result (λ less. (n m : ℕ)
            → HaveUpTo n self.now.keys → HaveUpTo m other.now.keys → HaveUpTo (n + m) less.keys) }
    {
        let counters = subtracted(alloc, &self.counters, &other.counters)?;
        let keys = unions(alloc, &self.keys, &other.keys)?;
        Ok(Merged {
            params: self.params,
            counters,
            keys,
            dropped: self.dropped || other.dropped,
            weight: self.weight,
        })
    }
}
