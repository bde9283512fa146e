//! One level of a sketch.
ghost use Rattle.std.specs.Prelude.{◌^◌, ◌≡◌, ◌+◌, ◌*◌, ◌≤◌, ℕ, List, [], ◌∷◌, ◌++◌, nat_lt, length, map};
ghost use Rattle.std.specs.Prelude.{IfOk, IsTrue, unsigned_abs};
ghost use Rattle.std.specs.Cmp.Lexicographic.{slice_cmp};
ghost use Rattle.std.specs.Ordering.{nat_cmp};
ghost use Rattle.std.specs.List.Sorted.{IsStrictlySortedBy};
ghost use Rattle.hash_family.specs.Limits.{are_within};
ghost use Rattle.count_sketch.specs.Counters.{Item, AllUpTo};
ghost use Rattle.count_sketch.specs.Estimate.{estimate};
ghost use Rattle.count_sketch.specs.Spots.{AreSpots};
ghost use Rattle.topk_heap.specs.Ranking.{best, with_score};
ghost use Rattle.hash_family.specs.Setting.{Setting, setting_of};
ghost use Rattle.sketch_levels.specs.Levels.{IsLayer, layer_of};

use count_sketch::{Sketch, Spots};
use flow_keys::FlowKey;
use hash_family::{Family, Params};
use mon_io::Memory;
use std::alloc::Global;
use std::marker::Model;
use topk_heap::{Offer, TopK};

/// The counters and the heap of one level, and whether the heap dropped a key.
#[derive(Drop)]
pub(crate) struct Level {
    sketch: Sketch,
    heap: TopK,
    dropped: bool,
}

impl Model for Level {
    ghost use Rattle.sketch_levels.specs.Levels.{Layer};

    ghost Value = { Layer };

    ghost view = { λ level. record { sketch = level.sketch; heap = level.heap; dropped = level.dropped } };
}

impl Level {
    /// A level to which nothing was fed. No other call but `keys` takes memory.
    pub(crate) fn new(alloc: Global, params: &Params) -> Result<Level, Memory>
        requires { IsTrue (are_within params.now.levels params.now.rows params.now.width params.now.heap) }
        ensures empty { IfOk result (λ layer. (level : ℕ) → layer ≡ layer_of (setting_of params.now) level []) }
        ensures shape { IfOk result (λ layer. IsLayer (setting_of params.now) 0 layer) }
    {
        let sketch = Sketch::new(alloc, params.rows, params.width)?;
        let heap = TopK::new(alloc, params.heap)?;
        Ok(Level {
            sketch,
            heap,
            dropped: false,
        })
    }

    /// Adds the weight to the key's counters, whose spots are given, and then offers the key with its new estimate to
    /// the heap.
    #[inline]
    pub(crate) fn feed(
        &mut self,
        family: &Family,
        number: u8,
        key: &FlowKey,
        weight: u64,
        spots: &Spots,
    )
        requires number { number ≤ 16 }
        requires light { weight ≤ 2 ^ 44 }
        requires spots { AreSpots family.now number self.old.sketch.rows self.old.sketch.width key.now spots.now }
        requires small { AllUpTo (2 ^ 44) self.old.sketch.counters }
        ensures list { (setting : Setting) (items : List Item) → setting.seed ≡ family.now
            → self.old ≡ layer_of setting number items
            → self.new ≡ layer_of setting number (items ++ record { key = key.now; weight = weight } ∷ []) }
        ensures shape { (setting : Setting) (n : ℕ)
            → IsLayer setting n self.old → IsLayer setting (n + weight) self.new }
    {
        let score = self
            .sketch
            .update_and_estimate_at(spots, family, number, key, weight);
        let drops = offer(&mut self.heap, key, score);
        self.dropped = self.dropped || drops;
    }

    /// The estimate of a key's weight.
    pub(crate) fn estimate(&self, family: &Family, number: u8, key: &FlowKey) -> i64
        requires { number ≤ 16 }
        ensures value { result
            ≡ estimate family.now number self.now.sketch.rows self.now.sketch.width self.now.sketch.counters key.now }
        ensures bound { (n : ℕ) → AllUpTo n self.now.sketch.counters → unsigned_abs result ≤ n }
    {
        self.sketch.estimate(family, number, key)
    }

    /// The counters in order of row, then bucket.
    pub(crate) fn counters(&self) -> &[i64]
        ensures value { result.now ≡ self.now.sketch.counters }
        ensures shape { length result.now ≡ self.now.sketch.rows * self.now.sketch.width }
    {
        self.sketch.counters()
    }

    /// Whether the heap dropped a key.
    pub(crate) fn dropped(&self) -> bool
        ensures value { result ≡ self.now.dropped }
    {
        self.dropped
    }

    /// The keys in the heap, in strictly ascending order.
    pub(crate) fn keys(&self, alloc: Global) -> Result<Vec<FlowKey>, Memory>
        ensures value { IfOk result (λ keys. keys.items ≡ map (λ entry. entry.key) self.now.heap.entries) }
        ensures ascending { IfOk result (λ keys. IsStrictlySortedBy (slice_cmp nat_cmp) keys.items) }
        ensures few { IfOk result (λ keys. length keys.items ≤ self.now.heap.size) }
    {
        // Its clause says that there are no more keys than the heap holds.
        let _few = self.heap.len();
        self.heap.keys_sorted(alloc)
    }
}

// Offers the key with its score to the heap, and says whether a key was dropped.
#[inline]
fn offer(heap: &mut TopK, key: &FlowKey, score: i64) -> bool
    ensures size { heap.new.size ≡ heap.old.size }
    ensures kept { heap.new.entries ≡ best heap.old.size (with_score heap.old.entries key.now score) }
    ensures drops { result ≡ nat_lt heap.old.size (length (with_score heap.old.entries key.now score)) }
{
    match heap.offer(*key, score) {
        Offer::Kept => false,
        _ => true,
    }
}
