//! All levels of a sketch.
ghost use Rattle.std.specs.Prelude.{◌^◌, ◌≡◌, ◌+◌, ◌*◌, ◌<◌, ◌≤◌, ℕ, true, false, List, [], ◌∷◌, ◌++◌, length};
ghost use Rattle.std.specs.Prelude.{slice_index_or, All, IfOk, unsigned_abs};
ghost use Rattle.std.specs.Cmp.Lexicographic.{slice_cmp};
ghost use Rattle.std.specs.Ordering.{nat_cmp};
ghost use Rattle.std.specs.List.Sorted.{IsStrictlySortedBy};
ghost use Rattle.hash_family.specs.Hash.{is_live};
ghost use Rattle.count_sketch.specs.Counters.{Item, AllUpTo, counters_of};
ghost use Rattle.count_sketch.specs.Estimate.{estimate};
ghost use Rattle.count_sketch.specs.Spots.{AreSpots};
ghost use Rattle.spot_table.specs.Known.{IsKnown, live_levels};
ghost use Rattle.spot_table.specs.Live.{IsLiveAt};
ghost use Rattle.sketch_levels.specs.Items.{live_items};
ghost use Rattle.hash_family.specs.Setting.{setting_of};
ghost use Rattle.sketch_levels.specs.Kept.{kept_keys, is_dropped, score};
ghost use Rattle.sketch_levels.specs.Levels.{Layer, IsLayer, Takes, layer_of, level_at, heap_keys, IsView, Holds};

use crate::level::Level;
use count_sketch::Spots;
use flow_keys::FlowKey;
use hash_family::{Family, Params};
use mon_io::Memory;
use spot_table::{Known, SpotTable};
use std::alloc::Global;
use std::marker::Model;

/// The levels of a sketch, from 0 up to the highest. A level samples the keys that are live at the one below;
/// each has counters and a heap of its best keys.
#[derive(Drop)]
pub struct Levels {
    params: Params,
    family: Family,
    weight: u64,
    levels: Vec<Level>,
    spots: SpotTable,
}

impl Model for Levels {
    ghost use Rattle.std.specs.Prelude.{◌≡◌};
    ghost use Rattle.hash_family.specs.Setting.{setting_of};
    ghost use Rattle.sketch_levels.specs.Levels.{View, IsView};

    ghost Value = { View };

    ghost view = { λ all. record { setting = setting_of all.params; weight = all.weight; levels = all.levels.items } };

    ghost invariant = { λ all. (all.family ≡ all.params.seed)
        × IsView (record { setting = setting_of all.params; weight = all.weight; levels = all.levels.items })
        × (all.spots ≡ setting_of all.params) };
}

impl Levels {
    /// Levels to which nothing was fed. No other call but `keys` takes memory.
    pub fn new(alloc: Global, params: Params) -> Result<Levels, Memory>
        ensures setting { IfOk result (λ all. all.setting ≡ setting_of params) }
        ensures empty { IfOk result (λ all. Holds all []) }
    {
        let family = Family::new(alloc, params.seed)?;
        let levels = empty_levels(alloc, &params)?;
        let spots = SpotTable::new(alloc, &params)?;
        Ok(Levels {
            params,
            family,
            weight: 0,
            levels,
            spots,
        })
    }

    /// Adds the weight to the key's counters at each level where the key is live, and then offers the key with
    /// its new estimate to that level's heap. The weights of all calls are at most 2^44 together.
    pub fn feed(&mut self, key: &FlowKey, weight: u32)
        requires light { self.old.weight + weight ≤ 2 ^ 44 }
        ensures list { (items : List Item)
            → Holds self.old items → Holds self.new (items ++ record { key = key.now; weight = weight } ∷ []) }
        ensures setting { self.new.setting ≡ self.old.setting }
        ensures weight { self.new.weight ≡ self.old.weight + weight }
    {
        let _live = self.feed_by(key, u64::from(weight));
    }

    /// `feed` by a weight that need not fit 32 bits. It gives at how many levels, from 0 on, the key is live.
    pub fn feed_by(&mut self, key: &FlowKey, weight: u64) -> u8
        requires light { self.old.weight + weight ≤ 2 ^ 44 }
        ensures list { (items : List Item)
            → Holds self.old items → Holds self.new (items ++ record { key = key.now; weight = weight } ∷ []) }
        ensures setting { self.new.setting ≡ self.old.setting }
        ensures weight { self.new.weight ≡ self.old.weight + weight }
        ensures live { IsLiveAt self.old.setting.seed self.old.setting.levels key.now result }
    {
        let known = self.spots.known(&self.family, key);
        feed_levels(
            &mut self.levels,
            &self.params,
            &self.family,
            key,
            weight,
            &known,
        );
        self.weight += weight;
        known.live()
    }

    /// The estimate of a key's weight at a level, from the counters of that level.
    pub fn estimate(&self, level: u8, key: &FlowKey) -> i64
        requires { level ≤ self.now.setting.levels }
        ensures value { result
            ≡ estimate self.now.setting.seed level self.now.setting.rows self.now.setting.width
            (level_at self.now level).sketch.counters key.now }
        ensures list { (items : List Item) → Holds self.now items
            → result ≡ score self.now.setting level (live_items self.now.setting.seed level items) key.now }
        ensures bound { unsigned_abs result ≤ self.now.weight }
    {
        self.level(level).estimate(&self.family, level, key)
    }

    /// The counters of a level, in order of row, then bucket. No absolute value is above the weight fed so far.
    pub fn counters(&self, level: u8) -> &[i64]
        requires { level ≤ self.now.setting.levels }
        ensures value { result.now ≡ (level_at self.now level).sketch.counters }
        ensures list { (items : List Item) → Holds self.now items
            → result.now
            ≡ counters_of self.now.setting.seed level self.now.setting.rows self.now.setting.width
            (live_items self.now.setting.seed level items) }
        ensures shape { length result.now ≡ self.now.setting.rows * self.now.setting.width }
        ensures bound { AllUpTo self.now.weight result.now }
    {
        self.level(level).counters()
    }

    /// Whether a level's heap dropped a key: whether more distinct keys that are live there were fed than it holds.
    pub fn dropped(&self, level: u8) -> bool
        requires { level ≤ self.now.setting.levels }
        ensures value { result ≡ (level_at self.now level).dropped }
        ensures list { (items : List Item) → Holds self.now items
            → result ≡ is_dropped self.now.setting (live_items self.now.setting.seed level items) }
    {
        self.level(level).dropped()
    }

    /// The keys in a level's heap, in strictly ascending order. It takes memory for them.
    pub fn keys(&self, alloc: Global, level: u8) -> Result<Vec<FlowKey>, Memory>
        requires { level ≤ self.now.setting.levels }
        ensures value { IfOk result (λ keys. keys.items ≡ heap_keys self.now level) }
        ensures list { IfOk result (λ keys. (items : List Item) → Holds self.now items
            → keys.items ≡ kept_keys self.now.setting level (live_items self.now.setting.seed level items)) }
        ensures ascending { IfOk result (λ keys. IsStrictlySortedBy (slice_cmp nat_cmp) keys.items) }
        ensures few { IfOk result (λ keys. length keys.items ≤ self.now.setting.heap) }
    {
        self.level(level).keys(alloc)
    }

    /// The sum of the weights of all calls of `feed`, at most 2^44.
    pub fn weight(&self) -> u64
        ensures value { result ≡ self.now.weight }
        ensures whole { IsView self.now }
    {
        self.weight
    }

    /// The numbers of the sketch.
    pub fn params(&self) -> &Params
        ensures value { setting_of result.now ≡ self.now.setting }
    {
        &self.params
    }

    // A level by its number.
    fn level(&self, level: u8) -> &Level
        requires { level ≤ self.now.setting.levels }
        ensures value { result.now ≡ level_at self.now level }
        ensures shape { IsLayer self.now.setting self.now.weight result.now }
        ensures high { self.now.setting.levels ≤ 16 }
    {
        &self.levels[usize::from(level)]
    }
}

// As many levels as the parameters say, to which nothing was fed.
fn empty_levels(alloc: Global, params: &Params) -> Result<Vec<Level>, Memory>
    ensures number { IfOk result (λ levels. length levels.items ≡ params.now.levels + 1) }
    ensures empty { IfOk result (λ levels.
        All (λ layer. (level : ℕ) → layer ≡ layer_of (setting_of params.now) level []) levels.items) }
    ensures shape { IfOk result (λ levels. All (IsLayer (setting_of params.now) 0) levels.items) }
{
    let Ok(mut levels) = Vec::with_capacity(alloc, usize::from(params.levels) + 1) else {
        return Err(Memory);
    };
    for _ in 0..usize::from(params.levels) + 1 {
        let level = Level::new(alloc, params)?;
        if levels.push(level).is_err() {
            return Err(Memory);
        }
    }
    Ok(levels)
}

// Feeds the levels at which the key is live.
fn feed_levels(
    levels: &mut [Level],
    params: &Params,
    family: &Family,
    key: &FlowKey,
    weight: u64,
    known: &Known,
)
    requires number { length levels.old ≡ params.now.levels + 1 }
    requires family { family.now ≡ params.now.seed }
    requires known { IsKnown (setting_of params.now) key.now known.now }
    requires light { weight ≤ 2 ^ 44 }
    requires small { All (λ layer. AllUpTo (2 ^ 44) layer.sketch.counters) levels.old }
    requires shape { All (λ layer. (layer.sketch.rows ≡ params.now.rows) × (layer.sketch.width ≡ params.now.width))
        levels.old }
    ensures each { (level : ℕ) (d : Layer) → level < length levels.old
        → Takes family.now level (record { key = key.now; weight = weight })
        (slice_index_or levels.old level d) (slice_index_or levels.new level d) }
{
    let live = usize::from(known.live()).min(levels.len());
    for number in 0..live {
        let spots = spots_at(params, family, number as u8, key, known);
        levels[number].feed(family, number as u8, key, weight, &spots);
    }
}

// The key's spots at a level where it is live: those that are known, and else found from the hash functions.
#[inline]
fn spots_at(params: &Params, family: &Family, level: u8, key: &FlowKey, known: &Known) -> Spots
    requires level { level ≤ 16 }
    requires live { level < live_levels known.now }
    requires family { family.now ≡ params.now.seed }
    requires known { IsKnown (setting_of params.now) key.now known.now }
    ensures spots { AreSpots family.now level params.now.rows params.now.width key.now result }
{
    if level < 4 {
        *known.spots(level)
    } else {
        Spots::of(params.rows, params.width, family, level, key)
    }
}
