//! The sketch of the packets of an epoch.
ghost use Rattle.std.specs.Prelude.{◌≡◌, ◌<◌, ◌≤◌, ◌+◌, ◌*◌, ◌++◌, [], ◌∷◌, ℕ, List, All, IfOk, OnOk, IsTrue, length, map, replicate, string_bytes};
ghost use Rattle.std.specs.Cmp.Lexicographic.{slice_cmp};
ghost use Rattle.std.specs.Ordering.{nat_cmp};
ghost use Rattle.std.specs.List.Sorted.{IsStrictlySortedBy};
ghost use Rattle.count_sketch.specs.Counters.{Item, AllUpTo};
ghost use Rattle.sketch_merge.specs.Merged.{HaveUpTo};
ghost use Rattle.mon_call.specs.Setting.{is_setting};
ghost use Rattle.mon_central.specs.Central.{levels_setting, nonzero};
ghost use Rattle.hash_family.specs.Setting.{setting_of};

use crate::live::count_live;
use change_report::{LevelCount, change_text, epoch_text};
use flow_keys::FlowKey;
use hash_family::{Family, Params};
use mon_call::Setting;
use mon_io::Memory;
use sketch_levels::{AllKeys, Levels};
use sketch_merge::Merged;
use std::alloc::Global;

/// The levels of a sketch, all live keys where they are kept, how many packets are live at each level and what they
/// weigh, and how many packets there are.
#[derive(Drop)]
pub(crate) struct Sketched {
    family: Family,
    levels: Levels,
    all: Option<AllKeys>,
    live: Vec<u32>,
    weights: Vec<u64>,
    number: u32,
}

impl Sketched {
    ghost use Rattle.mon_central.specs.Sketched.{IsFed, Sketches, IsMerged, IsSketch, HasRoom, any_mark, counters_up_to, keys_up_to};
    ghost use Rattle.mon_central.specs.Central.{block_of, central_view, change_of, kept_keys, level_count, level_counts};
    ghost use Rattle.sketch_levels.specs.Items.{live_items};
    ghost use Rattle.sketch_levels.specs.Levels.{Holds};

    /// Nothing yet.
    pub(crate) fn new(alloc: Global, setting: &Setting) -> Result<Sketched, Memory>
        requires { IsTrue (is_setting setting.now) }
        ensures { IfOk result (λ sketched. IsFed setting.now sketched [] []) }
    {
        let family = Family::new(alloc, setting.seed)?;
        let levels = Levels::new(alloc, params_of(setting))?;
        let all = if setting.heap == 0 {
            Some(AllKeys::new(alloc, setting.levels)?)
        } else {
            None
        };
        let live = no_counts(alloc, usize::from(setting.levels) + 1)?;
        let weights = no_weights(alloc, usize::from(setting.levels) + 1)?;
        Ok(Sketched {
            family,
            levels,
            all,
            live,
            weights,
            number: 0,
        })
    }

    /// Feeds so many packets with this key, of this weight together.
    pub(crate) fn feed(&mut self, key: &FlowKey, packets: u32, weight: u64) -> Result<(), Memory>
        requires { HasRoom self.old packets weight }
        ensures { OnOk result ((setting : Setting) (fed counted : List Item) → IsFed setting self.old fed counted →
            IsFed setting self.new (fed ++ record { key = key.now; weight = weight } ∷ [])
            (counted ++ record { key = key.now; weight = packets } ∷ [])) }
    {
        self.number += packets;
        let levels = self.levels.feed_by(key, weight);
        count_live(levels, packets, weight, &mut self.live, &mut self.weights);
        match &mut self.all {
            Some(all) => all.note_live(key, levels),
            None => Ok(()),
        }
    }

    /// The lines of the epoch, of which this is the merged sketch.
    pub(crate) fn block(
        &self,
        alloc: Global,
        setting: &Setting,
        epoch: u8,
        merged: &Merged,
    ) -> Result<String, Memory>
        requires sketch { IsSketch setting.now self.now }
        requires merged { IsMerged setting.now merged.now }
        ensures text { IfOk result (λ text. (items : List Item) →
            Sketches setting.now self.now items → merged.now ≡ central_view setting.now items →
            string_bytes text ≡ block_of setting.now epoch items) }
    {
        let counts = self.level_counts(alloc, setting, merged)?;
        epoch_text(
            alloc,
            &self.family,
            epoch,
            self.number,
            merged,
            &counts,
            setting.heavy,
        )
    }

    /// The lines of the change to the epoch, of which this is the merged sketch, from the one before.
    pub(crate) fn change(
        &self,
        alloc: Global,
        setting: &Setting,
        epoch: u8,
        before: &Merged,
        merged: &Merged,
    ) -> Result<String, Memory>
        requires sketch { IsSketch setting.now self.now }
        requires later { 0 < epoch }
        requires merged { IsMerged setting.now merged.now }
        requires before { IsMerged setting.now before.now }
        ensures text { IfOk result (λ text. (earlier items : List Item) →
            Sketches setting.now self.now items → before.now ≡ central_view setting.now earlier →
            merged.now ≡ central_view setting.now items →
            string_bytes text ≡ change_of setting.now epoch earlier items) }
    {
        change_text(alloc, &self.family, epoch, before, merged, setting.heavy)
    }

    /// What was sketched, as a merged sketch.
    pub(crate) fn merged(&self, alloc: Global, setting: &Setting) -> Result<Merged, Memory>
        requires sketch { IsSketch setting.now self.now }
        ensures value { IfOk result (λ merged. (items : List Item) →
            Sketches setting.now self.now items → merged ≡ central_view setting.now items) }
        ensures merged { IfOk result (IsMerged setting.now) }
    {
        let counters = self.counters(alloc, setting.levels)?;
        let keys = self.keys(alloc, setting)?;
        let dropped = self.all.is_none() && self.any_dropped(setting.levels);
        let weight = self.levels.weight();
        Merged::from_levels(alloc, params_of(setting), counters, keys, dropped, weight)
    }

    // The counters of all levels up to this one, a level behind another.
    fn counters(&self, alloc: Global, levels: u8) -> Result<Vec<i64>, Memory>
        requires high { levels ≤ self.now.levels.setting.levels }
        requires small { levels ≤ 16 }
        ensures value { IfOk result (λ counters. counters.items ≡ counters_up_to self.now.levels (levels + 1)) }
        ensures bound { IfOk result (λ counters. AllUpTo self.now.levels.weight counters.items) }
        ensures size { IfOk result (λ counters. length counters.items
            ≡ (levels + 1) * (self.now.levels.setting.rows * self.now.levels.setting.width)) }
    {
        let mut counters = Vec::new(alloc);
        for level in 0..levels + 1 {
            let Ok(()) = counters.extend_from_slice(self.levels.counters(level)) else {
                return Err(Memory);
            };
        }
        Ok(counters)
    }

    // The keys that each level keeps.
    fn keys(&self, alloc: Global, setting: &Setting) -> Result<Vec<Vec<FlowKey>>, Memory>
        requires sketch { IsSketch setting.now self.now }
        ensures value { IfOk result (λ keys. (items : List Item) →
            Sketches setting.now self.now items →
            map (λ level. level.items) keys.items ≡ keys_up_to setting.now items (setting.now.levels + 1)) }
        ensures number { IfOk result (λ keys. length keys.items ≡ setting.now.levels + 1) }
        ensures ascending { IfOk result (λ keys. All (λ level. IsStrictlySortedBy (slice_cmp nat_cmp) level.items) keys.items) }
        ensures few { IfOk result (λ keys. All (λ level. length level.items ≤ 1048576) keys.items) }
    {
        let mut keys = Vec::new(alloc);
        for level in 0..setting.levels + 1 {
            let kept = self.kept(alloc, setting, level)?;
            let Ok(()) = keys.push(kept) else {
                return Err(Memory);
            };
        }
        Ok(keys)
    }

    // The keys that a level keeps.
    fn kept(&self, alloc: Global, setting: &Setting, level: u8) -> Result<Vec<FlowKey>, Memory>
        requires sketch { IsSketch setting.now self.now }
        requires high { level ≤ setting.now.levels }
        ensures value { IfOk result (λ keys. (items : List Item) →
            Sketches setting.now self.now items →
            keys.items ≡ kept_keys setting.now level (live_items setting.now.seed level items)) }
        ensures ascending { IfOk result (λ keys. IsStrictlySortedBy (slice_cmp nat_cmp) keys.items) }
        ensures few { IfOk result (λ keys. length keys.items ≤ 1048576) }
    {
        match &self.all {
            Some(all) => all.keys(alloc, level),
            None => self.levels.keys(alloc, level),
        }
    }

    // The numbers of all levels.
    fn level_counts(
        &self,
        alloc: Global,
        setting: &Setting,
        merged: &Merged,
    ) -> Result<Vec<LevelCount>, Memory>
        requires sketch { IsSketch setting.now self.now }
        requires levels { merged.now.setting.levels ≡ setting.now.levels }
        requires few { HaveUpTo 1048576 merged.now.keys }
        ensures value { IfOk result (λ counts. (items : List Item) →
            Sketches setting.now self.now items → merged.now ≡ central_view setting.now items →
            counts.items ≡ level_counts setting.now items) }
    {
        let mut counts = Vec::new(alloc);
        for level in 0..setting.levels + 1 {
            let count = self.level_count(level, merged);
            let Ok(()) = counts.push(count) else {
                return Err(Memory);
            };
        }
        Ok(counts)
    }

    // The numbers of one level.
    fn level_count(&self, level: u8, merged: &Merged) -> LevelCount
        requires number { level < length self.now.live.items }
        requires same { level < length self.now.weights.items }
        requires high { level ≤ merged.now.setting.levels }
        requires few { HaveUpTo 1048576 merged.now.keys }
        ensures value { (setting : Setting) (items : List Item) →
            Sketches setting self.now items → merged.now ≡ central_view setting items →
            level ≤ setting.levels → result ≡ level_count setting items level }
    {
        let packets = self.live[usize::from(level)];
        let weight = self.weights[usize::from(level)];
        LevelCount {
            packets,
            weight,
            keys: merged.keys(level).len() as u32,
            nonzero: nonzero(merged.counters(level)),
        }
    }

    // Whether a heap dropped a key.
    fn any_dropped(&self, levels: u8) -> bool
        requires high { levels ≤ self.now.levels.setting.levels }
        requires small { levels ≤ 16 }
        ensures { (items : List Item) → Holds self.now.levels items → result ≡ any_mark self.now.levels.setting items (levels + 1) }
    {
        let mut dropped = false;
        for level in 0..levels + 1 {
            dropped = self.levels.dropped(level) || dropped;
        }
        dropped
    }
}

// How many counters of a level aren't 0.
fn nonzero(counters: &[i64]) -> u32
    requires { length counters.now ≤ 14336 }
    ensures { result ≡ nonzero counters.now }
{
    counters.iter().filter(|counter| **counter != 0).count() as u32
}

// The parameters of the levels: where every live key is kept beside them, their heaps have one place.
fn params_of(setting: &Setting) -> Params
    requires { IsTrue (is_setting setting.now) }
    ensures { setting_of result ≡ levels_setting setting.now }
{
    let heap = setting.heap.max(1);
    Params::new(
        setting.levels,
        setting.rows,
        setting.width,
        heap,
        setting.seed,
    )
    .unwrap()
}

fn no_counts(alloc: Global, number: usize) -> Result<Vec<u32>, Memory>
    ensures { IfOk result (λ counts. counts.items ≡ replicate number 0) }
{
    match vec![in alloc; 0u32; number] {
        Ok(counts) => Ok(counts),
        Err(_) => Err(Memory),
    }
}

fn no_weights(alloc: Global, number: usize) -> Result<Vec<u64>, Memory>
    ensures { IfOk result (λ weights. weights.items ≡ replicate number 0) }
{
    match vec![in alloc; 0u64; number] {
        Ok(weights) => Ok(weights),
        Err(_) => Err(Memory),
    }
}
