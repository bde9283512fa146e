//! Every noted key.
ghost use Rattle.std.specs.Prelude.{◌≡◌, ◌↔◌, ◌+◌, ◌<◌, ◌≤◌, ℕ, true, false, List, [], ◌∷◌, ◌++◌};
ghost use Rattle.std.specs.Prelude.{Any, Contains, IfOk, OnOk, OnErr};
ghost use Rattle.std.specs.Cmp.Lexicographic.{slice_cmp};
ghost use Rattle.std.specs.Ordering.{nat_cmp};
ghost use Rattle.std.specs.List.Sorted.{IsStrictlySortedBy};
ghost use Rattle.std.specs.BTreeMap.{get, IsOrdered};
ghost use Rattle.hash_family.specs.Hash.{is_live};
ghost use Rattle.count_sketch.specs.Counters.{Item};
ghost use Rattle.spot_table.specs.Live.{IsLiveAt};
ghost use Rattle.sketch_levels.specs.Items.{distinct_keys, live_items};
ghost use Rattle.sketch_levels.specs.Noted.{Note, HoldsNotes, TakesKey, keys_at, live_keys, notes_of};

use flow_keys::FlowKey;
use hash_family::Family;
use mon_io::Memory;
use std::alloc::Global;
use std::collections::BTreeMap;
use std::marker::Model;

/// Keys with the highest level at which each is live.
#[derive(Drop)]
pub struct AllKeys {
    top: u8,
    highest: BTreeMap<FlowKey, u8>,
}

impl Model for AllKeys {
    ghost use Rattle.std.specs.Prelude.{◌≤◌};
    ghost use Rattle.sketch_levels.specs.Noted.{Noted};

    ghost Value = { Noted };

    ghost view = { λ all. record { top = all.top; entries = all.highest.entries } };

    ghost invariant = { λ all. all.top ≤ 16 };
}

impl AllKeys {
    /// No keys, of levels from 0 up to this one (0 to 16). The memory for a key is taken as it is noted.
    pub fn new(alloc: Global, levels: u8) -> Result<AllKeys, Memory>
        requires { levels ≤ 16 }
        ensures top { IfOk result (λ all. all.top ≡ levels) }
        ensures empty { IfOk result (λ all. HoldsNotes all []) }
        ensures items { IfOk result (λ all. (seed : ℕ) → HoldsNotes all (notes_of seed [])) }
    {
        Ok(AllKeys {
            top: levels,
            highest: BTreeMap::new(alloc),
        })
    }

    /// Notes a key, which is live at levels by this family. Nothing changes where memory for it is wanting.
    pub fn note(&mut self, family: &Family, key: &FlowKey) -> Result<(), Memory>
        ensures notes { OnOk result ((notes : List Note) → HoldsNotes self.old notes
            → HoldsNotes self.new (notes ++ record { seed = family.now; key = key.now } ∷ [])) }
        ensures items { OnOk result ((items : List Item) (weight : ℕ)
            → HoldsNotes self.old (notes_of family.now items)
            → HoldsNotes self.new (notes_of family.now (items ++ record { key = key.now; weight = weight } ∷ []))) }
        ensures refused { OnErr result (self.new ≡ self.old) }
        ensures top { self.new.top ≡ self.old.top }
    {
        let highest = highest_live(family, self.top, key);
        note_in(&mut self.highest, key, highest)
    }

    /// `note` of a key by the number of levels, from 0 on, at which it is live, as `Levels::feed_by` gives it.
    pub fn note_live(&mut self, key: &FlowKey, live: u8) -> Result<(), Memory>
        ensures notes { OnOk result ((seed : ℕ) (notes : List Note) → IsLiveAt seed self.old.top key.now live
            → HoldsNotes self.old notes
            → HoldsNotes self.new (notes ++ record { seed = seed; key = key.now } ∷ [])) }
        ensures items { OnOk result ((seed : ℕ) (items : List Item) (weight : ℕ)
            → IsLiveAt seed self.old.top key.now live
            → HoldsNotes self.old (notes_of seed items)
            → HoldsNotes self.new (notes_of seed (items ++ record { key = key.now; weight = weight } ∷ []))) }
        ensures refused { OnErr result (self.new ≡ self.old) }
        ensures top { self.new.top ≡ self.old.top }
    {
        let highest = live.saturating_sub(1).min(self.top);
        note_in(&mut self.highest, key, highest)
    }

    /// The keys that were noted with a family by which they are live at a level, each once, in ascending order.
    /// It takes memory for them.
    pub fn keys(&self, alloc: Global, level: u8) -> Result<Vec<FlowKey>, Memory>
        requires { level ≤ self.now.top }
        ensures value { IfOk result (λ keys. keys.items ≡ keys_at level self.now.entries) }
        ensures notes { IfOk result (λ keys. (notes : List Note) → HoldsNotes self.now notes
            → keys.items ≡ live_keys level notes) }
        ensures items { IfOk result (λ keys. (seed : ℕ) (items : List Item) → HoldsNotes self.now (notes_of seed items)
            → keys.items ≡ distinct_keys (live_items seed level items)) }
        ensures every { IfOk result (λ keys. (notes : List Note) → HoldsNotes self.now notes → (key : List ℕ)
            → Contains keys.items key
            ↔ Any (λ note. (note.key ≡ key) × (is_live note.seed level note.key ≡ true)) notes) }
        ensures ascending { IfOk result (λ keys. IsStrictlySortedBy (slice_cmp nat_cmp) keys.items) }
    {
        keys_from(alloc, &self.highest, level)
    }
}

// Notes a key with the highest level at which it is live. Nothing changes where memory for it is wanting.
fn note_in(highest: &mut BTreeMap<FlowKey, u8>, key: &FlowKey, level: u8) -> Result<(), Memory>
    ensures taken { OnOk result ((seed top : ℕ) → IsLiveAt seed top key.now (level + 1)
        → TakesKey seed top key.now highest.old.entries highest.new.entries) }
    ensures refused { OnErr result (highest.new.entries ≡ highest.old.entries) }
{
    let Ok(before) = highest.insert(*key, level) else {
        return Err(Memory);
    };
    let noted = before.unwrap_or(level);
    if noted <= level {
        return Ok(());
    }
    // The key is there, so this takes no memory.
    match highest.insert(*key, noted) {
        Ok(_) => Ok(()),
        Err(_) => Err(Memory),
    }
}

// The highest level, up to this one, at which the key is live.
fn highest_live(family: &Family, top: u8, key: &FlowKey) -> u8
    requires { top ≤ 16 }
    ensures live { IsLiveAt family.now top key.now (result + 1) }
{
    for level in 0..top {
        if !family.sample(level + 1, key) {
            return level;
        }
    }
    top
}

// The keys that are live at this level, in the order of the entries.
#[tactic(auto, unfolding(crate::specs::Noted::keys_at))]
fn keys_from(
    alloc: Global,
    highest: &BTreeMap<FlowKey, u8>,
    level: u8,
) -> Result<Vec<FlowKey>, Memory>
    ensures value { IfOk result (λ keys. keys.items ≡ keys_at level highest.now.entries) }
    ensures ordered { IsOrdered (slice_cmp nat_cmp) highest.now }
{
    match highest
        .iter()
        .filter(|entry| *entry.1 >= level)
        .map(|entry| *entry.0)
        .collect(alloc)
    {
        Ok(keys) => Ok(keys),
        Err(_) => Err(Memory),
    }
}
