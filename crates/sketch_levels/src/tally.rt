//! How many items each key has, and what they weigh.
ghost use Rattle.std.specs.Prelude.{◌≡◌, ◌+◌, ◌<◌, ◌≤◌, ◌-◌, ◌^◌, ℕ, List, [], ◌∷◌, ◌++◌, OnOk, OnErr, length, map, slice_index_or};
ghost use Rattle.count_sketch.specs.Counters.{Item};
ghost use Rattle.sketch_levels.specs.Items.{weight_of};
ghost use Rattle.sketch_levels.specs.Stands.{IsTally, KeyTotal, packets_of, weights_of};
ghost use Rattle.sketch_levels.specs.Totals.{AddsItem, tallied};

use flow_keys::FlowKey;
use indexmap::IndexMap;
use mon_io::Memory;
use std::alloc::Global;
use std::marker::Model;

/// How many items a key has, and what they weigh together.
#[derive(Clone, Copy)]
pub struct Total {
    pub packets: u32,
    pub weight: u64,
}

/// The keys of items, each once with its number of items and their weight, in the order in which they came.
#[derive(Drop)]
pub struct Tally {
    totals: IndexMap<FlowKey, Total>,
}

impl Model for Tally {
    ghost use Rattle.std.specs.Prelude.{List};
    ghost use Rattle.sketch_levels.specs.Stands.{KeyTotal};
    ghost use Rattle.sketch_levels.specs.Totals.{tallied};

    ghost Value = { List KeyTotal };

    ghost view = { λ tally. tallied tally.totals.entries };
}

impl Tally {
    /// No items. The memory for a key is taken as it is counted.
    pub fn new(alloc: Global) -> Tally
        ensures none { result ≡ [] }
        ensures items { IsTally result [] }
    {
        Tally {
            totals: IndexMap::new(alloc),
        }
    }

    /// Counts an item, by one look-up where its key is there. There are fewer than 2^32 items, which weigh at most
    /// 2^44 together. Nothing changes where memory for a key is wanting.
    #[inline]
    pub fn add(&mut self, key: &FlowKey, weight: u32) -> Result<(), Memory>
        requires few { weight_of (packets_of self.old) < 2 ^ 32 - 1 }
        requires light { weight_of (weights_of self.old) + weight ≤ 2 ^ 44 }
        ensures items { OnOk result ((items : List Item) → IsTally self.old items
            → IsTally self.new (items ++ record { key = key.now; weight = weight } ∷ [])) }
        ensures packets { OnOk result (weight_of (packets_of self.new) ≡ weight_of (packets_of self.old) + 1) }
        ensures weight { OnOk result (weight_of (weights_of self.new) ≡ weight_of (weights_of self.old) + weight) }
        ensures refused { OnErr result (self.new ≡ self.old) }
    {
        add_in(&mut self.totals, key, weight)
    }

    /// How many keys there are.
    pub fn len(&self) -> usize
        ensures value { result ≡ length self.now }
    {
        self.totals.len()
    }

    /// A key with its total, by its place in the order in which the keys came.
    pub fn entry(&self, index: usize) -> (FlowKey, Total)
        requires { index < length self.now }
        ensures value { (d : KeyTotal) → record { key = result.0; packets = result.1.packets; weight = result.1.weight }
            ≡ slice_index_or self.now index d }
    {
        entry_in(&self.totals, index)
    }
}

// Counts an item with its key's total.
#[inline]
fn add_in(totals: &mut IndexMap<FlowKey, Total>, key: &FlowKey, weight: u32) -> Result<(), Memory>
    requires few { weight_of (packets_of (tallied totals.old.entries)) < 2 ^ 32 - 1 }
    requires light { weight_of (weights_of (tallied totals.old.entries)) + weight ≤ 2 ^ 44 }
    ensures added { OnOk result (AddsItem key.now weight totals.old.entries totals.new.entries) }
    ensures refused { OnErr result (totals.new.entries ≡ totals.old.entries) }
{
    if let Some(total) = totals.get_mut(key) {
        total.packets += 1;
        total.weight += u64::from(weight);
        return Ok(());
    }
    let total = Total {
        packets: 1,
        weight: u64::from(weight),
    };
    match totals.insert(*key, total) {
        Ok(_) => Ok(()),
        Err(_) => Err(Memory),
    }
}

// A key with its total.
fn entry_in(totals: &IndexMap<FlowKey, Total>, index: usize) -> (FlowKey, Total)
    requires { index < length totals.now.entries }
    ensures value { (d : KeyTotal) → record { key = result.0; packets = result.1.packets; weight = result.1.weight }
        ≡ slice_index_or (tallied totals.now.entries) index d }
{
    match totals.get_index(index) {
        Some((key, total)) => (*key, *total),
        None => unreachable!(),
    }
}
