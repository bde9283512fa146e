//! The table of the best keys.
ghost use Rattle.std.specs.Prelude.{◌≡◌, ◌≢◌, ◌↔◌, ℕ, ◌+◌, ◌<◌, ◌≤◌, List, if◌then◌else◌, length, map};
ghost use Rattle.std.specs.Prelude.{IfOk, Contains};
ghost use Rattle.std.specs.Cmp.Lexicographic.{slice_cmp};
ghost use Rattle.std.specs.Ordering.{nat_cmp};
ghost use Rattle.std.specs.List.Sorted.{IsStrictlySortedBy};
ghost use Rattle.topk_heap.specs.Ranking.{best, holds, with_score};
ghost use Rattle.topk_heap.specs.Answer.{answer_of};
ghost use Rattle.topk_heap.specs.Table.{drops, empty_table, IsTable};

use crate::edits::{keys_of, offer_to};
use crate::{Entry, Offer};
use flow_keys::FlowKey;
use mon_io::Memory;
use std::alloc::Global;
use std::marker::Model;

/// At most `k` keys with their scores: the best of all that were offered, as each offer left them.
#[derive(Drop)]
pub struct TopK {
    size: usize,
    // the entries, which keep their slots
    slots: Vec<Entry>,
    // the numbers of the slots in ascending order of their keys
    order: Vec<u16>,
    // for each group of 32 slots the one that ranks last of it, where the table is full
    lasts: Vec<u16>,
}

impl Model for TopK {
    ghost use Rattle.topk_heap.specs.Table.{Table, IsStored};
    ghost use Rattle.topk_heap.specs.Places.{listed};
    ghost use Rattle.std.specs.Prelude.{vec_capacity};

    ghost Value = { Table };

    ghost view = { λ top. record { size = top.size; entries = listed top.slots.items top.order.items } };

    ghost invariant = { λ top. IsStored top.size top.slots.items top.order.items top.lasts.items
        (vec_capacity top.slots) (vec_capacity top.order) };
}

impl TopK {
    /// A table of no keys that holds at most `k`, which is 1 to 1,024. It takes the room for `k` entries.
    pub fn new(alloc: Global, k: u16) -> Result<TopK, Memory>
        requires some { 1 ≤ k }
        requires few { k ≤ 1024 }
        ensures empty { IfOk result (λ top. top ≡ empty_table k) }
        ensures table { IfOk result (λ top. IsTable top) }
    {
        let size = usize::from(k);
        let Ok(slots) = Vec::with_capacity(alloc, size) else {
            return Err(Memory);
        };
        let Ok(order) = Vec::with_capacity(alloc, size) else {
            return Err(Memory);
        };
        let Ok(lasts) = vec![in alloc; 0u16; 32] else {
            return Err(Memory);
        };
        Ok(TopK {
            size,
            slots,
            order,
            lasts,
        })
    }

    /// Gives the key this score. A key that isn't held is added, and where that makes one key too many
    /// the one that ranks last is dropped. It takes no memory.
    pub fn offer(&mut self, key: FlowKey, score: i64) -> Offer
        ensures kept { self.new.entries ≡ best self.old.size (with_score self.old.entries key score) }
        ensures size { self.new.size ≡ self.old.size }
        ensures answer { result ≡ answer_of key (drops self.old key score) }
        ensures none_dropped { (result ≡ Offer.Kept)
            ↔ (length (with_score self.old.entries key score) ≤ self.old.size) }
        ensures one_more { length (with_score self.old.entries key score)
            ≡ length self.old.entries + (if holds self.old.entries key then 0 else 1) }
        ensures refused { (result ≡ Offer.Refused) ↔ Contains (drops self.old key score) key }
        ensures dropping { (y : List ℕ)
            → (result ≡ Offer.KeptDropping y) ↔ ((y ≢ key) × Contains (drops self.old key score) y) }
        ensures table { IsTable self.new }
    {
        let dropped = offer_to(
            &mut self.slots,
            &mut self.order,
            &mut self.lasts,
            self.size,
            key,
            score,
        );
        Offer::of(&key, dropped)
    }

    /// How many keys are held.
    pub fn len(&self) -> usize
        ensures value { result ≡ length self.now.entries }
        ensures table { IsTable self.now }
    {
        self.order.len()
    }

    /// The held keys in strictly ascending order. It takes memory for them.
    pub fn keys_sorted(&self, alloc: Global) -> Result<Vec<FlowKey>, Memory>
        ensures keys { IfOk result (λ keys. keys.items ≡ map (λ entry. entry.key) self.now.entries) }
        ensures ascending { IfOk result (λ keys. IsStrictlySortedBy (slice_cmp nat_cmp) keys.items) }
    {
        keys_of(alloc, &self.slots, &self.order)
    }
}
