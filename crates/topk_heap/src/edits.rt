//! The steps of an offer.
ghost use Rattle.std.specs.Prelude.{◌≡◌, ◌↔◌, ◌+◌, ◌<◌, ◌≤◌, [], ◌∷◌, false, length, map, set, slice_index_or, vec_len, vec_capacity, All, Err, IsNone, IfOk};
ghost use Rattle.std.specs.List.{insert, remove};
ghost use Rattle.std.specs.Option.{option_to_list};
ghost use Rattle.topk_heap.specs.Places.{listed, HasLasts, IsOrder, IsPlace, RanksLast};
ghost use Rattle.topk_heap.specs.Ranking.{best, dropped_keys, ranks_before, with_score, IsAscending};
ghost use Rattle.topk_heap.specs.declared.entry.Entry.{Entry};

use crate::Entry;
use crate::groups::{last_slot, search_groups, write_slot};
use crate::place::{place_of, place_of_slot};
use flow_keys::FlowKey;
use mon_io::Memory;
use std::alloc::Global;

// Gives the key this score in a table of at most `size` entries, and keeps the best of them: the slot of a held key is
// written, and a new key is put in or refused. It gives the key that is dropped, the offered one where it is refused.
// The slots that rank last of their groups are known of a full table, before and after.
pub(crate) fn offer_to(
    slots: &mut Vec<Entry>,
    order: &mut Vec<u16>,
    lasts: &mut Vec<u16>,
    size: usize,
    key: FlowKey,
    score: i64,
) -> Option<FlowKey>
    requires some { 1 ≤ size }
    requires limit { size ≤ 1024 }
    requires ascending { IsAscending (listed slots.old.items order.old.items) }
    requires order { IsOrder (length slots.old.items) order.old.items }
    requires few { length order.old.items ≤ size }
    requires slots_room { size ≤ vec_capacity slots.old }
    requires order_room { size ≤ vec_capacity order.old }
    requires groups { length lasts.old.items ≡ 32 }
    requires lasts { length order.old.items ≡ size → HasLasts slots.old.items lasts.old.items }
    ensures kept { listed slots.new.items order.new.items
        ≡ best size (with_score (listed slots.old.items order.old.items) key score) }
    ensures dropped { option_to_list result
        ≡ dropped_keys size (with_score (listed slots.old.items order.old.items) key score) }
    ensures none { IsNone result
        ↔ (length (with_score (listed slots.old.items order.old.items) key score) ≤ size) }
    ensures order { IsOrder (length slots.new.items) order.new.items }
    ensures fits { length order.new.items ≤ size }
    ensures slots_room { size ≤ vec_capacity slots.new }
    ensures order_room { size ≤ vec_capacity order.new }
    ensures groups { length lasts.new.items ≡ 32 }
    ensures lasts { length order.new.items ≡ size → HasLasts slots.new.items lasts.new.items }
{
    let entry = Entry { key, score };
    match place_of(slots, order, &key) {
        Ok(place) => {
            rewrite(slots, lasts, size, usize::from(order[place]), entry);
            None
        }
        Err(place) => {
            if order.len() < size {
                put_in(slots, order, place, entry);
                search_full(slots, lasts, size);
                return None;
            }
            let last = last_slot(slots, lasts);
            if slots[last].ranks_before(&entry) {
                return Some(key);
            }
            Some(replace_last(slots, order, lasts, last, place, entry))
        }
    }
}

// Writes the slot of a held key. The last ones of the groups are known of a full table, before and after.
fn rewrite(slots: &mut Vec<Entry>, lasts: &mut Vec<u16>, size: usize, slot: usize, entry: Entry)
    requires within { slot < length slots.old.items }
    requires few { length slots.old.items ≤ 1024 }
    requires groups { length lasts.old.items ≡ 32 }
    requires lasts { length slots.old.items ≡ size → HasLasts slots.old.items lasts.old.items }
    ensures slots { slots.new.items ≡ set slots.old.items slot entry }
    ensures capacity { vec_capacity slots.old ≤ vec_capacity slots.new }
    ensures groups { length lasts.new.items ≡ 32 }
    ensures lasts { length slots.new.items ≡ size → HasLasts slots.new.items lasts.new.items }
{
    if slots.len() == size {
        write_slot(slots, lasts, slot, entry);
    } else {
        slots[slot] = entry;
    }
}

// Puts a new entry into a slot of its own, and the slot's number into the order before the place.
fn put_in(slots: &mut Vec<Entry>, order: &mut Vec<u16>, place: usize, entry: Entry)
    requires few { length slots.old.items < 1024 }
    requires ascending { IsAscending (listed slots.old.items order.old.items) }
    requires order { IsOrder (length slots.old.items) order.old.items }
    requires place { IsPlace (listed slots.old.items order.old.items) entry.key (Err place) }
    requires slots_room { vec_len slots.old < vec_capacity slots.old }
    requires order_room { vec_len order.old < vec_capacity order.old }
    ensures items { listed slots.new.items order.new.items
        ≡ with_score (listed slots.old.items order.old.items) entry.key entry.score }
    ensures more { length slots.new.items ≡ length slots.old.items + 1 }
    ensures order { IsOrder (length slots.new.items) order.new.items }
    ensures slots_capacity { vec_capacity slots.old ≤ vec_capacity slots.new }
    ensures order_capacity { vec_capacity order.old ≤ vec_capacity order.new }
{
    let slot = slots.len() as u16;
    let _ = slots.push(entry);
    let _ = order.insert(place, slot);
}

// Finds the last one of each group where the table is full.
fn search_full(slots: &[Entry], lasts: &mut Vec<u16>, size: usize)
    requires few { length slots.now ≤ 1024 }
    requires groups { length lasts.old.items ≡ 32 }
    ensures groups { length lasts.new.items ≡ 32 }
    ensures lasts { length slots.now ≡ size → HasLasts slots.now lasts.new.items }
{
    if slots.len() == size {
        search_groups(slots, lasts);
    }
}

// Puts a new entry into a full table in place of the one of the slot `last`, which ranks last and not before the new one.
// It gives the key that is dropped.
fn replace_last(
    slots: &mut Vec<Entry>,
    order: &mut Vec<u16>,
    lasts: &mut Vec<u16>,
    last: usize,
    place: usize,
    entry: Entry,
) -> FlowKey
    requires few { length slots.old.items ≤ 1024 }
    requires ascending { IsAscending (listed slots.old.items order.old.items) }
    requires order { IsOrder (length slots.old.items) order.old.items }
    requires place { IsPlace (listed slots.old.items order.old.items) entry.key (Err place) }
    requires order_room { length slots.old.items ≤ vec_capacity order.old }
    requires groups { length lasts.old.items ≡ 32 }
    requires lasts { HasLasts slots.old.items lasts.old.items }
    requires last { RanksLast slots.old.items last }
    requires behind { (d : Entry) → ranks_before (slice_index_or slots.old.items last d) entry ≡ false }
    ensures kept { listed slots.new.items order.new.items
        ≡ best (length slots.old.items) (with_score (listed slots.old.items order.old.items) entry.key entry.score) }
    ensures dropped { result ∷ []
        ≡ dropped_keys (length slots.old.items)
        (with_score (listed slots.old.items order.old.items) entry.key entry.score) }
    ensures many { length (with_score (listed slots.old.items order.old.items) entry.key entry.score)
        ≡ length slots.old.items + 1 }
    ensures count { length slots.new.items ≡ length slots.old.items }
    ensures order { IsOrder (length slots.new.items) order.new.items }
    ensures slots_capacity { vec_capacity slots.old ≤ vec_capacity slots.new }
    ensures order_capacity { vec_capacity order.old ≤ vec_capacity order.new }
    ensures groups { length lasts.new.items ≡ 32 }
    ensures lasts { HasLasts slots.new.items lasts.new.items }
{
    let dropped = slots[last].key;
    let from = place_of_slot(slots, order, last);
    move_number(order, from, place_without(place, from));
    write_slot(slots, lasts, last, entry);
    dropped
}

// Where a place is once what stands at `from` is taken out.
fn place_without(place: usize, from: usize) -> usize
    ensures above { from < place → result + 1 ≡ place }
    ensures below { place ≤ from → result ≡ place }
{
    if from < place { place - 1 } else { place }
}

// Takes the number at one place of an order out, and puts it in at another.
fn move_number(order: &mut Vec<u16>, from: usize, to: usize)
    requires from { from < length order.old.items }
    requires to { to < length order.old.items }
    requires room { length order.old.items ≤ vec_capacity order.old }
    ensures items { order.new.items
        ≡ insert (remove order.old.items from) to (slice_index_or order.old.items from 0) }
    ensures capacity { vec_capacity order.old ≤ vec_capacity order.new }
{
    let slot = order.remove(from);
    let _ = order.insert(to, slot);
}

// The keys in the order of their entries.
pub(crate) fn keys_of(alloc: Global, slots: &[Entry], order: &[u16]) -> Result<Vec<FlowKey>, Memory>
    requires below { All (λ slot. slot < length slots.now) order.now }
    ensures keys { IfOk result (λ keys. keys.items ≡ map (λ entry. entry.key) (listed slots.now order.now)) }
{
    let Ok(mut keys) = Vec::with_capacity(alloc, order.len()) else {
        return Err(Memory);
    };
    for place in 0..order.len() {
        let Ok(()) = keys.push(slots[usize::from(order[place])].key) else {
            return Err(Memory);
        };
    }
    Ok(keys)
}
