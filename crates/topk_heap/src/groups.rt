//! The entry that ranks last of a full table. The slots stand in groups of 32 in a row, and the slot that ranks last of
//! each group is known, so that a new entry costs the search of one group.
ghost use Rattle.std.specs.Prelude.{◌≡◌, ◌≢◌, ℕ, ◌*◌, ◌/◌, ◌<◌, ◌≤◌, true, length, set, slice_index_or, vec_capacity};
ghost use Rattle.topk_heap.specs.Places.{HasLasts, RanksLast, RanksLastOfGroup};

use crate::Entry;

// The slot of the group whose entry ranks before no other of the group.
fn last_of_group(slots: &[Entry], group: usize) -> usize
    requires some { group * 32 < length slots.now }
    requires few { length slots.now ≤ 1024 }
    ensures last { RanksLastOfGroup slots.now group result }
{
    let first = group * 32;
    let end = slots.len().min(first + 32);
    let mut last = first;
    for slot in first + 1..end {
        if slots[last].ranks_before(&slots[slot]) {
            last = slot;
        }
    }
    last
}

// The slot whose entry ranks before no other: one of those that rank last of their groups.
pub(crate) fn last_slot(slots: &[Entry], lasts: &[u16]) -> usize
    requires some { 0 < length slots.now }
    requires few { length slots.now ≤ 1024 }
    requires groups { length lasts.now ≡ 32 }
    requires lasts { HasLasts slots.now lasts.now }
    ensures last { RanksLast slots.now result }
{
    let mut last = usize::from(lasts[0]);
    for group in 1..(slots.len() + 31) / 32 {
        let other = usize::from(lasts[group]);
        if slots[last].ranks_before(&slots[other]) {
            last = other;
        }
    }
    last
}

// Finds the slot that ranks last of each group.
pub(crate) fn search_groups(slots: &[Entry], lasts: &mut Vec<u16>)
    requires few { length slots.now ≤ 1024 }
    requires groups { length lasts.old.items ≡ 32 }
    ensures groups { length lasts.new.items ≡ 32 }
    ensures lasts { HasLasts slots.now lasts.new.items }
{
    for group in 0..(slots.len() + 31) / 32 {
        search_group(slots, lasts, group);
    }
}

// Finds the slot that ranks last of one group.
fn search_group(slots: &[Entry], lasts: &mut Vec<u16>, group: usize)
    requires some { group * 32 < length slots.now }
    requires few { length slots.now ≤ 1024 }
    requires groups { length lasts.old.items ≡ 32 }
    ensures groups { length lasts.new.items ≡ 32 }
    ensures last { (d : ℕ) → RanksLastOfGroup slots.now group (slice_index_or lasts.new.items group d) }
    ensures others { (other d : ℕ) → other ≢ group
        → slice_index_or lasts.new.items other d ≡ slice_index_or lasts.old.items other d }
{
    lasts[group] = last_of_group(slots, group) as u16;
}

// Writes a slot of a full table. Its group is searched again where another slot of it may rank last now.
pub(crate) fn write_slot(slots: &mut Vec<Entry>, lasts: &mut Vec<u16>, slot: usize, entry: Entry)
    requires within { slot < length slots.old.items }
    requires few { length slots.old.items ≤ 1024 }
    requires groups { length lasts.old.items ≡ 32 }
    requires lasts { HasLasts slots.old.items lasts.old.items }
    ensures slots { slots.new.items ≡ set slots.old.items slot entry }
    ensures capacity { vec_capacity slots.old ≤ vec_capacity slots.new }
    ensures groups { length lasts.new.items ≡ 32 }
    ensures lasts { HasLasts slots.new.items lasts.new.items }
{
    let stays = stays_last(slots, usize::from(lasts[slot / 32]), slot, &entry);
    slots[slot] = entry;
    if !stays {
        search_group(slots, lasts, slot / 32);
    }
}

// Whether the last one of the group of a slot ranks last of it still where this entry is written to the slot.
fn stays_last(slots: &[Entry], last: usize, slot: usize, entry: &Entry) -> bool
    requires within { slot < length slots.now }
    requires last { RanksLastOfGroup slots.now (slot / 32) last }
    ensures last { result ≡ true → RanksLastOfGroup (set slots.now slot entry.now) (slot / 32) last }
{
    if slot == last {
        return false;
    }
    !slots[last].ranks_before(entry)
}
