//! The place of a key in the order of the slots.
ghost use Rattle.std.specs.Prelude.{◌≡◌, ◌<◌, length, slice_index_or, All};
ghost use Rattle.topk_heap.specs.Places.{listed, IsOrder, IsPlace};
ghost use Rattle.topk_heap.specs.Ranking.{IsAscending};

use crate::Entry;
use flow_keys::FlowKey;
use std::cmp::Ordering;

// The place of the key as `Ok`, or as `Err` the place before which it would be put in. The range of places that are
// left is halved at each step.
pub(crate) fn place_of(slots: &[Entry], order: &[u16], key: &FlowKey) -> Result<usize, usize>
    requires ascending { IsAscending (listed slots.now order.now) }
    requires below { All (λ slot. slot < length slots.now) order.now }
    ensures place { IsPlace (listed slots.now order.now) key.now result }
{
    let mut low = 0;
    let mut high = order.len();
    while low < high {
        let middle = low + (high - low) / 2;
        match slots[usize::from(order[middle])].key.cmp(key) {
            Ordering::Less => low = middle + 1,
            Ordering::Equal => return Ok(middle),
            Ordering::Greater => high = middle,
        }
    }
    Err(low)
}

// Where the slot's number stands in the order: where its key does.
pub(crate) fn place_of_slot(slots: &[Entry], order: &[u16], slot: usize) -> usize
    requires ascending { IsAscending (listed slots.now order.now) }
    requires order { IsOrder (length slots.now) order.now }
    requires within { slot < length slots.now }
    ensures within { result < length order.now }
    ensures value { slice_index_or order.now result 0 ≡ slot }
{
    match place_of(slots, order, &slots[slot].key) {
        Ok(place) => place,
        Err(place) => place,
    }
}
