//! What is known of many keys.
ghost use Rattle.std.specs.Prelude.{◌≡◌, ℕ, ◌<◌, IfOk, IfSome};
ghost use Rattle.hash_family.specs.Setting.{Setting, setting_of};
ghost use Rattle.spot_table.specs.Known.{IsKnown};
ghost use Rattle.spot_table.specs.Table.{IsSlot, AreSlots};

use crate::Known;
use crate::slot::Slot;
use flow_keys::FlowKey;
use hash_family::{Family, Params};
use mon_io::Memory;
use std::alloc::Global;
use std::marker::Model;

// So many keys have a slot.
const SLOTS: usize = 4096;

/// What was found of 4,096 keys at most, each in the one slot that its words choose.
#[derive(Drop)]
pub struct SpotTable {
    params: Params,
    slots: Vec<Option<Slot>>,
}

impl Model for SpotTable {
    ghost use Rattle.hash_family.specs.Setting.{Setting, setting_of};
    ghost use Rattle.spot_table.specs.Table.{AreSlots};

    ghost Value = { Setting };

    ghost view = { λ table. setting_of table.params };

    ghost invariant = { λ table. AreSlots (setting_of table.params) table.slots.items };
}

impl SpotTable {
    /// A table in which no key is known. It takes the memory of all slots, and no other call takes memory.
    pub fn new(alloc: Global, params: &Params) -> Result<SpotTable, Memory>
        ensures setting { IfOk result (λ table. table ≡ setting_of params.now) }
    {
        let slots = empty_slots(alloc)?;
        Ok(SpotTable {
            params: *params,
            slots,
        })
    }

    /// What is known of the key, found from the family's hash functions where the table doesn't know it yet.
    pub fn known(&mut self, family: &Family, key: &FlowKey) -> Known
        requires family { family.now ≡ self.old.seed }
        ensures same { self.new ≡ self.old }
        ensures known { IsKnown self.old key.now result }
    {
        let place = slot_of(key);
        if let Some(known) = known_in(&self.slots[place], key) {
            return known;
        }
        let known = Known::of(&self.params, family, key);
        self.slots[place] = Some(Slot { key: *key, known });
        known
    }
}

// All slots, each without a key.
fn empty_slots(alloc: Global) -> Result<Vec<Option<Slot>>, Memory>
    ensures { IfOk result (λ slots. (setting : Setting) → AreSlots setting slots.items) }
{
    match vec![in alloc; None; SLOTS] {
        Ok(slots) => Ok(slots),
        Err(_) => Err(Memory),
    }
}

// What a slot knows of the key: nothing, where it holds no key or another one.
#[inline]
fn known_in(slot: &Option<Slot>, key: &FlowKey) -> Option<Known>
    ensures known { (setting : Setting) → IsSlot setting slot.now → IfSome result (λ known. IsKnown setting key.now known) }
{
    match slot {
        Some(held) if held.key == *key => Some(held.known),
        _ => None,
    }
}

// The number of the key's slot. Both products bring all bits of the key's words to the upper twelve.
#[inline]
fn slot_of(key: &FlowKey) -> usize
    ensures { result < 4096 }
{
    let [_, a, b, c, d, e, f, g, h, ports, protocol] = key.words();
    let source = u64::from(a ^ b ^ c ^ d);
    let destination = u64::from(e ^ f ^ g ^ h);
    let addresses = (source << 32 | destination).wrapping_mul(0x9e37_79b9_7f4a_7c15);
    let rest = u64::from(ports) << 32 | u64::from(protocol);
    ((addresses ^ rest).wrapping_mul(0xd6e8_feb8_6659_fd93) >> 52) as usize
}
