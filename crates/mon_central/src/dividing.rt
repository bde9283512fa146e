//! What is gathered of the epochs.
ghost use Rattle.std.specs.Prelude.{◌≡◌, ◌<◌, ◌≤◌, ◌+◌, ◌++◌, [], ◌∷◌, List, max, OnOk, IsTrue, length};
ghost use Rattle.flow_keys.specs.declared.routed.Routed as packets;
ghost use Rattle.mon_call.specs.Setting.{is_setting};
ghost use Rattle.mon_central.specs.Sketched.{HasSpace, Splits};

use crate::gathering::Gathered;
use flow_keys::Routed;
use mon_call::Setting;
use mon_io::Memory;
use std::alloc::Global;

/// Makes epochs until there are so many.
#[inline]
pub(crate) fn reach(
    alloc: Global,
    setting: &Setting,
    sketches: &mut Vec<Gathered>,
    number: usize,
) -> Result<(), Memory>
    requires { IsTrue (is_setting setting.now) }
    ensures number { OnOk result (length sketches.new.items ≡ max (length sketches.old.items) number) }
    ensures splits { OnOk result ((routed : List packets.Routed) →
        Splits setting.now sketches.old.items routed → Splits setting.now sketches.new.items routed) }
{
    while sketches.len() < number {
        let gathered = Gathered::new(alloc, setting)?;
        let Ok(()) = sketches.push(gathered) else {
            return Err(Memory);
        };
    }
    Ok(())
}

/// Counts a packet in its epoch.
#[inline]
pub(crate) fn add_to(sketches: &mut [Gathered], packet: &Routed) -> Result<(), Memory>
    requires within { packet.now.epoch < length sketches.old }
    requires room { HasSpace sketches.old packet.now.weight }
    ensures number { length sketches.new ≡ length sketches.old }
    ensures splits { OnOk result ((setting : Setting) (routed : List packets.Routed) →
        Splits setting sketches.old routed → Splits setting sketches.new (routed ++ packet.now ∷ [])) }
{
    sketches[usize::from(packet.epoch)].add(packet)
}
