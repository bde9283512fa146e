//! The packets of an epoch as they are read.
ghost use Rattle.std.specs.Prelude.{◌≡◌, ◌≤◌, ◌^◌, ◌==◌, ◌++◌, [], ◌∷◌, true, List, IfOk, OnOk, IsTrue};
ghost use Rattle.count_sketch.specs.Counters.{Item};
ghost use Rattle.sketch_levels.specs.Items.{weight_of};
ghost use Rattle.sketch_levels.specs.Stands.{packets_of, weights_of};
ghost use Rattle.mon_call.specs.Setting.{is_setting};
ghost use Rattle.routed_trace.specs.Routed.{item_of};
ghost use Rattle.mon_central.specs.Sketched.{IsFed};

use crate::sketching::Sketched;
use flow_keys::Routed;
use mon_call::Setting;
use mon_io::Memory;
use sketch_levels::Tally;
use std::alloc::Global;

/// Where all live keys are kept, packets are counted key by key, and each key is hashed once, when they are sketched.
/// Where heaps keep some, what they keep is by the order of packets, and each packet is sketched at once.
#[derive(Drop)]
pub(crate) enum Gathered {
    Tallied(Tally),
    Fed(Sketched),
}

impl Gathered {
    ghost use Rattle.mon_central.specs.Sketched.{Gathers, HasPlace};

    /// Nothing yet.
    pub(crate) fn new(alloc: Global, setting: &Setting) -> Result<Gathered, Memory>
        requires { IsTrue (is_setting setting.now) }
        ensures { IfOk result (λ gathered. Gathers setting.now gathered []) }
    {
        if setting.heap == 0 {
            return Ok(Gathered::Tallied(Tally::new(alloc)));
        }
        let sketched = Sketched::new(alloc, setting)?;
        Ok(Gathered::Fed(sketched))
    }

    /// Counts a packet.
    #[inline]
    pub(crate) fn add(&mut self, packet: &Routed) -> Result<(), Memory>
        requires { HasPlace self.old packet.now.weight }
        ensures { OnOk result ((setting : Setting) (items : List Item) →
            Gathers setting self.old items → Gathers setting self.new (items ++ item_of packet.now ∷ [])) }
    {
        match self {
            Gathered::Tallied(tally) => tally.add(&packet.key, packet.weight),
            Gathered::Fed(sketched) => sketched.feed(&packet.key, 1, u64::from(packet.weight)),
        }
    }
}

/// The sketch of counted keys, each of them fed once with the number of its packets and their weight.
pub(crate) fn settled(alloc: Global, setting: &Setting, tally: &Tally) -> Result<Sketched, Memory>
    requires range { IsTrue (is_setting setting.now) }
    requires few { weight_of (packets_of tally.now) ≤ 1048576 }
    requires light { weight_of (weights_of tally.now) ≤ 2 ^ 44 }
    ensures { IfOk result (λ sketched. IsFed setting.now sketched (weights_of tally.now) (packets_of tally.now)) }
{
    let mut sketched = Sketched::new(alloc, setting)?;
    for index in 0..tally.len() {
        let (key, total) = tally.entry(index);
        sketched.feed(&key, total.packets, total.weight)?;
    }
    Ok(sketched)
}
