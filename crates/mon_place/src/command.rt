//! The command `place`.
ghost use Rattle.std.specs.Prelude.{◌≡◌, ◌≤◌, ◌^◌, ◌<◌, ℕ, List, Option, false};
ghost use Rattle.mon_call.specs.Call.{Picks};
ghost use Rattle.mon_call.specs.CrewCall.{KeepsCrew, crew_call_of};
ghost use Rattle.mon_call.specs.Topology.{SpellTopology};
ghost use Rattle.mon_io.specs.Inputs.{InputState};
ghost use Rattle.mon_place.specs.Place.{PlaceAnswers, place_reads};
ghost use Rattle.solve_phase.specs.Solving.{IsSolving};

use crate::{report_outcome, stop_status};
use crew::Spawner;
use mon_call::{Phase, Status, read_topology};
use mon_io::{Inputs, Sink};
use solve_phase::{Solving, solve};
use std::alloc::Global;
use topology::Topology;

/// Reads a topology, has children search a placement of its paths, and writes the text of what they found. The crew
/// has no ticket out, also on every return, and has issued fewer than 2^31. It may wait for children.
pub fn place<I: Inputs, S: Spawner, K: Sink>(
    alloc: Global,
    topology: &str,
    solving: Solving,
    inputs: &mut I,
    crew: &mut S,
    sink: &mut K,
) -> Status
    requires solving { IsSolving solving }
    requires issued { (S.state crew.old).issued < 2 ^ 31 }
    requires none_out { (ticket : ℕ) → (S.state crew.old).is_out ticket ≡ false }
    ensures answers { let c = crew_call_of (I.state inputs.old) (I.state inputs.new) (S.state crew.old) (S.state crew.new)
        (K.state sink.old) (K.state sink.new) in
        PlaceAnswers (c.call.inputs.contents topology.now) solving c result }
    ensures picks { Picks (I.picks inputs.old) (I.picks inputs.new) (place_reads topology.now) result }
    ensures keeps { KeepsCrew (crew_call_of (I.state inputs.old) (I.state inputs.new) (S.state crew.old) (S.state crew.new)
        (K.state sink.old) (K.state sink.new)) }
{
    let network = match read_topology(alloc, topology, inputs) {
        Ok(network) => network,
        Err(status) => return status,
    };
    search(alloc, &network, solving, crew, sink)
}

// Has children search, and writes the text of what they found.
fn search<S: Spawner, K: Sink>(
    alloc: Global,
    network: &Topology,
    solving: Solving,
    crew: &mut S,
    sink: &mut K,
) -> Status
    requires solving { IsSolving solving }
    requires issued { (S.state crew.old).issued < 2 ^ 31 }
    requires none_out { (ticket : ℕ) → (S.state crew.old).is_out ticket ≡ false }
    ensures answers { (contents : Option (List ℕ)) (inputs later : InputState) → SpellTopology contents network.now →
        PlaceAnswers contents solving (crew_call_of inputs later (S.state crew.old) (S.state crew.new) (K.state sink.old)
        (K.state sink.new)) result }
    ensures later { (K.state sink.old).faults ≤ (K.state sink.new).faults }
{
    match solve(alloc, crew, network.problem(), solving) {
        Ok(found) => report_outcome(alloc, network, solving.nodes, &found, sink),
        Err(stop) => stop_status(Phase::Solve, stop),
    }
}
