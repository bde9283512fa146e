//! A topology from a file.
ghost use Rattle.std.specs.Prelude.{◌≡◌, ◌≤◌, [], ◌∷◌, IfOk};
ghost use Rattle.mon_io.specs.Inputs.{Picked};
ghost use Rattle.mon_call.specs.Topology.{ReadsTopology};
ghost use Rattle.topology.specs.Accepted.{IsAccepted};

use crate::{Input, Status};
use mon_io::{Inputs, ReadStop, read_all};
use std::alloc::Global;
use topology::{Topology, TopologyFault};

// A file of a topology has at most so many bytes.
const LIMIT: usize = 1_048_576;

/// The topology that the named input spells, else the status with which the call ends: `ReadFault(Topology)` where it
/// can't be picked or read, `Topology` with its first fault, or `Memory`.
pub fn read_topology<I: Inputs>(
    alloc: Global,
    name: &str,
    inputs: &mut I,
) -> Result<Topology, Status>
    ensures reads { ReadsTopology ((I.state inputs.old).contents name.now) (I.state inputs.old) (I.state inputs.new) result }
    ensures accepted { IfOk result IsAccepted }
    ensures picks { Picked (I.picks inputs.old) (I.picks inputs.new) (name.now ∷ []) }
    ensures stays { (I.state inputs.new).contents ≡ (I.state inputs.old).contents }
    ensures later { (I.state inputs.old).faults ≤ (I.state inputs.new).faults }
{
    let bytes = match read_all(alloc, inputs, name, LIMIT) {
        Ok(bytes) => bytes,
        Err(ReadStop::Fault) => return Err(Status::ReadFault(Input::Topology)),
        Err(ReadStop::TooLong) => return Err(Status::Topology(TopologyFault::TooLong)),
        Err(ReadStop::Memory) => return Err(Status::Memory),
    };
    match Topology::from_toml(alloc, &bytes) {
        Ok(topology) => Ok(topology),
        Err(TopologyFault::Memory) => Err(Status::Memory),
        Err(fault) => Err(Status::Topology(fault)),
    }
}
