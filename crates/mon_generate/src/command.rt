//! The command `generate`.
ghost use Rattle.std.specs.Prelude.{◌≡◌, ◌≤◌, IfOk};
ghost use Rattle.mon_call.specs.Call.{Answers, call_of};
ghost use Rattle.mon_generate.specs.Duty.{generate_duty, made};
ghost use Rattle.mon_io.specs.Inputs.{InputState};

use mon_call::{Status, finish_bytes};
use mon_io::{Memory, Sink};
use mon_words::Part;
use std::alloc::Global;
use trace_maker::{topology_bytes, trace_bytes};

/// Writes a trace of so many packets, 0 to 1,048,576, of so many flows, 1 to 65,536, that the seed draws, or the topology
/// that takes such packets. It reads nothing, and takes memory for all bytes at once.
pub fn generate<K: Sink>(
    alloc: Global,
    part: Part,
    seed: u64,
    packets: u32,
    flows: u32,
    sink: &mut K,
) -> Status
    requires packets { packets ≤ 1048576 }
    requires some { 1 ≤ flows }
    requires flows { flows ≤ 65536 }
    ensures answers { (inputs : InputState) → Answers (generate_duty part seed packets flows)
        (call_of inputs inputs (K.state sink.old) (K.state sink.new)) result }
    ensures later { (K.state sink.old).faults ≤ (K.state sink.new).faults }
{
    match bytes_of(alloc, part, seed, packets, flows) {
        Ok(bytes) => finish_bytes(sink, &bytes),
        Err(Memory) => Status::Memory,
    }
}

// The bytes of the made trace or topology.
fn bytes_of(
    alloc: Global,
    part: Part,
    seed: u64,
    packets: u32,
    flows: u32,
) -> Result<Vec<u8>, Memory>
    requires packets { packets ≤ 1048576 }
    requires some { 1 ≤ flows }
    requires flows { flows ≤ 65536 }
    ensures { IfOk result (λ bytes. bytes.items ≡ made part seed packets flows) }
{
    match part {
        Part::Trace => trace_bytes(alloc, seed, packets, flows),
        Part::Topology => topology_bytes(alloc),
    }
}
