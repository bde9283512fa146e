//! The command `drill`.
ghost use Rattle.std.specs.Prelude.{◌≡◌, ◌≤◌, ◌^◌, ◌<◌, ◌∷◌, [], ℕ, IfOk, Some, false, codes};
ghost use Rattle.mon_call.specs.CrewCall.{KeepsCrew, crew_call_of};
ghost use Rattle.mon_drill.specs.Drill.{Drills};
ghost use Rattle.mon_io.specs.Files.{contents_or_empty};
ghost use Rattle.mon_io.specs.Inputs.{InputState};
ghost use Rattle.mon_measure.specs.Measuring.{IsSketching};
ghost use Rattle.solve_phase.specs.Solving.{IsSolving};
ghost use Rattle.trace_maker.specs.Topology.{generated_topology};
ghost use Rattle.trace_maker.specs.Trace.{generated_trace};

use crew::Spawner;
use mon_call::{Setting, Status};
use mon_io::{Memory, NeverInputs, Sink};
use mon_measure::{Measuring, measure};
use solve_phase::Solving;
use std::alloc::{AllocError, Global};
use trace_maker::{topology_bytes, trace_bytes};

/// Measures a made trace of so many packets, 0 to 1,048,576, of so many flows, 1 to 65,536, that the seed of the sketches
/// draws, on the made topology, and writes the few lines of the report. It reads nothing. The crew has no ticket out, also
/// on every return, and has issued fewer than 2^30. It may wait for children. It takes memory.
pub fn drill<S: Spawner, K: Sink>(
    alloc: Global,
    packets: u32,
    flows: u32,
    setting: &Setting,
    solving: Solving,
    crew: &mut S,
    sink: &mut K,
) -> Status
    requires packets { packets ≤ 1048576 }
    requires some { 1 ≤ flows }
    requires flows { flows ≤ 65536 }
    requires sketching { IsSketching setting.now }
    requires solving { IsSolving solving }
    requires issued { (S.state crew.old).issued < 2 ^ 30 }
    requires none_out { (ticket : ℕ) → (S.state crew.old).is_out ticket ≡ false }
    ensures drills { Drills packets flows setting.now solving (S.state crew.old) (S.state crew.new) (K.state sink.old)
        (K.state sink.new) result }
    ensures keeps { (inputs : InputState) → KeepsCrew (crew_call_of inputs inputs (S.state crew.old) (S.state crew.new)
        (K.state sink.old) (K.state sink.new)) }
{
    let Ok(files) = made_files(alloc, setting.seed, packets, flows) else {
        return Status::Memory;
    };
    let mut inputs = NeverInputs::new(files);
    let measuring = Measuring {
        setting: *setting,
        solving,
        brief: true,
    };
    measure(
        alloc,
        "topology",
        "trace",
        &measuring,
        &mut inputs,
        crew,
        sink,
    )
}

// The made topology and the made trace, by name.
fn made_files(
    alloc: Global,
    seed: u64,
    packets: u32,
    flows: u32,
) -> Result<Vec<(String, Vec<u8>)>, Memory>
    requires packets { packets ≤ 1048576 }
    requires some { 1 ≤ flows }
    requires flows { flows ≤ 65536 }
    ensures topology { IfOk result (λ files. contents_or_empty files.items (codes "topology") ≡ Some generated_topology) }
    ensures trace { IfOk result (λ files.
        contents_or_empty files.items (codes "trace") ≡ Some (generated_trace seed packets flows)) }
{
    let topology = topology_bytes(alloc)?;
    let trace = trace_bytes(alloc, seed, packets, flows)?;
    match two_files(alloc, topology, trace) {
        Ok(files) => Ok(files),
        Err(_) => Err(Memory),
    }
}

// Two files, named for what they hold.
fn two_files(
    alloc: Global,
    topology: Vec<u8>,
    trace: Vec<u8>,
) -> Result<Vec<(String, Vec<u8>)>, AllocError>
    ensures topology { IfOk result (λ files. contents_or_empty files.items (codes "topology") ≡ Some topology.items) }
    ensures trace { IfOk result (λ files. contents_or_empty files.items (codes "trace") ≡ Some trace.items) }
{
    let mut files = Vec::new(alloc);
    files.push((String::from_str(alloc, "topology")?, topology))?;
    files.push((String::from_str(alloc, "trace")?, trace))?;
    Ok(files)
}
