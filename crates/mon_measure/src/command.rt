//! The command `measure`.
ghost use Rattle.std.specs.Prelude.{◌≡◌, ◌≤◌, ◌^◌, ◌<◌, ℕ, false};
ghost use Rattle.mon_call.specs.Call.{Picks};
ghost use Rattle.mon_call.specs.CrewCall.{KeepsCrew, crew_call_of};
ghost use Rattle.measure_answers.specs.Measure.{MeasureAnswers, measure_reads};
ghost use Rattle.mon_measure.specs.Measuring.{IsMeasuring};
ghost use Rattle.measure_answers.specs.Replayed.{contents_of};
ghost use Rattle.measure_report.specs.Run.{form_of};

use crate::Measuring;
use crate::searching::search;
use crew::Spawner;
use mon_call::{Status, read_topology};
use mon_io::{Inputs, Sink};
use mon_trace::read_trace;
use std::alloc::Global;

/// Reads a topology and a trace, has children search a placement of the topology's paths and sketch the shares of its
/// switches, and writes the report on the merged sketches; where no placement was found, the text of what was. The crew has
/// no ticket out, also on every return, and has issued fewer than 2^30. It may wait for children. It takes memory.
pub fn measure<I: Inputs, S: Spawner, K: Sink>(
    alloc: Global,
    topology: &str,
    trace: &str,
    measuring: &Measuring,
    inputs: &mut I,
    crew: &mut S,
    sink: &mut K,
) -> Status
    requires measuring { IsMeasuring measuring.now }
    requires issued { (S.state crew.old).issued < 2 ^ 30 }
    requires none_out { (ticket : ℕ) → (S.state crew.old).is_out ticket ≡ false }
    ensures answers { let c = crew_call_of (I.state inputs.old) (I.state inputs.new) (S.state crew.old) (S.state crew.new)
        (K.state sink.old) (K.state sink.new) in
        MeasureAnswers (form_of measuring.now.brief) (contents_of c.call.inputs topology.now trace.now)
        measuring.now.setting measuring.now.solving c result }
    ensures picks { Picks (I.picks inputs.old) (I.picks inputs.new) (measure_reads topology.now trace.now) result }
    ensures keeps { KeepsCrew (crew_call_of (I.state inputs.old) (I.state inputs.new) (S.state crew.old) (S.state crew.new)
        (K.state sink.old) (K.state sink.new)) }
{
    let network = match read_topology(alloc, topology, inputs) {
        Ok(network) => Some(network),
        Err(status) => return status,
    };
    let read = match read_trace(alloc, trace, &network, &measuring.setting.division, inputs) {
        Ok(read) => read,
        Err(status) => return status,
    };
    search(alloc, &network.unwrap(), read, measuring, crew, sink)
}
