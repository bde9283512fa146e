//! The phase in which children search a placement.
ghost use Rattle.std.specs.Prelude.{◌≡◌, ◌≤◌, ◌^◌, ◌<◌, ℕ, Some, None, IsTrue, false};
ghost use Rattle.measure_report.specs.Run.{form_of};
ghost use Rattle.mon_call.specs.CrewCall.{crew_call_of};
ghost use Rattle.mon_call.specs.Topology.{SpellTopology};
ghost use Rattle.mon_io.specs.Inputs.{InputState};
ghost use Rattle.measure_answers.specs.Measure.{MeasureAnswers};
ghost use Rattle.mon_measure.specs.Measuring.{IsMeasuring};
ghost use Rattle.measure_answers.specs.Replayed.{Contents};
ghost use Rattle.measure_answers.specs.Reported.{IsLate};
ghost use Rattle.mon_trace.specs.Reading.{IsRead};
ghost use Rattle.topology.specs.Accepted.{IsAccepted};

use crate::Measuring;
use crate::replaying::report_shares;
use bound_certificate::Outcome;
use crew::Spawner;
use mon_call::{Phase, Status};
use mon_io::Sink;
use mon_place::{report_outcome, stop_status};
use mon_trace::RoutedTrace;
use solve_phase::solve;
use std::alloc::Global;
use topology::Topology;

/// Has children search a placement, and where they find one sketch the shares of the switches; writes what was found.
pub(crate) fn search<S: Spawner, K: Sink>(
    alloc: Global,
    network: &Topology,
    read: RoutedTrace,
    measuring: &Measuring,
    crew: &mut S,
    sink: &mut K,
) -> Status
    requires measuring { IsMeasuring measuring.now }
    requires accepted { IsAccepted network.now }
    requires read { IsRead None (Some network.now) measuring.now.setting.division read }
    requires issued { (S.state crew.old).issued < 2 ^ 30 }
    requires none_out { (ticket : ℕ) → (S.state crew.old).is_out ticket ≡ false }
    ensures answers { (contents : Contents) (inputs later : InputState) → SpellTopology contents.topology network.now →
        IsRead contents.trace (Some network.now) measuring.now.setting.division read →
        MeasureAnswers (form_of measuring.now.brief) contents measuring.now.setting measuring.now.solving
        (crew_call_of inputs later (S.state crew.old) (S.state crew.new) (K.state sink.old) (K.state sink.new)) result }
    ensures late { IsLate result }
    ensures later { (K.state sink.old).faults ≤ (K.state sink.new).faults }
{
    let solving = measuring.solving;
    let found = match solve(alloc, crew, network.problem(), solving) {
        Ok(found) => found,
        Err(stop) => return stop_status(Phase::Solve, stop),
    };
    let Outcome::Placed { placement, .. } = &found.outcome else {
        return report_outcome(alloc, network, solving.nodes, &found, sink);
    };
    let bound = found.verdict.bound.unwrap();
    report_shares(
        alloc, network, placement, bound, read, measuring, crew, sink,
    )
}
