//! What was found, as it is told.
ghost use Rattle.std.specs.Prelude.{◌≡◌, ◌≤◌};
ghost use Rattle.mon_place.specs.Place.{Reports, status_of};
ghost use Rattle.outcome_report.specs.Outcome.{FitsWherePlaced, outcome_text};

use bound_certificate::Outcome;
use mon_call::{Status, finish};
use mon_io::Sink;
use outcome_report::outcome_text;
use solve_phase::Found;
use std::alloc::Global;
use topology::Topology;

/// Writes the text of what a search with so many nodes found: `Done`, `Infeasible` or `SearchBudget` where the whole text
/// was written, `SinkFault` where only a prefix was, and `Memory`. A placement that was found fits. It takes memory for
/// the text.
pub fn report_outcome<K: Sink>(
    alloc: Global,
    network: &Topology,
    nodes: u32,
    found: &Found,
    sink: &mut K,
) -> Status
    requires fits { FitsWherePlaced network.now.problem found.now.outcome }
    ensures reports { Reports (outcome_text network.now nodes found.now.outcome found.now.verdict)
        (status_of nodes found.now.outcome) (K.state sink.old) (K.state sink.new) result }
    ensures later { (K.state sink.old).faults ≤ (K.state sink.new).faults }
{
    let Ok(text) = outcome_text(alloc, network, nodes, &found.outcome, found.verdict) else {
        return Status::Memory;
    };
    match finish(sink, text.as_str()) {
        Status::Done => outcome_status(nodes, &found.outcome),
        _ => Status::SinkFault,
    }
}

// The status of a search that found this outcome.
fn outcome_status(nodes: u32, outcome: &Outcome) -> Status
    ensures value { result ≡ status_of nodes outcome.now }
{
    match outcome {
        Outcome::Placed { .. } => Status::Done,
        Outcome::Infeasible { .. } => Status::Infeasible,
        Outcome::Spent { .. } => Status::SearchBudget { nodes },
    }
}
