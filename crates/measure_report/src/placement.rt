//! The lines of the placement.
ghost use Rattle.std.specs.Prelude.{◌≡◌, IfOk, string_bytes};
ghost use Rattle.bound_certificate.specs.Placement.{cost};
ghost use Rattle.measure_report.specs.Report.{placed_lines, placement_line, standing_word};

use crate::Run;
use mon_io::Memory;
use outcome_report::placement_lines;
use std::alloc::{AllocError, Global};

/// The line of the placement's cost and of the bound.
pub(crate) fn placement_text(alloc: Global, run: &Run) -> Result<String, Memory>
    ensures text { IfOk result (λ text.
        string_bytes text ≡ placement_line (cost run.now.topo.problem run.now.placement) run.now.bound) }
{
    match line(alloc, run.cost(), run.bound()) {
        Ok(text) => Ok(text),
        Err(_) => Err(Memory),
    }
}

#[tactic(auto, unfolding(crate::specs::Report::placement_line))]
fn line(alloc: Global, cost: u64, bound: i128) -> Result<String, AllocError>
    ensures { IfOk result (λ text. string_bytes text ≡ placement_line cost bound) }
{
    let standing = standing_word(cost, bound);
    format!(in alloc; "placement {standing} cost {cost} bound {bound}\n")
}

// Whether the cost is known to be the least.
fn standing_word(cost: u64, bound: i128) -> &'static str
    ensures { result.now ≡ standing_word cost bound }
{
    if bound == i128::from(cost) {
        "optimal"
    } else {
        "unfinished"
    }
}

/// The lines of the paths and of the switches, and nothing where the few lines are written.
#[tactic(auto, unfolding(crate::specs::Report::placed_lines))]
pub(crate) fn placed_text(alloc: Global, run: &Run) -> Result<String, Memory>
    ensures text { IfOk result (λ text. string_bytes text ≡ placed_lines run.now.form run.now.topo run.now.placement) }
{
    if run.is_brief() {
        Ok(String::new(alloc))
    } else {
        placement_lines(alloc, run.topology(), run.placement())
    }
}
