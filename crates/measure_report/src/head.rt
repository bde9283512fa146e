//! The lines ahead of those of the epochs.
ghost use Rattle.std.specs.Prelude.{◌≡◌, ◌++◌, IfOk, string_bytes};
ghost use Rattle.bound_certificate.specs.Placement.{cost};
ghost use Rattle.change_report.specs.Head.{counts_line, sketch_line};
ghost use Rattle.measure_report.specs.Report.{placed_lines, placement_line, title};
ghost use Rattle.measure_report.specs.Run.{form_of};

use crate::Run;
use crate::placement::{placed_text, placement_text};
use change_report::{counts_text, sketch_text};
use mon_io::Memory;
use std::alloc::Global;

/// The lines ahead of those of the epochs: the title, the packets, the numbers of the sketch, the placement's cost and
/// the bound, and where each path is placed.
pub(crate) fn head_text(alloc: Global, run: &Run) -> Result<String, Memory>
    ensures text { IfOk result (λ text. string_bytes text
        ≡ title run.now.form ++ (counts_line run.now.counts.packets run.now.counts.keyed run.now.counts.routed
        ++ (sketch_line run.now.setting run.now.counts.bytes
        ++ (placement_line (cost run.now.topo.problem run.now.placement) run.now.bound
        ++ placed_lines run.now.form run.now.topo run.now.placement)))) }
{
    let title = title_of(run.is_brief());
    let numbers = numbers_text(alloc, run)?;
    let placement = placement_text(alloc, run)?;
    let placed = placed_text(alloc, run)?;
    match format!(in alloc; "{title}{numbers}{placement}{placed}") {
        Ok(text) => Ok(text),
        Err(_) => Err(Memory),
    }
}

fn title_of(brief: bool) -> &'static str
    ensures { result.now ≡ title (form_of brief) }
{
    if brief {
        "univmon drill 1\n"
    } else {
        "univmon measure 1\n"
    }
}

// The lines of the packets and of the numbers of the sketch.
fn numbers_text(alloc: Global, run: &Run) -> Result<String, Memory>
    ensures text { IfOk result (λ text. string_bytes text
        ≡ counts_line run.now.counts.packets run.now.counts.keyed run.now.counts.routed
        ++ sketch_line run.now.setting run.now.counts.bytes) }
{
    let counts = run.counts();
    let packets = counts_text(alloc, counts.packets, counts.keyed, counts.routed)?;
    let sketch = sketch_text(alloc, run.numbers(), counts.bytes)?;
    match format!(in alloc; "{packets}{sketch}") {
        Ok(text) => Ok(text),
        Err(_) => Err(Memory),
    }
}
