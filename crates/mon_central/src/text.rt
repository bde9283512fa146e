//! The text of `central`, but for the lines of its epochs.
ghost use Rattle.std.specs.Prelude.{◌≡◌, ◌++◌, codes, IfOk, string_bytes};
ghost use Rattle.change_report.specs.Head.{counts_line, setting_in, sketch_line};
ghost use Rattle.mon_central.specs.Central.{line_setting, lines_of};

use change_report::{SketchNumbers, counts_text, sketch_text};
use mon_call::Setting;
use mon_io::Memory;
use routed_trace::TraceCounts;
use std::alloc::Global;

/// The text of the numbers of packets, of those that have a key and of those that have a path, and of the lines of
/// the epochs.
#[tactic(auto, unfolding(crate::specs::Central::lines_of))]
pub(crate) fn text_of(
    alloc: Global,
    setting: &Setting,
    counts: &TraceCounts,
    epochs: &str,
) -> Result<String, Memory>
    ensures text { IfOk result (λ text. string_bytes text ≡ lines_of setting.now counts.now.packets counts.now.keyed counts.now.routed epochs.now) }
{
    let counts = counts_text(alloc, counts.packets, counts.keyed, counts.routed)?;
    let sketch = sketch_text(alloc, numbers_of(setting), setting.division.bytes)?;
    match format!(in alloc; "univmon central 1\n{counts}{sketch}{epochs}end\n") {
        Ok(text) => Ok(text),
        Err(_) => Err(Memory),
    }
}

// The numbers of the sketch.
fn numbers_of(setting: &Setting) -> SketchNumbers
    ensures value { setting_in result ≡ line_setting setting.now }
{
    SketchNumbers {
        seed: setting.seed,
        levels: setting.levels,
        rows: setting.rows,
        width: setting.width,
        heap: setting.heap,
    }
}
