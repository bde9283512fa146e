//! The whole text.
ghost use Rattle.std.specs.Prelude.{◌≡◌, ◌^◌, All, IfOk, length, string_bytes};
ghost use Rattle.count_sketch.specs.Counters.{AllUpTo};
ghost use Rattle.sketch_merge.specs.Merged.{HaveUpTo, View};
ghost use Rattle.change_report.specs.Change.{key_limit};
ghost use Rattle.measure_report.specs.Run.{run_text, view_in};

use crate::Run;
use crate::epochs::epochs_text;
use crate::head::head_text;
use hash_family::Family;
use mon_io::Memory;
use sketch_merge::Merged;
use std::alloc::Global;

/// The text of a run with the merged sketches of its epochs, in their order: as many as the run has epochs, of its
/// numbers, with no absolute counter above 2^44 and at most 1,048,576 keys a level. It takes memory for the text, for
/// the coefficients of the hash functions, and for the heavy keys and the differences of epochs.
#[tactic(auto, unfolding(crate::specs::Report::report_text))]
pub fn write_report(alloc: Global, run: &Run, epochs: &[Merged]) -> Result<String, Memory>
    requires number { length epochs.now ≡ run.now.counts.epochs }
    requires setting { All (λ merged. merged.setting ≡ run.now.setting) epochs.now }
    requires small { All (λ merged. All (AllUpTo (2 ^ 44)) merged.counters) epochs.now }
    requires few { All (λ merged. HaveUpTo key_limit merged.keys) epochs.now }
    ensures text { IfOk result (λ text. (other : View) →
        string_bytes text ≡ run_text run.now (view_in epochs.now other)) }
{
    let head = head_text(alloc, run)?;
    let family = Family::new(alloc, run.seed())?;
    let blocks = epochs_text(alloc, run, &family, epochs)?;
    match format!(in alloc; "{head}{blocks}end\n") {
        Ok(text) => Ok(text),
        Err(_) => Err(Memory),
    }
}
