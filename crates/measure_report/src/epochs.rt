//! The lines of the epochs.
ghost use Rattle.std.specs.Prelude.{◌≡◌, ◌<◌, ◌≤◌, ◌-◌, IfOk, length, string_bytes};
ghost use Rattle.std.specs.List.{flat_map, range_with_len};
ghost use Rattle.sketch_merge.specs.Merged.{View};
ghost use Rattle.change_report.specs.Form.{change_block, epoch_block};
ghost use Rattle.measure_report.specs.Report.{epoch_text};
ghost use Rattle.measure_report.specs.Run.{AreEpochs, IsEpoch, packets_in, view_in};

use crate::Run;
use change_report::{brief_change_text, brief_epoch_text, change_text};
use hash_family::Family;
use mon_io::Memory;
use sketch_merge::Merged;
use std::alloc::Global;

/// The lines of all epochs. The family is that of the sketches.
pub(crate) fn epochs_text(
    alloc: Global,
    run: &Run,
    family: &Family,
    epochs: &[Merged],
) -> Result<String, Memory>
    requires { AreEpochs run.now epochs.now }
    ensures text { IfOk result (λ text. (other : View) → string_bytes text
        ≡ flat_map (epoch_text run.now.form family.now run.now.heavy (packets_in run.now) (view_in epochs.now other))
        (range_with_len 0 run.now.counts.epochs)) }
{
    let mut text = String::new(alloc);
    for epoch in 0..run.epochs() {
        let lines = epoch_text(alloc, run, family, epoch, epochs)?;
        let Ok(()) = text.push_str(&lines) else {
            return Err(Memory);
        };
    }
    Ok(text)
}

// The lines of an epoch, and behind those of the first the lines of the change to it.
fn epoch_text(
    alloc: Global,
    run: &Run,
    family: &Family,
    epoch: u8,
    epochs: &[Merged],
) -> Result<String, Memory>
    requires epochs { AreEpochs run.now epochs.now }
    requires within { epoch < length epochs.now }
    requires few { epoch < 8 }
    ensures text { IfOk result (λ text. (other : View) → string_bytes text
        ≡ epoch_text run.now.form family.now run.now.heavy (packets_in run.now) (view_in epochs.now other) epoch) }
{
    let merged = &epochs[usize::from(epoch)];
    let block = block_text(alloc, run, family, epoch, merged)?;
    if epoch == 0 {
        return Ok(block);
    }
    let before = &epochs[usize::from(epoch - 1)];
    let change = change_lines(alloc, run, family, epoch, before, merged)?;
    match format!(in alloc; "{block}{change}") {
        Ok(text) => Ok(text),
        Err(_) => Err(Memory),
    }
}

// The lines of an epoch's packets and measures.
fn block_text(
    alloc: Global,
    run: &Run,
    family: &Family,
    epoch: u8,
    merged: &Merged,
) -> Result<String, Memory>
    requires { epoch < 8 }
    ensures text { IfOk result (λ text. string_bytes text
        ≡ epoch_block run.now.form family.now run.now.heavy epoch (packets_in run.now epoch) merged.now) }
{
    let packets = run.packets_in(epoch);
    if run.is_brief() {
        brief_epoch_text(alloc, family, epoch, packets, merged)
    } else {
        change_report::epoch_text(alloc, family, epoch, packets, merged, &[], run.heavy())
    }
}

// The lines of the change to an epoch from the one before.
fn change_lines(
    alloc: Global,
    run: &Run,
    family: &Family,
    epoch: u8,
    before: &Merged,
    after: &Merged,
) -> Result<String, Memory>
    requires epoch { 0 < epoch }
    requires before { IsEpoch run.now.setting before.now }
    requires after { IsEpoch run.now.setting after.now }
    ensures text { IfOk result (λ text. string_bytes text
        ≡ change_block run.now.form family.now run.now.heavy epoch before.now after.now) }
{
    if run.is_brief() {
        brief_change_text(alloc, family, epoch, before, after)
    } else {
        change_text(alloc, family, epoch, before, after, run.heavy())
    }
}
