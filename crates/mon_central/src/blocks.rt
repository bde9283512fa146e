//! The lines of the epochs of a trace.
ghost use Rattle.std.specs.Prelude.{◌≡◌, ◌<◌, ◌==◌, ◌-◌, ◌++◌, [], List, IfOk, IfSome, length, string_bytes, if◌then◌else◌};
ghost use Rattle.count_sketch.specs.Counters.{Item};
ghost use Rattle.mon_central.specs.Central.{block_of, central_view, change_of, epochs_lines};
ghost use Rattle.flow_keys.specs.declared.routed.Routed.{Routed};
ghost use Rattle.mon_central.specs.Sketched.{AreSplit, Gathers, IsEarlier, IsGathered, IsMerged, IsSketch, Sketches, Splits};

use crate::gathering::{Gathered, settled};
use crate::sketching::Sketched;
use mon_call::Setting;
use mon_io::Memory;
use sketch_levels::Tally;
use sketch_merge::Merged;
use std::alloc::Global;

/// The lines of all epochs. Of each epoch the counted keys are given up once they are sketched.
pub(crate) fn epochs_text(
    alloc: Global,
    setting: &Setting,
    sketches: &mut [Gathered],
) -> Result<String, Memory>
    requires { AreSplit setting.now sketches.old }
    ensures text { IfOk result (λ text. (routed : List Routed) →
        Splits setting.now sketches.old routed
        → string_bytes text ≡ epochs_lines setting.now routed (length sketches.old)) }
{
    let mut text = String::new(alloc);
    let mut before = None;
    for epoch in 0..sketches.len() {
        let made = made_of(alloc, setting, &mut sketches[epoch], epoch as u8, &before)?;
        let Ok(()) = text.push_str(&made.lines) else {
            return Err(Memory);
        };
        before = Some(made.merged);
    }
    Ok(text)
}

// The lines of an epoch, and its merged sketch.
#[derive(Drop)]
struct Made {
    lines: String,
    merged: Merged,
}

// The lines and the merged sketch of what was gathered. Counted keys are given up once they are sketched, so that they
// and the keys of the merged sketch do not take memory together.
fn made_of(
    alloc: Global,
    setting: &Setting,
    gathered: &mut Gathered,
    epoch: u8,
    before: &Option<Merged>,
) -> Result<Made, Memory>
    requires gathered { IsGathered setting.now gathered.old }
    requires before { IfSome before.now (λ view. (0 < epoch) × IsMerged setting.now view) }
    ensures text { IfOk result (λ made. (earlier items : List Item) →
        Gathers setting.now gathered.old items → IsEarlier setting.now epoch earlier before.now →
        string_bytes made.lines ≡ block_of setting.now epoch items
        ++ (if epoch == 0 then [] else change_of setting.now epoch earlier items)) }
    ensures view { IfOk result (λ made. (items : List Item) →
        Gathers setting.now gathered.old items → made.merged ≡ central_view setting.now items) }
    ensures merged { IfOk result (λ made. IsMerged setting.now made.merged) }
{
    match gathered {
        Gathered::Tallied(tally) => {
            let sketched = settled(alloc, setting, tally)?;
            *tally = Tally::new(alloc);
            made_from(alloc, setting, &sketched, epoch, before)
        }
        Gathered::Fed(sketched) => made_from(alloc, setting, sketched, epoch, before),
    }
}

// The lines and the merged sketch of what was sketched.
fn made_from(
    alloc: Global,
    setting: &Setting,
    sketched: &Sketched,
    epoch: u8,
    before: &Option<Merged>,
) -> Result<Made, Memory>
    requires sketch { IsSketch setting.now sketched.now }
    requires before { IfSome before.now (λ view. (0 < epoch) × IsMerged setting.now view) }
    ensures text { IfOk result (λ made. (earlier items : List Item) →
        Sketches setting.now sketched.now items → IsEarlier setting.now epoch earlier before.now →
        string_bytes made.lines ≡ block_of setting.now epoch items
        ++ (if epoch == 0 then [] else change_of setting.now epoch earlier items)) }
    ensures view { IfOk result (λ made. (items : List Item) →
        Sketches setting.now sketched.now items → made.merged ≡ central_view setting.now items) }
    ensures merged { IfOk result (λ made. IsMerged setting.now made.merged) }
{
    let merged = sketched.merged(alloc, setting)?;
    let lines = epoch_text(alloc, setting, sketched, epoch, before, &merged)?;
    Ok(Made { lines, merged })
}

// The lines of an epoch, and behind those of the first the lines of the change to it.
fn epoch_text(
    alloc: Global,
    setting: &Setting,
    sketched: &Sketched,
    epoch: u8,
    before: &Option<Merged>,
    merged: &Merged,
) -> Result<String, Memory>
    requires sketch { IsSketch setting.now sketched.now }
    requires merged { IsMerged setting.now merged.now }
    requires before { IfSome before.now (λ view. (0 < epoch) × IsMerged setting.now view) }
    ensures text { IfOk result (λ text. (earlier items : List Item) →
        Sketches setting.now sketched.now items → merged.now ≡ central_view setting.now items →
        IsEarlier setting.now epoch earlier before.now →
        string_bytes text ≡ block_of setting.now epoch items
        ++ (if epoch == 0 then [] else change_of setting.now epoch earlier items)) }
{
    let block = sketched.block(alloc, setting, epoch, merged)?;
    let Some(before) = before else {
        return Ok(block);
    };
    let change = sketched.change(alloc, setting, epoch, before, merged)?;
    match format!(in alloc; "{block}{change}") {
        Ok(text) => Ok(text),
        Err(_) => Err(Memory),
    }
}
