//! The lines of an epoch.
ghost use Rattle.std.specs.Prelude.{◌≡◌, ◌≤◌, ◌++◌, ℕ, ℤ, IfOk, string_bytes};
ghost use Rattle.recursive_sum.specs.Sum.{recursive_sum};
ghost use Rattle.recursive_sum.specs.declared.measure.G.TheVariants.{One, Value};
ghost use Rattle.change_report.specs.Block.{block_text, cardinality_line, epoch_line, heavy_line, heavy_lines};
ghost use Rattle.change_report.specs.Block.{level_line, level_lines, total_line};
ghost use Rattle.change_report.specs.Form.{Brief, epoch_block};

use crate::LevelCount;
use flow_keys::{FlowKey, key_text};
use hash_family::Family;
use mon_io::Memory;
use recursive_sum::totals;
use sketch_merge::Merged;
use std::alloc::{AllocError, Global};

/// The lines of an epoch of this number and with so many packets: a line of each level from 0 on, the number of keys
/// and the weight by the recursive sum, and each key of at least `per_mille` (0 to 1,000) thousandths of the weight.
/// The family is that of the sketches. It takes memory for the text and for the keys of level 0.
pub fn epoch_text(
    alloc: Global,
    family: &Family,
    epoch: u8,
    packets: u32,
    merged: &Merged,
    levels: &[LevelCount],
    per_mille: u32,
) -> Result<String, Memory>
    requires { per_mille ≤ 1000 }
    ensures text { IfOk result (λ text.
        string_bytes text ≡ block_text family.now epoch packets merged.now levels.now per_mille) }
{
    let keys = recursive_sum::heavy(alloc, family, merged, per_mille)?;
    match block(alloc, family, epoch, packets, merged, levels, &keys) {
        Ok(text) => Ok(text),
        Err(_) => Err(Memory),
    }
}

/// The few lines of an epoch of this number and with so many packets: those of `epoch_text` without its levels and its
/// heavy keys. The family is that of the sketches. It takes memory for the text.
#[tactic(auto, unfolding(crate::specs::Form::epoch_block))]
pub fn brief_epoch_text(
    alloc: Global,
    family: &Family,
    epoch: u8,
    packets: u32,
    merged: &Merged,
) -> Result<String, Memory>
    ensures text { IfOk result (λ text. (heavy : ℕ) →
        string_bytes text ≡ epoch_block Brief family.now heavy epoch packets merged.now) }
{
    match brief_block(alloc, family, epoch, packets, merged) {
        Ok(text) => Ok(text),
        Err(_) => Err(Memory),
    }
}

// The lines of an epoch with these heavy keys.
fn block(
    alloc: Global,
    family: &Family,
    epoch: u8,
    packets: u32,
    merged: &Merged,
    levels: &[LevelCount],
    keys: &[(FlowKey, i128)],
) -> Result<String, AllocError>
    ensures text { IfOk result (λ text. string_bytes text
        ≡ epoch_line epoch packets merged.now ++ (level_lines 0 levels.now
        ++ (cardinality_line (recursive_sum family.now One merged.now)
        ++ (total_line (recursive_sum family.now Value merged.now) ++ heavy_lines keys.now)))) }
{
    let head = head_text(alloc, epoch, packets, merged)?;
    let levels = levels_text(alloc, levels)?;
    let measures = measures_text(alloc, family, merged)?;
    let keys = keys_text(alloc, keys)?;
    format!(in alloc; "{head}{levels}{measures}{keys}")
}

// The lines of an epoch that name no level and no key.
fn brief_block(
    alloc: Global,
    family: &Family,
    epoch: u8,
    packets: u32,
    merged: &Merged,
) -> Result<String, AllocError>
    ensures text { IfOk result (λ text. string_bytes text
        ≡ epoch_line epoch packets merged.now ++ (cardinality_line (recursive_sum family.now One merged.now)
        ++ total_line (recursive_sum family.now Value merged.now))) }
{
    let head = head_text(alloc, epoch, packets, merged)?;
    let measures = measures_text(alloc, family, merged)?;
    format!(in alloc; "{head}{measures}")
}

#[tactic(auto, unfolding(crate::specs::Block::epoch_line, crate::specs::Block::mark_text))]
fn head_text(alloc: Global, epoch: u8, packets: u32, merged: &Merged) -> Result<String, AllocError>
    ensures { IfOk result (λ text. string_bytes text ≡ epoch_line epoch packets merged.now) }
{
    let weight = merged.weight();
    if merged.dropped() {
        format!(in alloc; "epoch {epoch} packets {packets} weight {weight} heaps dropped\n")
    } else {
        format!(in alloc; "epoch {epoch} packets {packets} weight {weight} heaps kept\n")
    }
}

// The lines of the levels, from 0 on.
#[tactic(auto, unfolding(crate::specs::Block::level_lines))]
fn levels_text(alloc: Global, counts: &[LevelCount]) -> Result<String, AllocError>
    ensures { IfOk result (λ text. string_bytes text ≡ level_lines 0 counts.now) }
{
    let mut text = String::new(alloc);
    for (level, count) in counts.iter().enumerate() {
        let line = level_text(alloc, level, count)?;
        text.push_str(&line)?;
    }
    Ok(text)
}

#[tactic(auto, unfolding(crate::specs::Block::level_line))]
fn level_text(alloc: Global, level: usize, count: &LevelCount) -> Result<String, AllocError>
    ensures { IfOk result (λ text. string_bytes text ≡ level_line level count.now) }
{
    let (packets, weight) = (count.packets, count.weight);
    let (keys, nonzero) = (count.keys, count.nonzero);
    format!(in alloc;
        "level {level} packets {packets} weight {weight} keys {keys} nonzero {nonzero}\n"
    )
}

// The lines of the number of keys and of the weight, by the recursive sum.
fn measures_text(alloc: Global, family: &Family, merged: &Merged) -> Result<String, AllocError>
    ensures text { IfOk result (λ text. string_bytes text
        ≡ cardinality_line (recursive_sum family.now One merged.now)
        ++ total_line (recursive_sum family.now Value merged.now)) }
{
    let totals = totals(family, merged);
    let cardinality = cardinality_text(alloc, totals.cardinality)?;
    let total = total_text(alloc, totals.weight)?;
    format!(in alloc; "{cardinality}{total}")
}

#[tactic(auto, unfolding(crate::specs::Block::cardinality_line))]
fn cardinality_text(alloc: Global, sum: i128) -> Result<String, AllocError>
    ensures { IfOk result (λ text. string_bytes text ≡ cardinality_line sum) }
{
    format!(in alloc; "cardinality {sum}\n")
}

#[tactic(auto, unfolding(crate::specs::Block::total_line))]
fn total_text(alloc: Global, sum: i128) -> Result<String, AllocError>
    ensures { IfOk result (λ text. string_bytes text ≡ total_line sum) }
{
    format!(in alloc; "total {sum}\n")
}

// The lines of the heavy keys, in their order.
fn keys_text(alloc: Global, keys: &[(FlowKey, i128)]) -> Result<String, AllocError>
    ensures { IfOk result (λ text. string_bytes text ≡ heavy_lines keys.now) }
{
    let mut text = String::new(alloc);
    for pair in keys {
        let line = key_line(alloc, &pair.0, pair.1)?;
        text.push_str(&line)?;
    }
    Ok(text)
}

#[tactic(auto, unfolding(crate::specs::Block::heavy_line))]
fn key_line(alloc: Global, key: &FlowKey, weight: i128) -> Result<String, AllocError>
    ensures { IfOk result (λ text. string_bytes text ≡ heavy_line (key.now, weight)) }
{
    let text = key_text(key);
    let key = text.as_str();
    format!(in alloc; "heavy {key} weight {weight}\n")
}
