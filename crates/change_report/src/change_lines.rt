//! The lines of a change.
ghost use Rattle.std.specs.Prelude.{◌≡◌, ◌≤◌, ◌<◌, ◌^◌, ◌++◌, ℕ, ℤ, All, IfOk, string_bytes};
ghost use Rattle.count_sketch.specs.Counters.{AllUpTo};
ghost use Rattle.sketch_merge.specs.Merged.{HaveUpTo};
ghost use Rattle.change_report.specs.Change.{change_line, change_lines, changed_line, changed_lines, key_limit};
ghost use Rattle.change_report.specs.Form.{Brief, change_block};

use crate::changes::change;
use flow_keys::{FlowKey, key_text};
use hash_family::Family;
use mon_io::Memory;
use recursive_sum::{G, g_sum};
use sketch_merge::Merged;
use std::alloc::{AllocError, Global};

/// The lines of the change to the epoch of this number, which is above 0, from the one before: the sum of the changes,
/// and each changed key, as `change` gives them. It takes memory for the text and for what `change` takes it for.
pub fn change_text(
    alloc: Global,
    family: &Family,
    epoch: u8,
    before: &Merged,
    after: &Merged,
    per_mille: u32,
) -> Result<String, Memory>
    requires epoch { 0 < epoch }
    requires setting { after.now.setting ≡ before.now.setting }
    requires small { All (AllUpTo (2 ^ 44)) after.now.counters }
    requires before_small { All (AllUpTo (2 ^ 44)) before.now.counters }
    requires few { HaveUpTo key_limit after.now.keys }
    requires before_few { HaveUpTo key_limit before.now.keys }
    requires per_mille { per_mille ≤ 1000 }
    ensures text { IfOk result (λ text.
        string_bytes text ≡ change_lines family.now epoch before.now after.now per_mille) }
{
    let (total, keys) = change(alloc, family, before, after, per_mille)?;
    match lines(alloc, epoch, total, &keys) {
        Ok(text) => Ok(text),
        Err(_) => Err(Memory),
    }
}

/// The one line of the change to the epoch of this number, which is above 0, from the one before: that of
/// `change_text` with the sum of the changes. Both have the same numbers and no absolute counter above 2^44; the family
/// is that of the sketches. It takes memory for the text and for the difference.
#[tactic(auto, unfolding(crate::specs::Form::change_block))]
pub fn brief_change_text(
    alloc: Global,
    family: &Family,
    epoch: u8,
    before: &Merged,
    after: &Merged,
) -> Result<String, Memory>
    requires epoch { 0 < epoch }
    requires setting { after.now.setting ≡ before.now.setting }
    requires small { All (AllUpTo (2 ^ 44)) after.now.counters }
    requires before_small { All (AllUpTo (2 ^ 44)) before.now.counters }
    ensures text { IfOk result (λ text. (heavy : ℕ) →
        string_bytes text ≡ change_block Brief family.now heavy epoch before.now after.now) }
{
    let less = after.minus(alloc, before)?;
    match head_text(alloc, epoch, g_sum(family, &less, G::Abs)) {
        Ok(text) => Ok(text),
        Err(_) => Err(Memory),
    }
}

// The lines of a change of this sum and with these changed keys.
fn lines(
    alloc: Global,
    epoch: u8,
    total: i128,
    keys: &[(FlowKey, i128)],
) -> Result<String, AllocError>
    requires { 0 < epoch }
    ensures text { IfOk result (λ text. string_bytes text ≡ change_line epoch total ++ changed_lines keys.now) }
{
    let head = head_text(alloc, epoch, total)?;
    let changed = changed_text(alloc, keys)?;
    format!(in alloc; "{head}{changed}")
}

#[tactic(auto, unfolding(crate::specs::Change::change_line))]
fn head_text(alloc: Global, epoch: u8, total: i128) -> Result<String, AllocError>
    requires { 0 < epoch }
    ensures { IfOk result (λ text. string_bytes text ≡ change_line epoch total) }
{
    let earlier = epoch - 1;
    format!(in alloc; "change {earlier} {epoch} total {total}\n")
}

// The lines of the changed keys, in their order.
fn changed_text(alloc: Global, keys: &[(FlowKey, i128)]) -> Result<String, AllocError>
    ensures { IfOk result (λ text. string_bytes text ≡ changed_lines keys.now) }
{
    let mut text = String::new(alloc);
    for pair in keys {
        let line = changed_key_text(alloc, &pair.0, pair.1)?;
        text.push_str(&line)?;
    }
    Ok(text)
}

#[tactic(auto, unfolding(crate::specs::Change::changed_line))]
fn changed_key_text(alloc: Global, key: &FlowKey, change: i128) -> Result<String, AllocError>
    ensures { IfOk result (λ text. string_bytes text ≡ changed_line (key.now, change)) }
{
    let text = key_text(key);
    let key = text.as_str();
    format!(in alloc; "changed {key} by {change}\n")
}
