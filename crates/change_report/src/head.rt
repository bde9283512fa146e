//! The lines of the head of a report.
ghost use Rattle.std.specs.Prelude.{◌≡◌, ◌++◌, codes, IfOk, string_bytes};
ghost use Rattle.change_report.specs.Head.{counter_words, counts_line, heap_text, kept_words, setting_in};
ghost use Rattle.change_report.specs.Head.{sketch_line, weight_word};

use mon_io::Memory;
use std::alloc::{AllocError, Global};

/// The numbers of a sketch as a report says them: its seed, its highest level, rows and width of each level, and keys
/// in a level's heap, which is 0 where every key is kept.
#[derive(Clone, Copy, Debug, PartialEq, Eq)]
pub struct SketchNumbers {
    pub seed: u64,
    pub levels: u8,
    pub rows: u8,
    pub width: u16,
    pub heap: u16,
}

/// The line of how many packets there are, how many of them have a key, and how many a path. It takes memory for the
/// text.
#[tactic(auto, unfolding(crate::specs::Head::counts_line))]
pub fn counts_text(alloc: Global, packets: u32, keyed: u32, routed: u32) -> Result<String, Memory>
    ensures text { IfOk result (λ text. string_bytes text ≡ counts_line packets keyed routed) }
{
    match format!(in alloc; "packets {packets} keyed {keyed} routed {routed}\n") {
        Ok(text) => Ok(text),
        Err(_) => Err(Memory),
    }
}

/// The line of a sketch's numbers, where a heap of 0 is `all`, and of what a packet counts, its bytes or itself. It
/// takes memory for the text.
#[tactic(auto, unfolding(crate::specs::Head::sketch_line))]
pub fn sketch_text(alloc: Global, numbers: SketchNumbers, bytes: bool) -> Result<String, Memory>
    ensures text { IfOk result (λ text. string_bytes text ≡ sketch_line (setting_in numbers) bytes) }
{
    match line(alloc, numbers, bytes) {
        Ok(text) => Ok(text),
        Err(_) => Err(Memory),
    }
}

fn line(alloc: Global, numbers: SketchNumbers, bytes: bool) -> Result<String, AllocError>
    ensures { IfOk result (λ text.
        string_bytes text ≡ counter_words (setting_in numbers) ++ kept_words numbers.heap bytes) }
{
    let counters = counter_text(alloc, numbers)?;
    let kept = kept_text(alloc, numbers.heap, bytes)?;
    format!(in alloc; "{counters}{kept}")
}

// The numbers of the counters.
#[tactic(auto, unfolding(crate::specs::Head::counter_words))]
fn counter_text(alloc: Global, numbers: SketchNumbers) -> Result<String, AllocError>
    ensures { IfOk result (λ text. string_bytes text ≡ counter_words (setting_in numbers)) }
{
    let (seed, levels) = (numbers.seed, numbers.levels);
    let (rows, width) = (numbers.rows, numbers.width);
    format!(in alloc; "sketch seed {seed} levels {levels} rows {rows} width {width}")
}

// How many keys a level keeps, and what a packet counts.
#[tactic(auto, unfolding(crate::specs::Head::kept_words))]
fn kept_text(alloc: Global, heap: u16, bytes: bool) -> Result<String, AllocError>
    ensures { IfOk result (λ text. string_bytes text ≡ kept_words heap bytes) }
{
    let heap = heap_text(alloc, heap)?;
    let weight = weight_word(bytes);
    format!(in alloc; " heap {heap} weight {weight}\n")
}

// How many keys a level keeps: `all` for 0.
#[tactic(auto, unfolding(crate::specs::Head::heap_text))]
fn heap_text(alloc: Global, heap: u16) -> Result<String, AllocError>
    ensures { IfOk result (λ text. string_bytes text ≡ heap_text heap) }
{
    if heap == 0 {
        String::from_str(alloc, "all")
    } else {
        format!(in alloc; "{heap}")
    }
}

// What a packet counts.
#[tactic(auto, unfolding(crate::specs::Head::weight_word))]
fn weight_word(bytes: bool) -> &'static str
    ensures { result.now ≡ weight_word bytes }
{
    if bytes { "bytes" } else { "packets" }
}
