//! The values of the options, of a sketch, of a search and of what is made.
ghost use Rattle.std.specs.Prelude.{◌≡◌, ◌≤◌, IfOk, IfErr, IfSome, MatchResult, None, Some, true, false};
ghost use Rattle.std.specs.List.{find};
ghost use Rattle.std.specs.Option.{option_map};
ghost use Rattle.std.specs.Str.Parse.{digits_value};
ghost use Rattle.clap.specs.Words.{first_of, found_of, rows_of};
ghost use Rattle.mon_words.specs.Groups.{IsMade, IsSearch, IsSketch, told_of};
ghost use Rattle.mon_words.specs.Options.{id_of, made_options, search_options, sketch_options};
ghost use Rattle.mon_words.specs.Values.{is_refused, part_in, weighs_bytes};

use crate::matches::{number_given, number_or, text_of};
use crate::{Command, Opt, Part, UsageFault, WordsFault};
use clap::ArgMatches;

/// The values of the options of a sketch and of a trace, as `Words` has them.
#[derive(Clone, Copy)]
pub(crate) struct SketchValues {
    pub(crate) seed: u64,
    pub(crate) levels: u8,
    pub(crate) rows: u8,
    pub(crate) width: u16,
    pub(crate) heap: u16,
    pub(crate) bytes: bool,
    pub(crate) epoch: Option<u32>,
    pub(crate) heavy: u32,
}

/// The values of the options of a search, as `Words` has them.
#[derive(Clone, Copy)]
pub(crate) struct SearchValues {
    pub(crate) nodes: u32,
    pub(crate) window: u32,
    pub(crate) restarts: u32,
}

/// The values of the options of what is made, and what that is, as `Words` has them.
#[derive(Clone, Copy)]
pub(crate) struct MadeValues {
    pub(crate) packets: u32,
    pub(crate) flows: u32,
    pub(crate) part: Part,
}

/// The values of a sketch and of a trace, or the first option of the table with a value that it doesn't take.
pub(crate) fn sketch_values(
    matches: &ArgMatches<'_>,
    command: Command,
) -> Result<SketchValues, WordsFault>
    ensures taken { MatchResult result
        (λ _. find (is_refused command (rows_of (found_of matches.now))) sketch_options ≡ None)
        (λ fault. told_of command (rows_of (found_of matches.now)) sketch_options ≡ Some fault) }
    ensures values { IfOk result (IsSketch command (rows_of (found_of matches.now))) }
{
    let seed = number_or(matches, command, Opt::Seed, 1)?;
    let levels = number_or(matches, command, Opt::Levels, 12)?;
    let rows = number_or(matches, command, Opt::Rows, 5)?;
    let width = number_or(matches, command, Opt::Width, 1024)?;
    let heap = number_or(matches, command, Opt::Heap, command.default_heap())?;
    let bytes = weight_in(matches)?;
    let epoch = epoch_in(matches, command)?;
    let heavy = number_or(matches, command, Opt::Heavy, 10)?;
    Ok(SketchValues {
        seed,
        levels: levels as u8,
        rows: rows as u8,
        width: width as u16,
        heap: heap as u16,
        bytes,
        epoch,
        heavy: heavy as u32,
    })
}

/// The values of a search, or the first option of the table with a value that it doesn't take.
pub(crate) fn search_values(
    matches: &ArgMatches<'_>,
    command: Command,
) -> Result<SearchValues, WordsFault>
    ensures taken { MatchResult result
        (λ _. find (is_refused command (rows_of (found_of matches.now))) search_options ≡ None)
        (λ fault. told_of command (rows_of (found_of matches.now)) search_options ≡ Some fault) }
    ensures values { IfOk result (IsSearch (rows_of (found_of matches.now))) }
{
    let nodes = number_or(matches, command, Opt::Nodes, 1024)?;
    let window = number_or(matches, command, Opt::Window, 4)?;
    let restarts = number_or(matches, command, Opt::Restarts, 3)?;
    Ok(SearchValues {
        nodes: nodes as u32,
        window: window as u32,
        restarts: restarts as u32,
    })
}

/// The values of what is made, or the first option of the table with a value that it doesn't take.
pub(crate) fn made_values(
    matches: &ArgMatches<'_>,
    command: Command,
) -> Result<MadeValues, WordsFault>
    ensures taken { MatchResult result
        (λ _. find (is_refused command (rows_of (found_of matches.now))) made_options ≡ None)
        (λ fault. told_of command (rows_of (found_of matches.now)) made_options ≡ Some fault) }
    ensures values { IfOk result (IsMade (rows_of (found_of matches.now))) }
{
    let packets = number_or(matches, command, Opt::Packets, 200_000)?;
    let flows = number_or(matches, command, Opt::Flows, 20_000)?;
    let part = part_in(matches)?;
    Ok(MadeValues {
        packets: packets as u32,
        flows: flows as u32,
        part,
    })
}

// Whether packets weigh their bytes.
fn weight_in(matches: &ArgMatches<'_>) -> Result<bool, WordsFault>
    ensures taken { (command : Command) → MatchResult result
        (λ _. is_refused command (rows_of (found_of matches.now)) Opt.Weight ≡ false)
        (λ _. is_refused command (rows_of (found_of matches.now)) Opt.Weight ≡ true) }
    ensures bytes { IfOk result (λ bytes. bytes ≡ weighs_bytes (rows_of (found_of matches.now))) }
    ensures fault { IfErr result (λ fault. fault ≡ WordsFault.Usage (UsageFault.Value Opt.Weight)) }
{
    match text_of(matches, Opt::Weight.id()) {
        None | Some("packets") => Ok(false),
        Some("bytes") => Ok(true),
        Some(_) => Err(WordsFault::Usage(UsageFault::Value(Opt::Weight))),
    }
}

// The seconds of an epoch.
fn epoch_in(matches: &ArgMatches<'_>, command: Command) -> Result<Option<u32>, WordsFault>
    ensures taken { MatchResult result
        (λ _. is_refused command (rows_of (found_of matches.now)) Opt.Epoch ≡ false)
        (λ _. is_refused command (rows_of (found_of matches.now)) Opt.Epoch ≡ true) }
    ensures seconds { IfOk result (λ epoch. epoch
        ≡ option_map (digits_value 10) (first_of (id_of Opt.Epoch) (rows_of (found_of matches.now)))) }
    ensures range { IfOk result (λ epoch. IfSome epoch (λ seconds. 1 ≤ seconds)) }
    ensures fault { IfErr result (λ fault. fault ≡ WordsFault.Usage (UsageFault.Value Opt.Epoch)) }
{
    match number_given(matches, command, Opt::Epoch) {
        Ok(Some(seconds)) => Ok(Some(seconds as u32)),
        Ok(None) => Ok(None),
        Err(fault) => Err(fault),
    }
}

// What is made.
fn part_in(matches: &ArgMatches<'_>) -> Result<Part, WordsFault>
    ensures taken { (command : Command) → MatchResult result
        (λ _. is_refused command (rows_of (found_of matches.now)) Opt.Part ≡ false)
        (λ _. is_refused command (rows_of (found_of matches.now)) Opt.Part ≡ true) }
    ensures part { IfOk result (λ part. part ≡ part_in (rows_of (found_of matches.now))) }
    ensures fault { IfErr result (λ fault. fault ≡ WordsFault.Usage (UsageFault.Value Opt.Part)) }
{
    match text_of(matches, Opt::Part.id()) {
        None | Some("trace") => Ok(Part::Trace),
        Some("topology") => Ok(Part::Topology),
        Some(_) => Err(WordsFault::Usage(UsageFault::Value(Opt::Part))),
    }
}
