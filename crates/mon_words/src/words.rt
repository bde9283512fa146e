//! The words of a call, read.
ghost use Rattle.std.specs.Prelude.{◌≡◌, ◌++◌, Ok, IfOk, OnOk, MatchResult, false, length, map, string_bytes, codes};
ghost use Rattle.std.specs.Option.{option_map};
ghost use Rattle.clap.specs.Words.{first_of, found_of, rows_of};
ghost use Rattle.mon_words.specs.Values.{Explains, HasDefaults, IsInRange, IsNamed, name_count, name_in, names_in, read_of, rest_of, starts_children, words_of};

use crate::groups::{made_values, search_values, sketch_values};
use crate::matches::{matches_in, text_of};
use crate::{Command, Part, UsageFault, WordsFault};
use clap::ArgMatches;
use std::alloc::{AllocError, Global};
use std::marker::Model;

/// A command with its names in order, what it makes, the name of a topology where one is given, and the values of its
/// options. An option that is not given, or that the command hasn't, has its default.
#[derive(Debug, Drop)]
pub struct Words {
    pub command: Command,
    /// For `total` and `central` one name, of a trace; for `measure` two, of a topology and of a trace; for `place` one,
    /// of a topology; for `check` two, of a topology and of a tree; for `child`, `generate` and `drill` none.
    pub names: Vec<String>,
    /// `PART`, what `generate` makes; for each other command `Trace`.
    pub part: Part,
    /// `--topology`, any text.
    pub topology: Option<String>,
    /// `--seed`.
    pub seed: u64,
    /// `--levels`, the highest level: 0 to 16.
    pub levels: u8,
    /// `--rows` of a level: 1, 3, 5 or 7.
    pub rows: u8,
    /// `--width`, the counters in a row: a power of two from 16 to 2,048.
    pub width: u16,
    /// `--heap`, the keys that a level keeps: 1 to 1,024, and for `central` 0 too, which keeps all live keys.
    pub heap: u16,
    /// `--weight`: whether a packet weighs its original length in bytes, and not 1.
    pub bytes: bool,
    /// `--epoch`, in seconds: at least 1, and None where the whole trace is one epoch.
    pub epoch: Option<u32>,
    /// `--heavy`, the share of a heavy key: 1 to 1,000 per mille.
    pub heavy: u32,
    /// `--nodes`, how many nodes a search has: 1 to 4,096.
    pub nodes: u32,
    /// `--window`, how many children may be out together: 1 to 32.
    pub window: u32,
    /// `--restarts`, how many attempts at a job may be bad before it is given up: 0 to 16.
    pub restarts: u32,
    /// `--packets`, how many packets a made trace has: 0 to 1,048,576.
    pub packets: u32,
    /// `--flows`, from how many flows they are drawn: 1 to 65,536.
    pub flows: u32,
}

impl Model for Words {
    ghost use Rattle.std.specs.Prelude.{map, string_bytes};
    ghost use Rattle.std.specs.Option.{option_map};
    ghost use Rattle.mon_words.specs.Values.{Values};

    ghost Value = { Values };

    ghost view = { λ words. record {
      command = words.command;
      names = map string_bytes words.names.items;
      part = words.part;
      topology = option_map string_bytes words.topology;
      seed = words.seed;
      levels = words.levels;
      rows = words.rows;
      width = words.width;
      heap = words.heap;
      bytes = words.bytes;
      epoch = words.epoch;
      heavy = words.heavy;
      nodes = words.nodes;
      window = words.window;
      restarts = words.restarts;
      packets = words.packets;
      flows = words.flows;
    } };
}

/// Reads the words of a call, of which the first is the command: one of all, or where `all` is false one of those that
/// start no children. They are refused exactly where there is none (`NoCommand`), the first is no such command
/// (`UnknownCommand`), clap does not take the others (`Refused`), or the value of an option or of `PART` is none that
/// it takes (`Value`, the first in the order of the table). A number is 1 to 20 digits, of which the first may be 0,
/// within its range. Takes memory.
pub fn read_words(alloc: Global, words: &[String], all: bool) -> Result<Words, WordsFault>
    ensures asked { MatchResult result
        (λ read. words_of all (map string_bytes words.now) ≡ Ok read)
        (Explains (words_of all (map string_bytes words.now))) }
    ensures range { IfOk result IsInRange }
    ensures defaults { IfOk result HasDefaults }
    ensures alone { IfOk result (λ read. all ≡ false → starts_children read.command ≡ false) }
{
    let [first, rest @ ..] = words else {
        return Err(WordsFault::Usage(UsageFault::NoCommand));
    };
    match Command::named(first.as_str(), all) {
        Some(command) => read_rest(alloc, command, rest),
        None => Err(WordsFault::Usage(UsageFault::UnknownCommand)),
    }
}

// The words behind the command.
fn read_rest(alloc: Global, command: Command, words: &[String]) -> Result<Words, WordsFault>
    ensures asked { MatchResult result
        (λ read. rest_of command (map string_bytes words.now) ≡ Ok read)
        (Explains (rest_of command (map string_bytes words.now))) }
    ensures range { IfOk result IsInRange }
    ensures command { IfOk result (λ read. read.command ≡ command) }
    ensures defaults { IfOk result HasDefaults }
{
    let matches = matches_in(alloc, command, words)?;
    read_matches(alloc, command, &matches)
}

// What is read of what clap reads.
fn read_matches(
    alloc: Global,
    command: Command,
    matches: &ArgMatches<'_>,
) -> Result<Words, WordsFault>
    requires named { IsNamed command (rows_of (found_of matches.now)) }
    ensures asked { let rows = rows_of (found_of matches.now) in
        MatchResult result (λ read. read_of command rows ≡ Ok read) (Explains (read_of command rows)) }
    ensures range { IfOk result IsInRange }
    ensures command { IfOk result (λ read. read.command ≡ command) }
{
    let Ok(names) = names_in(alloc, matches, command) else {
        return Err(WordsFault::Memory);
    };
    let Ok(topology) = topology_in(alloc, matches) else {
        return Err(WordsFault::Memory);
    };
    let sketch = sketch_values(matches, command)?;
    let search = search_values(matches, command)?;
    let made = made_values(matches, command)?;
    Ok(Words {
        command,
        names,
        part: made.part,
        topology,
        seed: sketch.seed,
        levels: sketch.levels,
        rows: sketch.rows,
        width: sketch.width,
        heap: sketch.heap,
        bytes: sketch.bytes,
        epoch: sketch.epoch,
        heavy: sketch.heavy,
        nodes: search.nodes,
        window: search.window,
        restarts: search.restarts,
        packets: made.packets,
        flows: made.flows,
    })
}

// The names in order.
fn names_in(
    alloc: Global,
    matches: &ArgMatches<'_>,
    command: Command,
) -> Result<Vec<String>, AllocError>
    requires named { IsNamed command (rows_of (found_of matches.now)) }
    ensures names { IfOk result
        (λ names. map string_bytes names.items ≡ names_in command (rows_of (found_of matches.now))) }
    ensures count { IfOk result (λ names. length (map string_bytes names.items) ≡ name_count command) }
{
    let mut names = Vec::new(alloc);
    match command {
        Command::Total | Command::Central => add_name(alloc, matches, "TRACE", &mut names)?,
        Command::Measure => {
            add_name(alloc, matches, "TOPOLOGY", &mut names)?;
            add_name(alloc, matches, "TRACE", &mut names)?;
        }
        Command::Check => {
            add_name(alloc, matches, "TOPOLOGY", &mut names)?;
            add_name(alloc, matches, "TREE", &mut names)?;
        }
        Command::Place => add_name(alloc, matches, "TOPOLOGY", &mut names)?,
        Command::Child | Command::Generate | Command::Drill => {}
    }
    Ok(names)
}

// Appends the name with this id, where it is given.
fn add_name(
    alloc: Global,
    matches: &ArgMatches<'_>,
    id: &str,
    names: &mut Vec<String>,
) -> Result<(), AllocError>
    ensures names { OnOk result (map string_bytes names.new.items
        ≡ map string_bytes names.old.items ++ name_in (rows_of (found_of matches.now)) id.now) }
{
    if let Some(name) = text_of(matches, id) {
        names.push(String::from_str(alloc, name)?)?;
    }
    Ok(())
}

// The name of a topology.
fn topology_in(alloc: Global, matches: &ArgMatches<'_>) -> Result<Option<String>, AllocError>
    ensures topology { IfOk result (λ topology. option_map string_bytes topology
        ≡ first_of (codes "topology") (rows_of (found_of matches.now))) }
{
    match text_of(matches, "topology") {
        Some(topology) => Ok(Some(String::from_str(alloc, topology)?)),
        None => Ok(None),
    }
}
