//! The options with a value.
ghost use Rattle.std.specs.Prelude.{◌≡◌};
ghost use Rattle.mon_words.specs.Options.{id_of, is_in_range, name_of};

use crate::Command;

/// An option, or the word `PART`, whose value is a number or one of two words.
#[derive(Clone, Copy, Debug, PartialEq, Eq)]
pub enum Opt {
    /// `--seed`: 0 to 2^64 - 1, by default 1.
    Seed,
    /// `--levels`: 0 to 16, by default 12.
    Levels,
    /// `--rows`: 1, 3, 5 or 7, by default 5.
    Rows,
    /// `--width`: a power of two from 16 to 2,048, by default 1,024.
    Width,
    /// `--heap`: up to 1,024, from 0 and by default 0 for `central`; 0 keeps all live keys.
    Heap,
    /// `--weight`: `packets` or `bytes`, by default `packets`.
    Weight,
    /// `--epoch`: 1 to 2^32 - 1 seconds, by default the whole trace.
    Epoch,
    /// `--heavy`: 1 to 1,000 per mille, by default 10.
    Heavy,
    /// `--nodes`: 1 to 4,096, by default 1,024.
    Nodes,
    /// `--window`: 1 to 32, by default 4.
    Window,
    /// `--restarts`: 0 to 16, by default 3.
    Restarts,
    /// `--packets`: 0 to 1,048,576, by default 200,000.
    Packets,
    /// `--flows`: 1 to 65,536, by default 20,000.
    Flows,
    /// `PART`, the word that stands behind `generate`: `trace` or `topology`.
    Part,
}

impl Opt {
    /// The option as it is written, with its two dashes; `Part` has none. Takes no memory.
    pub fn name(self) -> &'static str
        ensures name { result.now ≡ name_of self }
    {
        match self {
            Opt::Seed => "--seed",
            Opt::Levels => "--levels",
            Opt::Rows => "--rows",
            Opt::Width => "--width",
            Opt::Heap => "--heap",
            Opt::Weight => "--weight",
            Opt::Epoch => "--epoch",
            Opt::Heavy => "--heavy",
            Opt::Nodes => "--nodes",
            Opt::Window => "--window",
            Opt::Restarts => "--restarts",
            Opt::Packets => "--packets",
            Opt::Flows => "--flows",
            Opt::Part => "PART",
        }
    }

    // Its name without the dashes.
    pub(crate) fn id(self) -> &'static str
        ensures id { result.now ≡ id_of self }
    {
        match self {
            Opt::Seed => "seed",
            Opt::Levels => "levels",
            Opt::Rows => "rows",
            Opt::Width => "width",
            Opt::Heap => "heap",
            Opt::Weight => "weight",
            Opt::Epoch => "epoch",
            Opt::Heavy => "heavy",
            Opt::Nodes => "nodes",
            Opt::Window => "window",
            Opt::Restarts => "restarts",
            Opt::Packets => "packets",
            Opt::Flows => "flows",
            Opt::Part => "PART",
        }
    }

    // Whether it takes this number for the command, none where its value is a word.
    pub(crate) fn takes(self, command: Command, number: u64) -> bool
        ensures taken { result ≡ is_in_range command self number }
    {
        match self {
            Opt::Seed => true,
            Opt::Levels => number <= 16,
            Opt::Rows => matches!(number, 1 | 3 | 5 | 7),
            Opt::Width => matches!(number, 16 | 32 | 64 | 128 | 256 | 512 | 1024 | 2048),
            Opt::Heap => command.least_heap() <= number && number <= 1024,
            Opt::Weight => false,
            Opt::Epoch => 1 <= number && number <= 4_294_967_295,
            Opt::Heavy => 1 <= number && number <= 1000,
            Opt::Nodes => 1 <= number && number <= 4096,
            Opt::Window => 1 <= number && number <= 32,
            Opt::Restarts => number <= 16,
            Opt::Packets => number <= 1_048_576,
            Opt::Flows => 1 <= number && number <= 65_536,
            Opt::Part => false,
        }
    }
}
