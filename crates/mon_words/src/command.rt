//! The commands.
ghost use Rattle.std.specs.Prelude.{◌≡◌, ◌≤◌, IfSome, false};
ghost use Rattle.mon_words.specs.Options.{default_heap, least_heap};
ghost use Rattle.mon_words.specs.Values.{command_of, starts_children};

/// A command.
#[derive(Clone, Copy, Debug, PartialEq, Eq)]
pub enum Command {
    /// `total`: counts the packets of a trace.
    Total,
    /// `central`: sketches a trace.
    Central,
    /// `measure`: places the paths of a topology, and sketches a trace where they are placed.
    Measure,
    /// `place`: places the paths of a topology.
    Place,
    /// `check`: checks a tree against a topology.
    Check,
    /// `child`: reads a job, and writes its reply.
    Child,
    /// `generate`: makes a trace or a topology.
    Generate,
    /// `drill`: measures a made trace over a made topology.
    Drill,
}

impl Command {
    // The command with this name, of all or of those that start no children.
    pub(crate) fn named(word: &str, all: bool) -> Option<Command>
        ensures command { result ≡ command_of all word.now }
        ensures alone { all ≡ false → IfSome result (λ command. starts_children command ≡ false) }
    {
        if word == "total" {
            Some(Command::Total)
        } else if word == "central" {
            Some(Command::Central)
        } else if word == "check" {
            Some(Command::Check)
        } else if word == "child" {
            Some(Command::Child)
        } else if word == "generate" {
            Some(Command::Generate)
        } else if all && word == "measure" {
            Some(Command::Measure)
        } else if all && word == "place" {
            Some(Command::Place)
        } else if all && word == "drill" {
            Some(Command::Drill)
        } else {
            None
        }
    }

    // The heap where none is given.
    pub(crate) fn default_heap(self) -> u64
        ensures number { result ≡ default_heap self }
        ensures small { result ≤ 1024 }
    {
        match self {
            Command::Total => 64,
            Command::Central => 0,
            Command::Measure => 64,
            Command::Place => 64,
            Command::Check => 64,
            Command::Child => 64,
            Command::Generate => 64,
            Command::Drill => 64,
        }
    }

    // The least heap that it takes.
    pub(crate) fn least_heap(self) -> u64
        ensures number { result ≡ least_heap self }
    {
        match self {
            Command::Total => 1,
            Command::Central => 0,
            Command::Measure => 1,
            Command::Place => 1,
            Command::Check => 1,
            Command::Child => 1,
            Command::Generate => 1,
            Command::Drill => 1,
        }
    }
}
