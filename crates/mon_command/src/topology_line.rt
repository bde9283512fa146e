//! The line of a topology's fault.
ghost use Rattle.std.specs.Prelude.{◌≡◌, IfOk, string_bytes};
ghost use Rattle.mon_command.specs.Status.{entry_word, name_line, path_line, topology_line, value_line, what_word};

use std::alloc::{AllocError, Global};
use topology::{Entry, TopologyFault, What};

/// The line for standard error, without a line feed.
pub(crate) fn topology_text(alloc: Global, fault: TopologyFault) -> Result<String, AllocError>
    ensures { IfOk result (λ line. string_bytes line ≡ topology_line fault) }
{
    match fault {
        TopologyFault::NotToml => String::from_str(alloc, "univmon: topology: not toml"),
        TopologyFault::Missing { entry, index, what } => {
            value_text(alloc, "missing", entry, index, what)
        }
        TopologyFault::WrongKind { entry, index, what } => {
            value_text(alloc, "wrong kind", entry, index, what)
        }
        TopologyFault::Range { entry, index, what } => {
            value_text(alloc, "range", entry, index, what)
        }
        TopologyFault::BadName { entry, index } => name_text(alloc, "bad name", entry, index),
        TopologyFault::TwiceNamed { entry, index } => name_text(alloc, "twice named", entry, index),
        TopologyFault::UnknownSwitch { path } => path_text(alloc, "unknown switch", path),
        TopologyFault::TwiceVia { path } => path_text(alloc, "twice via", path),
        TopologyFault::BadPrefix { path, what } => prefix_text(alloc, path, what),
        TopologyFault::MixedFamily { path } => path_text(alloc, "mixed family", path),
        TopologyFault::Count {
            entry,
            index,
            what,
            found,
        } => count_text(alloc, entry, index, what, found),
        TopologyFault::Memory => String::from_str(alloc, "univmon: out of memory"),
        TopologyFault::TooLong => String::from_str(alloc, "univmon: topology: too long"),
    }
}

#[tactic(auto, unfolding(crate::specs::Status::value_line))]
fn value_text(
    alloc: Global,
    words: &str,
    entry: Entry,
    index: u32,
    what: What,
) -> Result<String, AllocError>
    ensures { IfOk result (λ line. string_bytes line ≡ value_line words.now entry index what) }
{
    let (entry, what) = (entry_word(entry), what_word(what));
    format!(in alloc; "univmon: topology: {words} {entry} {index} {what}")
}

#[tactic(auto, unfolding(crate::specs::Status::name_line))]
fn name_text(alloc: Global, words: &str, entry: Entry, index: u32) -> Result<String, AllocError>
    ensures { IfOk result (λ line. string_bytes line ≡ name_line words.now entry index) }
{
    let entry = entry_word(entry);
    format!(in alloc; "univmon: topology: {words} {entry} {index}")
}

#[tactic(auto, unfolding(crate::specs::Status::path_line))]
fn path_text(alloc: Global, words: &str, path: u32) -> Result<String, AllocError>
    ensures { IfOk result (λ line. string_bytes line ≡ path_line words.now path) }
{
    format!(in alloc; "univmon: topology: {words} path {path}")
}

fn prefix_text(alloc: Global, path: u32, what: What) -> Result<String, AllocError>
    ensures { IfOk result (λ line. string_bytes line ≡ topology_line (TopologyFault.BadPrefix path what)) }
{
    let line = path_text(alloc, "bad prefix", path)?;
    let what = what_word(what);
    format!(in alloc; "{line} {what}")
}

fn count_text(
    alloc: Global,
    entry: Entry,
    index: u32,
    what: What,
    found: u32,
) -> Result<String, AllocError>
    ensures { IfOk result (λ line. string_bytes line ≡ topology_line (TopologyFault.Count entry index what found)) }
{
    let line = value_text(alloc, "count", entry, index, what)?;
    format!(in alloc; "{line} found {found}")
}

fn entry_word(entry: Entry) -> &'static str
    ensures { result.now ≡ entry_word entry }
{
    match entry {
        Entry::Switch => "switch",
        Entry::Path => "path",
    }
}

fn what_word(what: What) -> &'static str
    ensures { result.now ≡ what_word what }
{
    match what {
        What::List => "list",
        What::Name => "name",
        What::Capacity => "capacity",
        What::Opening => "open",
        What::Unit => "unit",
        What::From => "from",
        What::To => "to",
        What::Load => "load",
        What::Via => "via",
    }
}
