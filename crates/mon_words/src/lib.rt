//! The words of a call: a command, its names and its options.
//!
//! - `words`: `Words` and `read_words`
//! - `command`: `Command`, which the first word names
//! - `app`: the words behind each command, as a definition of the crate clap
//! - `matches`: what clap reads in them, and the texts and numbers there
//! - `opt`: `Opt`, the options with a value; `part`: `Part`, what is made; `numeral`: the number that a value spells
//! - `groups`: the values of the options, of a sketch, of a search and of what is made
//! - `usage_fault`, `words_fault`: why words are refused
//! - `laws`: what plain words ask for
//!
//! `specs/Values.antt` says what words ask for: exactly the words that clap's definition takes and whose values
//! their options take. Only want of memory is free.
#![tactic(auto)]

mod app;
mod command;
mod groups;
mod laws;
mod matches;
mod numeral;
mod opt;
mod part;
mod usage_fault;
mod words;
mod words_fault;

pub use command::Command;
pub use laws::plain_words;
pub use opt::Opt;
pub use part::Part;
pub use usage_fault::UsageFault;
pub use words::{Words, read_words};
pub use words_fault::WordsFault;
