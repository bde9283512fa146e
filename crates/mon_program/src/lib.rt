//! The program over the host: its inputs and sink, and its crew of children.
//!
//! - `inline`: `run_inline`, all commands with children that are answered in this process
//! - `program`: `run_program`, which takes off the words that name the children's program
//!
//! `specs/Program.antt` says which words these are. Over children that are answered in this process no event is stale
//! and no attempt is bad, so that a search, and a measure, always ends with an outcome, unless memory runs out; and the
//! accepted replies of a measure's shares are honest.
#![tactic(auto)]

mod inline;
mod program;

pub use inline::run_inline;
pub use program::run_program;
