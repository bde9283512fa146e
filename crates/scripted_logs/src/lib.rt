//! A log whose children fail and answer by a script, and are never given bytes of their own, is honest: each accepted reply
//! is that of an honest child, however many children die.
//!
//! - `entries`: the log of such a crew, which tells what the laws want of it
//! - `laws`: of logs and of replays behind a search, and of a measure; no code
//!
//! `specs/Answering.antt` says which scripts these are, and what a crew writes that follows one over workers.
#![tactic(auto)]

mod entries;
mod laws;

pub use entries::{answers_alone, honest_entries};
pub use laws::{scripted_measures, scripted_replays};
