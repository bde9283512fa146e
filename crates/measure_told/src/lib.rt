//! Which status a measure tells where what is read is told, and so is the crew's log. No code.
//!
//! `specs/Told.antt` says how such a log is read: where the search in it ends, and what the replays behind it are. `laws`
//! are the two laws: of what is read without a fault, and of a fault.
#![tactic(auto)]

mod laws;

pub use laws::{told_faults, told_measures};
