//! The phase of a call in which children search for a placement.
//!
//! - `solving`: `Solving`, the numbers of a search and of its children
//! - `phase`: `solve`, which has children search, and `Found`, what was found
//!
//! `specs/Phase.antt` says what a search that ended left in the log, and what one that was given up; `specs/Told.antt`
//! how such a log is read by whoever has it.
#![tactic(auto)]

mod phase;
mod solving;

pub use phase::{Found, solve};
pub use solving::Solving;
