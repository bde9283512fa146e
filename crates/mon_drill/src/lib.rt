//! The command `drill`: a measure of a made topology and a made trace.
//!
//! - `command`: `drill`, the command
//!
//! `specs/Drill.antt` says what it answers: what `measure` does of inputs in memory that hold the made topology and the
//! made trace, with the few lines that name no path, no switch and no key.
#![tactic(auto)]

mod command;

pub use command::drill;
