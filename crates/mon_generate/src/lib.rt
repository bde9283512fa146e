//! The command `generate`: a trace or a topology that is made from numbers.
//!
//! - `command`: `generate`, the command
//!
//! `specs/Duty.antt` says what the command owes: the bytes of the made trace or topology.
#![tactic(auto)]

mod command;

pub use command::generate;
