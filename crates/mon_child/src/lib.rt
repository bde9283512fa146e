//! The command `child`: a job from standard input, and its reply.
//!
//! - `command`: `child`, the command
//!
//! `specs/Duty.antt` says what the command owes: the reply to the job that standard input spells.
#![tactic(auto)]

mod command;

pub use command::child;
