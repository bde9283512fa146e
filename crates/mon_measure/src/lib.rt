//! The command `measure`: what the switches of a topology have sketched together of the packets of a trace.
//!
//! - `command`: `measure`, which reads a topology and a trace
//! - `measuring`: `Measuring`, the numbers of a measure
//! - `searching`: the phase in which children search a placement
//! - `replaying`: the phase in which children sketch the shares of the switches, and the report
//!
//! `specs/Measuring.antt` says within which limits the numbers are. Each status with its cause, what the children have given,
//! and the text stand in the crate `measure_answers`.
#![tactic(auto)]

mod command;
mod measuring;
mod replaying;
mod searching;

pub use command::measure;
pub use measuring::Measuring;
