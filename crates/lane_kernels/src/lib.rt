//! Sums and scans of signed numbers, eight lanes at a time, and one by one behind the last eight.
//!
//! - `sums`: `add_into` and `sub_into`, place by place
//! - `scans`: how many numbers aren't 0, and the next one that isn't
//!
//! No call takes memory.
#![tactic(auto)]

mod scans;
mod sums;

pub use scans::{next_nonzero, nonzero};
pub use sums::{add_into, sub_into};
