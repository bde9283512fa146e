//! A trace as a list of its routed packets, and its numbers.
//!
//! - `reading`: `read_trace`, which reads a trace to its end, and `RoutedTrace`, what it gives
//! - `numbers`: `counts_of`, the numbers of a trace as a report says them
//!
//! `specs/Reading.antt` says what is given and why a trace is refused, `specs/Listing.antt` what is known while it is
//! read. `proofs/Limits.antt` has what callers know of the list and the numbers: how many packets and epochs there
//! are, and what the packets weigh; `proofs/Placed.antt` that a placement that fits has a switch for each packet.
#![tactic(auto)]

mod numbers;
mod reading;

pub use numbers::counts_of;
pub use reading::{RoutedTrace, read_trace};
