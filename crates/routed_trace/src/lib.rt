//! The routed packets of a trace: in which epoch each is, which path takes it, and what it weighs.
//!
//! - `division`: `Division`, how a trace is divided into epochs and what a packet counts
//! - `counts`: `TraceCounts`, the numbers of the records so far, and `add`, which gives the routed packet of one more
//! - `path`: the path of a key
//! - `laws`: `one_ending`, that bytes have one ending: a trace without a fault, or one fault
//! - `fault`: `TraceFault`, why a trace is refused
//!
//! `specs/Routed.antt` says the epochs of a trace, its weight and the list of its routed packets; `specs/Scan.antt`
//! says the first fault of a trace: one of its format, or a record that is late (in an epoch above the eighth) or
//! heavy (the original lengths so far are above 2^44 bytes, where bytes are counted). No call takes memory.
#![tactic(auto)]

mod counts;
mod division;
mod fault;
mod laws;
mod path;

pub use counts::TraceCounts;
pub use division::Division;
pub use fault::TraceFault;
pub use laws::one_ending;
