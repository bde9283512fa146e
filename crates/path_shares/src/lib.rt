//! The shares of the switches: who sketches which packets, and what the sketches say together.
//!
//! - `laws`: what the replies of honest children say together, and what the shares weigh
//!
//! `specs/Shares.antt` says the share of a switch and the job to sketch it, `specs/Blocks.antt` the lines of an epoch
//! in a report, and `specs/Honest.antt` what the merged sketches are where the children are honest. No code.
#![tactic(auto)]

mod laws;

pub use laws::{honest_epochs, honest_replies_unite, shares_weigh};
