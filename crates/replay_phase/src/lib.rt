//! The phase of a call in which children replay the shares of a placement.
//!
//! - `phase`: `replay`, which has children replay all shares, and gives what their replies were merged to
//!
//! `specs/Phase.antt` says what replays that ended left in the log, and what those that were given up.
#![tactic(auto)]

mod phase;

pub use phase::replay;
