//! A sketch of signed counters: an update changes one counter in each row, and an estimate is the middle row's.
//!
//! - `sketch`: `Sketch`, the counters of one level
//! - `update`: an item added to counters
//! - `estimate`: what counters say of a key, with `estimate_in` over a slice of counters
//! - `spots`: `Spots`, where a key counts in each row of a level, with its sign there
//! - `update_and_estimate`: both at once, at the spots of a key, so that it reads no hash
//! - `middle`: the middle one of up to seven numbers
//! - `places`: sums and differences place by place
//!
//! `specs/Counters.antt` says the counters of a list of items as sums over the list; `specs/Estimate.antt` says
//! the estimate. Only `Sketch::new` takes memory.
#![tactic(auto)]

mod estimate;
mod middle;
mod places;
mod sketch;
mod spots;
mod update;
mod update_and_estimate;

pub use estimate::estimate_in;
pub use sketch::Sketch;
pub use spots::{Spot, Spots};
