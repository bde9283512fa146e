//! The search for a placement of least cost, with the tree that shows how good it is.
//!
//! - `root`: `search`, from the problem to its outcome
//! - `branching`: the tree below a node, by recursion
//! - `leaf`: the leaf that closes a node, if there is one
//! - `crowd`: needs that are more than their sites have left; `room`: a first look at what these have left
//! - `prices`: the prices of a Dual leaf
//! - `ascent`, `capacity_prices`: guesses at such prices
//! - `dive`, `walk`: guesses at good placements to begin with; `loads`: what such choices put on the sites
//! - `progress`: the best placement so far, and the Branch nodes that are left
#![tactic(auto)]

mod ascent;
mod branching;
mod capacity_prices;
mod crowd;
mod dive;
mod leaf;
mod loads;
mod prices;
mod progress;
mod room;
mod root;
mod walk;

pub use root::search;
