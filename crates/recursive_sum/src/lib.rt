//! Sums over the keys of merged sketches, and the keys with the greatest numbers.
//!
//! - `measure`: `G`, what a number counts in a sum
//! - `sum`: `g_sum`, the recursive sum over the levels
//! - `one_pass`: `totals`, the number of keys and the weight in one pass over the levels
//! - `ranking`: `select`, the keys with the greatest absolute numbers
//! - `heavy_keys`: `heavy`, the keys with the greatest estimates
//! - `laws`: where the recursive sum is the plain sum over the keys
//!
//! `specs/Sum.antt` says the recursive sum, and `specs/Select.antt` which keys are selected and in which order.
#![tactic(auto)]

mod heavy_keys;
mod laws;
mod measure;
mod one_pass;
mod ranking;
mod sum;

pub use heavy_keys::heavy;
pub use laws::plain_sum;
pub use measure::{G, Totals};
pub use one_pass::totals;
pub use ranking::select;
pub use sum::g_sum;
