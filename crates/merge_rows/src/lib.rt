//! Rows of merged sketches from outside, over the public calls of `sketch_levels`, `sketch_merge`, `recursive_sum`
//! and `change_report`.
//!
//! - `gathered`: merged sketches of a few packets, or of many
//! - `merged`: differences of merged sketches
//! - `selected`: which of four pairs are selected
//! - `sums`: sums and heavy keys over all levels
//! - `reports`: the lines of an epoch and of a change
#![tactic(auto)]

#[cfg(test)]
mod gathered;
#[cfg(test)]
mod merged;
#[cfg(test)]
mod reports;
#[cfg(test)]
mod selected;
#[cfg(test)]
mod sums;
