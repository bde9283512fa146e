//! Rows of the levels of a sketch from outside, over the public calls of `topk_heap` and `sketch_levels`.
//!
//! - `keys`: the keys of the rows
//! - `heap`: what offers answer, and which keys a table holds
//! - `levels`: what levels keep, and which keys are noted, after a few packets and after many
//! - `tally`: how many items the keys of a tally have, and what they weigh
#![tactic(auto)]

#[cfg(test)]
mod heap;
#[cfg(test)]
mod keys;
#[cfg(test)]
mod levels;
#[cfg(test)]
mod tally;
