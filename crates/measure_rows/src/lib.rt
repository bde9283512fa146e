//! Rows of `measure`, `drill` and `generate` worked by hand, over crews of children in memory.
//!
//! - `made`: the topologies and traces that the rows speak of, and calls over them
//! - `texts`: whole texts, and lines of them, of children that are answered in this process
//! - `epochs`: the change from an epoch to the next, and heaps that drop a key
//! - `refused`: words, topologies and traces that are refused
//! - `drills`: the made trace and topology, and the measure of them
//!
//! There is no code here but these tests: each stands on the public calls of `mon_command`.
#![tactic(auto)]

#[cfg(test)]
mod drills;
#[cfg(test)]
mod epochs;
#[cfg(test)]
mod made;
#[cfg(test)]
mod refused;
#[cfg(test)]
mod texts;
