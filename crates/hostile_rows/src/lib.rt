//! Rows of hostile use worked by hand: what a child, an input or a sink may do to a run, at each place where it can.
//!
//! - `made`: the topologies and the trace that the rows speak of, and calls over them
//! - `scripted`: crews of children that fail and answer by a script, and calls over them
//! - `replies`: replies that are well formed and untrue; `spoiled`: those replies, spoiled in one place
//! - `failures`: children that die and repeat themselves, and calls of a crew that fail
//! - `edges`: inputs and sinks that fail; `cuts`: a trace that is cut to each length
//!
//! There is no code here but these tests, over the public calls of `mon_command`.
#![tactic(auto)]

#[cfg(test)]
mod cuts;
#[cfg(test)]
mod edges;
#[cfg(test)]
mod failures;
#[cfg(test)]
mod made;
#[cfg(test)]
mod replies;
#[cfg(test)]
mod scripted;
#[cfg(test)]
mod spoiled;
