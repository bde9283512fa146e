//! Rows of made traces and of the made topology, worked by a program of its own (`bench/make_drill.py`).
//!
//! - `traces`: the bytes of traces, of two seeds
//! - `topologies`: the first and the last lines of the topology, and what is read in it
#![tactic(auto)]

#[cfg(test)]
mod topologies;
#[cfg(test)]
mod traces;
