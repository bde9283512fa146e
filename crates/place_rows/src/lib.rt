//! Rows of `place` worked by hand, over crews of children in memory and over processes.
//!
//! - `made`: the topologies that the rows speak of, and calls over them
//! - `inline`: what is found by children that are answered in this process
//! - `scripted`: what is taken of children that answer and fail by a script, and when they are given up
//! - `edges`: calls that start nobody, and those whose input or sink fails
//! - `program`: the program's words for its children, and children that die
//!
//! There is no code here but these tests: each stands on the public calls of `mon_command` and `mon_program`.
#![tactic(auto)]

#[cfg(test)]
mod edges;
#[cfg(test)]
mod inline;
#[cfg(test)]
mod made;
#[cfg(test)]
mod program;
#[cfg(test)]
mod scripted;
