//! Rows of jobs and replies worked by hand, over the public calls of the crates of the protocol.
//!
//! - `made`: the bytes and the numbers that the rows speak of
//! - `jobs`, `frames`, `job_faults`: jobs read and written, a job of several frames, and bytes that are no job
//! - `pieces`: jobs read in two pieces, at every cut
//! - `child`: what a child answers to its standard input
//! - `counted`: the reply to three items, read back; `replies`: replies of version 1 and of a search
#![tactic(auto)]

#[cfg(test)]
mod child;
#[cfg(test)]
mod counted;
#[cfg(test)]
mod frames;
#[cfg(test)]
mod job_faults;
#[cfg(test)]
mod jobs;
#[cfg(test)]
mod made;
#[cfg(test)]
mod pieces;
#[cfg(test)]
mod replies;
