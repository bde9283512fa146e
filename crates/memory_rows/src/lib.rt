//! Rows that hold whichever growth of memory is refused: a command ends out of memory with nothing written, or with its
//! whole text.
//!
//! - `made`: the files that the rows speak of
//! - `refusals`: the rows, one for each command, which `bench/fail_alloc.sh` runs with each number of an allocation
//!
//! There is no code here but these tests, over the public calls of `mon_command`.
#![tactic(auto)]

#[cfg(test)]
mod made;
#[cfg(test)]
mod refusals;
