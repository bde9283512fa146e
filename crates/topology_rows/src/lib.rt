//! Rows of topologies worked by hand: files in TOML with what they spell, and with why they are refused.
//!
//! - `made`: the files that the rows speak of
//! - `files`, `faults`, `routes`: what the calls of `topology` answer
#![tactic(auto)]

#[cfg(test)]
mod faults;
#[cfg(test)]
mod files;
#[cfg(test)]
mod made;
#[cfg(test)]
mod routes;
