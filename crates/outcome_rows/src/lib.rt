//! Rows of outcomes worked by hand, with their texts.
//!
//! - `made`: the topologies and the trees that the rows speak of
//! - `texts`: what the calls of `outcome_report` answer
#![tactic(auto)]

#[cfg(test)]
mod made;
#[cfg(test)]
mod texts;
