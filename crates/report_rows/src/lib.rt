//! Rows of finished measures worked by hand, with their texts.
//!
//! - `made`: the topologies, the placements and the sketches that the rows speak of
//! - `texts`: what `write_report` answers
#![tactic(auto)]

#[cfg(test)]
mod made;
#[cfg(test)]
mod texts;
