//! Rows of certificates worked by hand: placements, trees, outcomes, texts and bytes.
//!
//! - `made`: the problems and the trees that the rows speak of
//! - `placements`, `trees`, `nodes`, `outcomes`: what the calls of `bound_certificate` answer
//! - `written`, `text`, `bytes`: trees as text and as bytes, and back
#![tactic(auto)]

#[cfg(test)]
mod bytes;
#[cfg(test)]
mod made;
#[cfg(test)]
mod nodes;
#[cfg(test)]
mod outcomes;
#[cfg(test)]
mod placements;
#[cfg(test)]
mod text;
#[cfg(test)]
mod trees;
#[cfg(test)]
mod written;
