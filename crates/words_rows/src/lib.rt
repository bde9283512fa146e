//! Rows of words worked by hand: what they ask for, and why they are refused.
//!
//! - `lines`: words from a line
//! - `taken`, `refused`: what `read_words` of `mon_words` answers
//! - `searches`: the words of `place`, and the options of a search
//! - `measures`: the words of `measure`, `generate` and `drill`
#![tactic(auto)]

#[cfg(test)]
mod lines;
#[cfg(test)]
mod measures;
#[cfg(test)]
mod refused;
#[cfg(test)]
mod searches;
#[cfg(test)]
mod taken;
