//! The best keys of a stream of offers: a table of at most `k` keys with a score each.
//!
//! - `entry`: `Entry`, a key with its score, and which of two ranks first
//! - `place`: where a key stands in the order of the slots, which ascends by key
//! - `groups`: the slot that ranks last, by groups of slots
//! - `edits`: a score put into the slots, and the entry that ranks last dropped from them
//! - `offer`: what an offer answers
//! - `top`: `TopK`, the table
//!
//! A greater score ranks first, and of equal scores the lesser key. `specs/Ranking.antt` says which
//! entries are the best and which are dropped; clauses see the entries in ascending order of their keys.
#![tactic(auto)]

mod edits;
mod entry;
mod groups;
mod offer;
mod place;
mod top;

pub use entry::Entry;
pub use offer::Offer;
pub use top::TopK;
