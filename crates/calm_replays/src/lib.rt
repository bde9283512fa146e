//! Replays whose children are answered in this process are calm: no event is stale, and no attempt is bad. And they are
//! honest: each accepted reply is that of an honest child. No code.
//!
//! `specs/Inline.antt` says what such a crew writes. `laws` are the two laws: of replays behind a search, and of a measure,
//! which therefore always ends with an outcome.
#![tactic(auto)]

mod laws;

pub use laws::{calm_measures, calm_replays};
