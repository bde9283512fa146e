//! Merged sketches: the counters and the named keys of each level, replies added one by one, and the difference of two.
//!
//! - `merged`: `Merged`, made of the counters and keys of its levels, or of nothing and replies, with its queries
//! - `nothing`: the counters and lists of keys that no reply came to
//! - `levels`: the counters of a level, among those of all levels, which lie one level after another
//! - `addition`, `subtraction`: counters with others added, and less others
//! - `union`: the keys of two ascending lists in one, level by level
//! - `marks`: whether a heap of a reply dropped a key
//! - `laws`: which keys are in a union, and that replies say the same in whatever order they come
//!
//! `specs/Merged.antt` says what clauses see, `specs/Merging.antt` what replies say together. No query takes memory.
#![tactic(auto)]

mod addition;
mod laws;
mod levels;
mod marks;
mod merged;
mod nothing;
mod subtraction;
mod union;

pub use laws::{taken_reply_law, united_keys_law};
pub use merged::Merged;
