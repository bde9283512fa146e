//! The levels of a sketch: each samples the keys of the one below, and has counters and a heap of its best keys.
//!
//! - `level`: one level, with its counters, its heap, and whether the heap dropped a key
//! - `levels`: `Levels`, all levels, fed with one packet after another
//! - `all_keys`: `AllKeys`, every noted key with the highest level at which it is live
//! - `tally`: `Tally`, the keys of items, each with its number of items and their weight
//! - `laws`: what one item more does to the kept keys, when none is missing, and what items that stand for others have
//!   in common with them
//!
//! `specs/Levels.antt` says of which list of items the levels are: each is that of the items whose key is live
//! there. `specs/Kept.antt` says the kept keys and the dropped mark of such a list, and `specs/Noted.antt` the
//! noted keys. `specs/Stands.antt` says when items, one of each key, stand for others.
#![tactic(auto)]

mod all_keys;
mod laws;
mod level;
mod levels;
mod tally;

pub use all_keys::AllKeys;
pub use laws::{kept_keys_law, standing_law};
pub use levels::Levels;
pub use tally::{Tally, Total};
