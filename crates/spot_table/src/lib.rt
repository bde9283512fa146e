//! What is known of the keys that were asked for last: at how many levels a key is live, and where it counts there.
//!
//! - `known`: `Known`, what is known of a key, found from the hash functions
//! - `slot`: a key with what is known of it
//! - `table`: `SpotTable`, which keeps it for 4,096 keys at most
//!
//! `specs/Known.antt` says what is known of a key, and `specs/Table.antt` that each slot keeps it of its own key.
//! A key's hashes are the same at each of its packets: the table spares them at all but the first one, as long as no
//! other key takes the slot. Only `SpotTable::new` takes memory.
#![tactic(auto)]

mod known;
mod slot;
mod table;
#[cfg(test)]
mod tests;

pub use known::Known;
pub use table::SpotTable;
