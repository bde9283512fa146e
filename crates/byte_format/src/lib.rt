//! Bytes as fields that stand one behind another, each of a size and with a test, and flow keys as bytes.
//!
//! - `key`: a flow key from its 44 bytes, and to them
//!
//! `specs/Format.antt` says what a format is: which fields stand in bytes, where bytes end inside one, and where they
//! come to their first fault. `proofs/Formats.antt` shows of every format that bytes come to one of these, the same for
//! every cutting into pieces. `specs/Keys.antt` says the bytes of a key.
#![tactic(auto)]

mod key;

pub use key::{key_at, put_key};
