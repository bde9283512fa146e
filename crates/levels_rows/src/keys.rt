//! The keys of the rows.

use flow_keys::FlowKey;
use std::process::Abort;

// The IPv6 key whose second word is n, which is above all those of lesser numbers.
pub(crate) fn key(rt: &impl Abort, n: u32) -> FlowKey {
    FlowKey::from_words([6, n, 0, 0, 0, 0, 0, 0, 0, 0, 17]).expect(rt, "a key")
}
