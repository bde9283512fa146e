//! A key with what is known of it.
use crate::Known;
use flow_keys::FlowKey;

// A key with what is known of it.
#[derive(Clone, Copy)]
pub(crate) struct Slot {
    pub(crate) key: FlowKey,
    pub(crate) known: Known,
}
