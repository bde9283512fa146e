//! An item of a replay job.

use flow_keys::FlowKey;

/// A packet that is to be sketched: its key, and what it counts.
#[derive(Clone, Copy, Debug, PartialEq, Eq)]
pub struct Item {
    /// Its flow key.
    pub key: FlowKey,
    /// What it counts: 1, or its original length in bytes.
    pub weight: u32,
}
