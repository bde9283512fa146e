//! A packet that is to be sketched.

use crate::FlowKey;

/// What a packet becomes once it has a key and a route.
#[derive(Clone, Copy, Debug, PartialEq, Eq)]
pub struct Routed {
    /// The number of its epoch, from 0.
    pub epoch: u8,
    /// The number of its path, from 0 in the order of the topology's file.
    pub path: u8,
    /// Its flow key.
    pub key: FlowKey,
    /// What it counts: 1, or its original length in bytes.
    pub weight: u32,
}
