//! The replay job that a reply is to answer.

use hash_family::Params;

/// A replay job's number, the numbers of its sketch, how many items it has, and what they weigh together.
#[derive(Clone, Copy, Debug)]
pub(crate) struct ReplayJob {
    pub(crate) number: u32,
    pub(crate) params: Params,
    pub(crate) items: u32,
    pub(crate) weight: u64,
}
