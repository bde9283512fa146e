//! A reply of a child.

use crate::ReplayBody;
use bound_certificate::Outcome;
use hash_family::Params;

/// What a child answers to a job.
#[derive(Debug, Drop)]
pub enum Reply {
    /// The sketch of the job's items, which are so many and weigh so much together.
    Replay {
        job: u32,
        params: Params,
        items: u32,
        weight: u64,
        body: ReplayBody,
    },
    /// What the search found.
    Solve {
        job: u32,
        outcome: Outcome,
    },
}
