//! What is expected of a reply.

use hash_family::Params;

/// The numbers of the job that a reply is to answer.
#[derive(Clone, Copy, Debug)]
pub enum Expect {
    /// The sketch of a job's items, which are so many and weigh so much together.
    Replay {
        job: u32,
        params: Params,
        items: u32,
        weight: u64,
    },
    /// What the search of a job found.
    Solve {
        job: u32,
    },
}
