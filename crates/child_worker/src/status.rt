//! How a child ends.

use job_format::JobFault;

/// How a child ended.
#[derive(Clone, Copy, Debug, PartialEq, Eq)]
pub enum ChildStatus {
    /// The reply was written.
    Done,
    /// The job can't be picked or read.
    Read,
    /// The reply can't be written.
    Sink,
    /// The input is no job, by this first breach, which is never `Memory`.
    Job(JobFault),
    /// A growth was refused.
    Memory,
}
