//! Where work on a job stops.

use job_format::JobFault;

/// Why a job isn't answered.
#[derive(Clone, Copy, Debug, PartialEq, Eq)]
pub(crate) enum WorkStop {
    /// The bytes are no job, by this first breach.
    Fault(JobFault),
    /// A growth was refused.
    Memory,
}
