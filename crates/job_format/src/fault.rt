//! Why bytes are no job.

/// The first breach of a job's bytes, in their order.
#[derive(Clone, Copy, Debug, PartialEq, Eq)]
pub enum JobFault {
    /// The bytes end inside the job.
    Short,
    /// The first four bytes aren't those of a job.
    Magic,
    /// The version isn't 1.
    Version,
    /// A number is outside its limits, a key is none, or a via names a site that is unknown or was named before.
    Shape,
    /// A byte follows the job.
    Extra,
    /// A growth was refused.
    Memory,
}
