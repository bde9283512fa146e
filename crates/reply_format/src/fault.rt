//! Why bytes are no reply.

/// The first breach of a reply's bytes, in their order.
#[derive(Clone, Copy, Debug, PartialEq, Eq)]
pub enum ReplyFault {
    /// The bytes end inside the reply.
    Short,
    /// The first four bytes aren't those of a reply.
    Magic,
    /// The version is neither 1 nor 2.
    Version,
    /// The kind or the number isn't that of the job.
    Job,
    /// The numbers of the sketch aren't those of the job, or an outcome is none.
    Shape,
    /// The number of items or their weight isn't that of the job.
    Totals,
    /// A counter's absolute value is above the weight, or a written counter of version 2 is 0.
    CounterRange,
    /// A key is none, or isn't above the one before.
    HeapOrder,
    /// A heap has more keys than it holds, or dropped one without being full.
    HeapLength,
    /// A byte follows the reply.
    Extra,
    /// A growth was refused.
    Memory,
    /// A row has more counters than its width, or a bucket isn't above the one before or not below the width.
    CounterPlace,
}
