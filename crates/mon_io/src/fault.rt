//! The two ways in which a call of this crate ends without an answer.

/// A growth was refused: the one answer that no clause ties to a cause.
#[derive(Clone, Copy, Debug, PartialEq, Eq)]
pub struct Memory;

/// A read or a write failed. The count of faults of the input or the sink rose in that call.
#[derive(Clone, Copy, Debug, PartialEq, Eq)]
pub struct Fault;
