//! Why words are not read.
use crate::UsageFault;

/// Why words are not read.
#[derive(Clone, Copy, Debug, PartialEq, Eq)]
pub enum WordsFault {
    /// The words are refused.
    Usage(UsageFault),
    /// A growth was refused.
    Memory,
}
