//! The two sides of a flow.

/// Which address of a flow is meant.
#[derive(Clone, Copy, Debug, PartialEq, Eq)]
pub enum Side {
    /// where its packets come from
    Source,
    /// where its packets go to
    Destination,
}
