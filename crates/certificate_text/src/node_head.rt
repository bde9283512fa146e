//! A node without its children, as a text or bytes spell it.

use sqlite_items::Items;

/// A node without its children.
#[derive(Debug, Drop)]
pub(crate) enum NodeHead {
    /// With so many children.
    Branch(u8),
    Over,
    Hall(Items<u8>),
    Dual { lambda: Items<u64>, mu: Items<u64> },
    Full,
}
