//! The best keys of a level.

use flow_keys::FlowKey;
use sqlite_items::Items;

/// The keys that a level kept, in strictly ascending order, and whether its heap dropped one.
#[derive(Debug, Drop)]
pub struct Heap {
    /// Whether a key was dropped.
    pub dropped: bool,
    /// The keys kept.
    pub keys: Items<FlowKey>,
}
