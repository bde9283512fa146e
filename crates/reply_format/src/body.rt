//! What a replay found.

use crate::Heap;
use sqlite_items::Items;

/// The counters of all levels, in order of level, row and bucket, and the heap of each level.
#[derive(Debug, Drop)]
pub struct ReplayBody {
    /// The counters.
    pub counters: Items<i64>,
    /// The heaps, by level.
    pub heaps: Items<Heap>,
}
