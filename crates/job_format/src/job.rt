//! A job of a child.

use crate::Item;
use bound_certificate::Problem;
use hash_family::Params;
use sqlite_items::Items;

/// What a child is given to do.
#[derive(Debug, Drop)]
pub enum Job {
    /// Sketch these items with these numbers: at most 1,048,576 items, which weigh at most 2^44 together.
    Replay {
        job: u32,
        params: Params,
        items: Items<Item>,
    },
    /// Place the needs of this problem, by a search of 1 to 4,096 nodes.
    Solve {
        job: u32,
        nodes: u32,
        problem: Problem,
    },
}
