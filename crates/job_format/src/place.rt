//! What stands next in the bytes of a job.

use crate::Via;
use flow_keys::FlowKey;

/// What a job is for.
#[derive(Clone, Copy, Debug, PartialEq, Eq)]
pub enum Kind {
    Replay,
    Solve,
}

/// A field of the head that every job has, and then of that of a replay job.
#[derive(Clone, Copy, Debug, PartialEq, Eq)]
pub enum HeadStep {
    Magic,
    Version,
    Kind,
    Number,
    Levels,
    Rows,
    Width,
    Heap,
    Seed,
}

/// The numbers of a head; 0 where they weren't read yet.
#[derive(Clone, Copy, Debug, PartialEq, Eq)]
pub struct HeadNumbers {
    pub kind: Kind,
    pub job: u32,
    pub levels: u8,
    pub rows: u8,
    pub width: u16,
    pub heap: u16,
    pub seed: u64,
}

/// How much of a replay job stands before a place.
#[derive(Clone, Copy, Debug, PartialEq, Eq)]
pub struct Tally {
    /// How many items the frames so far have, the one that is begun among them.
    pub items: u32,
    /// The weights so far together.
    pub weight: u64,
}

/// A field of a solve job behind its head.
#[derive(Clone, Copy, Debug, PartialEq, Eq)]
pub enum SolveStep {
    Nodes,
    Sites,
    Site,
    Needs,
    Load,
    Hops,
    Hop,
}

/// The numbers of a solve job; 0, and none, where they weren't read yet.
#[derive(Debug, Drop)]
pub struct SolveNumbers {
    pub job: u32,
    pub nodes: u16,
    /// How many sites there are, and how many of them are left.
    pub sites: u8,
    pub sites_left: u8,
    /// How many needs are left, the one that is begun among them.
    pub needs_left: u8,
    /// The load of the need that is begun, its via so far, and how many numbers of it are left.
    pub load: u16,
    pub via: Via,
    pub hops_left: u8,
}

/// What stands next in the bytes of a job.
#[derive(Debug, Drop)]
pub enum Place {
    /// A field of the head.
    Head {
        step: HeadStep,
        numbers: HeadNumbers,
    },
    /// The count of a frame, or the closing one.
    Count {
        numbers: HeadNumbers,
        tally: Tally,
    },
    /// The key of an item, where so many are left in the frame.
    Key {
        numbers: HeadNumbers,
        tally: Tally,
        left: u16,
    },
    /// The weight of an item with this key.
    Weight {
        numbers: HeadNumbers,
        tally: Tally,
        left: u16,
        key: FlowKey,
    },
    /// Nothing: a replay job is whole.
    ReplayEnd {
        numbers: HeadNumbers,
        tally: Tally,
    },
    /// A field of a solve job.
    Solve {
        step: SolveStep,
        numbers: SolveNumbers,
    },
    /// Nothing: a solve job is whole.
    SolveEnd {
        numbers: SolveNumbers,
    },
}
