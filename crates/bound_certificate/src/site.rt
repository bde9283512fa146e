//! A site that can serve needs.

/// A site: its capacity, the cost of opening it, and what it costs per unit of load that it serves.
#[derive(Clone, Copy, Debug, PartialEq, Eq)]
pub struct Site {
    /// The greatest sum of the loads that it can serve.
    pub capacity: u32,
    /// What it costs, once, where it serves a need.
    pub opening: u32,
    /// What it costs for each unit of load.
    pub unit: u16,
}
