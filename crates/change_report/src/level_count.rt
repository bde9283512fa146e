//! The numbers of a level.

/// The numbers of one level: the packets that are live there, their weight, the keys kept, and the
/// counters that aren't 0.
#[derive(Clone, Copy, Debug, PartialEq, Eq)]
pub struct LevelCount {
    /// The packets whose key is live at the level.
    pub packets: u32,
    /// The sum of their weights.
    pub weight: u64,
    /// The keys kept.
    pub keys: u32,
    /// The counters that aren't 0.
    pub nonzero: u32,
}
