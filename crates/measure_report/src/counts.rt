//! The numbers of a trace.

/// The numbers of a trace: its packets, how many of them have a key, and how many a path; how many of these each epoch
/// has, and how many epochs there are, 1 to 8; and whether a packet counts its bytes, or one.
#[derive(Clone, Copy, Debug, PartialEq, Eq)]
pub struct Counts {
    pub packets: u32,
    pub keyed: u32,
    pub routed: u32,
    pub epoch_packets: [u32; 8],
    pub epochs: u8,
    pub bytes: bool,
}
