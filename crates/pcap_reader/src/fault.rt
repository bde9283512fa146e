//! Why bytes are no trace, and why a reader stops.

/// The first fault of a trace. Each `at` is an offset in the file, in bytes.
#[derive(Clone, Copy, Debug, PartialEq, Eq)]
pub enum PcapFault {
    /// The header has fewer than 24 bytes; `at` is their number.
    ShortHeader { at: u64 },
    /// The first four bytes, as a little-endian number, are no magic of a classic trace.
    NotClassic { magic: u32 },
    /// The version isn't 2.4.
    Version { major: u16, minor: u16 },
    /// The link type isn't read.
    Link { number: u16 },
    /// The record at `at` has less than its head of 16 bytes, or fewer captured bytes than it says.
    ShortRecord { at: u64 },
    /// The record at `at` says that more than 262,144 bytes were captured.
    LongRecord { at: u64, length: u32 },
    /// A byte follows record 1,048,576.
    TooMany,
}

/// Why a reader gives no packet.
#[derive(Clone, Copy, Debug, PartialEq, Eq)]
pub enum PcapStop {
    /// The input could not be picked, or a read failed.
    Read,
    /// The contents are no trace.
    Bad(PcapFault),
    /// The buffer was refused.
    Memory,
}
