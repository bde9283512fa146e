//! What a record tells besides its captured bytes.
use flow_keys::Link;

/// A packet of a trace.
#[derive(Clone, Copy, Debug, PartialEq, Eq)]
pub struct Packet {
    /// The time of capture, in seconds.
    pub seconds: u32,
    /// The length of the packet on the link, in bytes.
    pub original: u32,
    /// The link of the trace.
    pub link: Link,
}
