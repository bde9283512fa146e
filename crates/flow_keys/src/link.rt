//! The kinds of links whose frames have keys.

/// The link of a trace, by its number in the pcap header.
#[derive(Clone, Copy, Debug, PartialEq, Eq)]
pub enum Link {
    /// 1: Ethernet, with at most two VLAN tags
    Ethernet,
    /// 101: raw IP
    Raw,
    /// 113: Linux cooked capture, version 1
    Cooked1,
    /// 276: Linux cooked capture, version 2
    Cooked2,
}
