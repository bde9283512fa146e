//! Why a trace is refused.

use pcap_reader::PcapFault;

/// Why a trace is refused.
#[derive(Clone, Copy, Debug, PartialEq, Eq)]
pub enum TraceFault {
    /// It is no classic pcap trace.
    Pcap(PcapFault),
    /// The record of this number, from 0, is the first in an epoch above the eighth, which has the index 7.
    Epochs { number: u32, index: u32 },
    /// Where bytes are counted: the original lengths of the records up to the one of this number, from 0, are the
    /// first that are above 2^44 bytes together.
    Weight { number: u32 },
}
