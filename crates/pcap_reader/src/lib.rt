//! Classic pcap traces, version 2.4, as packets one by one.
//!
//! - `fault`: `PcapFault`, why bytes are no trace; `PcapStop`, why a reader stops
//! - `order`: numbers in either byte order; `header`: the header of a trace; `filling`: buffers filled from an input
//! - `packet`: `Packet`; `reader`: `PcapReader`; `laws`: what holds of every list of bytes
//!
//! `specs/Trace.antt` says which lists of records bytes are, and where they are none.
#![tactic(auto)]

mod fault;
mod filling;
mod header;
mod laws;
mod order;
mod packet;
mod reader;
#[cfg(test)]
mod tests;

pub use fault::{PcapFault, PcapStop};
pub use laws::one_reading;
pub use packet::Packet;
pub use reader::PcapReader;
