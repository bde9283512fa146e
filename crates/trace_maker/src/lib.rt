//! A trace and a topology that are made, so that a run needs no file.
//!
//! - `stream`: the words that a trace is drawn from
//! - `packet`: `Packet`, what is drawn for a packet, and the bytes of its record
//! - `trace`: `trace_bytes`, a header and so many records
//! - `topology`: `topology_bytes`, a text of twelve switches and thirty paths, one for each network of a trace
//! - `laws`: what holds of every made trace
//!
//! `specs/Trace.antt` says which bytes a trace has, by the words of a ChaCha20 stream, and `specs/Topology.antt` the
//! text of the topology. A trace is made in one pass over the stream, in memory that is taken at its start.
#![tactic(auto)]

mod laws;
mod packet;
mod stream;
mod topology;
mod trace;

pub use laws::one_size;
pub use topology::topology_bytes;
pub use trace::trace_bytes;
