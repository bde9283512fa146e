//! Inputs, sinks and faults: what every other crate reads and writes through.
//!
//! - `fault`: `Memory` and `Fault`; `fault_count`: how many calls failed
//! - `inputs`: the trait `Inputs`; `sink`: the trait `Sink` and `write_all`; `contents`: `read_all`
//! - `mem_inputs`, `mem_sink`: in memory, with calls that fail on demand
//! - `never_inputs`, `never_sink`: in memory, without a failing call
//! - `host_inputs`, `host_sink`: files, standard input and standard output; `source`: the stream that is picked;
//!   `read_ahead`: a stream that is read ahead
//! - `shelf`: files in memory; `front`: the front of a slice; `room`: bytes in a room that never grows;
//!   `script`: the calls that are to fail
//!
//! A read gives a prefix of the rest and a write appends a prefix of its piece; a call fails only where
//! the count of faults rose in it. Whether bytes are told never changes. A sink may have room that is
//! sure: a text of at most that room meets no fault.
#![tactic(auto)]

mod contents;
mod fault;
mod fault_count;
mod front;
mod host_inputs;
mod host_sink;
mod inputs;
mod mem_inputs;
mod mem_sink;
mod never_inputs;
mod never_sink;
mod read_ahead;
mod room;
mod script;
mod shelf;
mod sink;
mod source;
#[cfg(test)]
mod tests;

pub use contents::{ReadStop, read_all};
pub use fault::{Fault, Memory};
pub use host_inputs::HostInputs;
pub use host_sink::HostSink;
pub use inputs::Inputs;
pub use mem_inputs::MemInputs;
pub use mem_sink::MemSink;
pub use never_inputs::NeverInputs;
pub use never_sink::NeverSink;
pub use sink::{Sink, write_all};
