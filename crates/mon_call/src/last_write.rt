//! The last write.
ghost use Rattle.std.specs.Prelude.{◌≤◌, string_bytes};
ghost use Rattle.mon_call.specs.Call.{Finishes};

use crate::Status;
use mon_io::{Sink, write_all};

/// Writes the text that is due: `Done`, or `SinkFault` where only a prefix of it was written.
pub fn finish<K: Sink>(sink: &mut K, text: &str) -> Status
    ensures finishes { Finishes (K.state sink.old) (K.state sink.new) text.now result }
    ensures later { (K.state sink.old).faults ≤ (K.state sink.new).faults }
{
    finish_bytes(sink, text.as_bytes())
}

/// Writes the bytes that are due: `Done`, or `SinkFault` where only a prefix of them was written.
pub fn finish_bytes<K: Sink>(sink: &mut K, bytes: &[u8]) -> Status
    ensures finishes { Finishes (K.state sink.old) (K.state sink.new) bytes.now result }
    ensures later { (K.state sink.old).faults ≤ (K.state sink.new).faults }
{
    match write_all(sink, bytes) {
        Ok(()) => Status::Done,
        Err(_) => Status::SinkFault,
    }
}
