//! A sink for bytes.
ghost use Rattle.std.specs.Prelude.{◌≡◌, ℕ, ◌≤◌, ◌<◌, ◌+◌, OnOk, OnErr, length};
ghost use Rattle.mon_io.specs.Faults.{HasCause};
ghost use Rattle.mon_io.specs.Sink.{SinkState, Writes, Grew, GrewByPart, KeepsRoom};

use crate::Fault;

/// Where a program's text goes.
pub trait Sink {
    /// The bytes written so far, and the count of faults.
    ghost state: { Self → SinkState };
    /// How many more bytes are sure to meet no fault, 0 where nothing is promised.
    ghost sure_room: { Self → ℕ };

    /// Appends a prefix of `piece`, at least one byte of a nonempty one, and gives its length.
    /// A `Fault` appends nothing.
    fn write(&mut self, piece: &[u8]) -> Result<usize, Fault>
        ensures bytes { Writes (state self.old).written (state self.new).written result piece.now }
        ensures sure { KeepsRoom (sure_room self.old) (sure_room self.new) result }
        ensures cause { HasCause (state self.old).faults (state self.new).faults result };
}

/// Appends all of `bytes`, and takes no memory. On a `Fault` a prefix of them was appended. A text of
/// at most the sure room meets no fault.
pub fn write_all<K: Sink>(sink: &mut K, bytes: &[u8]) -> Result<(), Fault>
    ensures all { OnOk result (Grew (K.state sink.old).written (K.state sink.new).written bytes.now) }
    ensures part { OnErr result (GrewByPart (K.state sink.old).written (K.state sink.new).written bytes.now) }
    ensures fits { OnErr result (K.sure_room sink.old < length bytes.now) }
    ensures room { OnOk result (K.sure_room sink.old ≤ K.sure_room sink.new + length bytes.now) }
    ensures cause { HasCause (K.state sink.old).faults (K.state sink.new).faults result }
{
    let mut written = 0;
    while written < bytes.len() {
        written += sink.write(&bytes[written..])?;
    }
    Ok(())
}
