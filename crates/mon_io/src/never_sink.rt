//! A sink in memory that fails only where it is full.
ghost use Rattle.std.specs.Prelude.{◌≡◌, ◌≤◌, ◌&&◌, ◌==◌, ◌+◌, [], IfOk, OnErr, is_err, nat_lt, length, min};
ghost use Rattle.mon_io.specs.Faults.{HasCause, CountsFailure};
ghost use Rattle.mon_io.specs.Sink.{Writes, KeepsRoom};
ghost use Rattle.mon_io.specs.NeverSink.{never_sink_state, never_sink_bytes, never_sink_room};

use crate::fault_count::FaultCount;
use crate::room::Room;
use crate::{Fault, Memory, Sink};
use std::alloc::Global;

/// Bytes in memory, up to a room that is reserved at the start. It tells its bytes, and a text of at
/// most the room that is left meets no fault.
#[derive(Drop)]
pub struct NeverSink {
    room: Room,
    faults: FaultCount,
}

impl NeverSink {
    /// An empty sink for `room` bytes.
    pub fn new(alloc: Global, room: usize) -> Result<NeverSink, Memory>
        ensures empty { IfOk result (λ sink. never_sink_bytes sink ≡ []) }
        ensures room { IfOk result (λ sink. never_sink_room sink ≡ room) }
        ensures faults { IfOk result (λ sink. (never_sink_state sink).faults ≡ 0) }
    {
        Ok(NeverSink {
            room: Room::new(alloc, room)?,
            faults: FaultCount::new(),
        })
    }

    /// The bytes written. It takes no memory.
    pub fn bytes(&self) -> &[u8]
        ensures bytes { result.now ≡ never_sink_bytes self.now }
    {
        self.room.bytes.as_slice()
    }

    /// How many more bytes fit.
    pub fn room_left(&self) -> usize
        ensures room { result ≡ never_sink_room self.now }
    {
        self.room.free()
    }
}

impl Sink for NeverSink {
    ghost state = { never_sink_state };

    ghost sure_room = { never_sink_room };

    /// It takes no memory, and appends as much of the piece as fits.
    fn write(&mut self, piece: &[u8]) -> Result<usize, Fault>
        ensures bytes { Writes (never_sink_state self.old).written (never_sink_state self.new).written
            result piece.now }
        ensures sure { KeepsRoom (never_sink_room self.old) (never_sink_room self.new) result }
        ensures cause { HasCause (never_sink_state self.old).faults (never_sink_state self.new).faults result }
        // Exactly a nonempty piece fails where no room is left.
        ensures fails { is_err result ≡ (nat_lt 0 (length piece.now) && never_sink_room self.old == 0) }
        ensures count { IfOk result (λ n. n ≡ min (length piece.now) (never_sink_room self.old)) }
        ensures room { IfOk result (λ n. never_sink_room self.old ≡ never_sink_room self.new + n) }
        ensures kept { OnErr result (never_sink_room self.new ≡ never_sink_room self.old) }
        ensures faults { CountsFailure (never_sink_state self.old).faults (never_sink_state self.new).faults result }
    {
        let count = self.room.append(piece);
        if count == 0 && !piece.is_empty() {
            Err(self.faults.next())
        } else {
            Ok(count)
        }
    }
}
