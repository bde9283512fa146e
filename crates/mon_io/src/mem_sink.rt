//! A sink in memory, with writes that fail on demand.
ghost use Rattle.std.specs.Prelude.{◌≡◌, ◌≤◌, ◌||◌, ◌&&◌, ◌==◌, ◌+◌, [], IfOk, OnErr, is_err, nat_lt, length, min};
ghost use Rattle.mon_io.specs.Faults.{HasCause, CountsFailure, is_due, next_count};
ghost use Rattle.mon_io.specs.Sink.{Writes, KeepsRoom};
ghost use Rattle.mon_io.specs.MemSink.{mem_sink_state, mem_sink_bytes, mem_sink_room, failing_writes, writes_made};

use crate::fault_count::FaultCount;
use crate::room::Room;
use crate::script::Script;
use crate::{Fault, Memory, Sink};
use std::alloc::Global;

/// Bytes in memory, up to a room that is reserved at the start. It tells its bytes.
#[derive(Drop)]
pub struct MemSink {
    room: Room,
    script: Script,
    faults: FaultCount,
}

impl MemSink {
    /// An empty sink for `room` bytes, of which the writes with these numbers, counted from 0, fail.
    pub fn new(alloc: Global, room: usize, fails: Vec<u32>) -> Result<MemSink, Memory>
        ensures empty { IfOk result (λ sink. mem_sink_bytes sink ≡ []) }
        ensures room { IfOk result (λ sink. mem_sink_room sink ≡ room) }
        ensures faults { IfOk result (λ sink. (mem_sink_state sink).faults ≡ 0) }
        ensures fails { IfOk result (λ sink. failing_writes sink ≡ fails.items) }
        ensures calls { IfOk result (λ sink. writes_made sink ≡ 0) }
    {
        Ok(MemSink {
            room: Room::new(alloc, room)?,
            script: Script::new(fails),
            faults: FaultCount::new(),
        })
    }

    /// The bytes written. It takes no memory.
    pub fn bytes(&self) -> &[u8]
        ensures bytes { result.now ≡ mem_sink_bytes self.now }
    {
        self.room.bytes.as_slice()
    }
}

impl Sink for MemSink {
    ghost state = { mem_sink_state };

    ghost sure_room = { λ _. 0 };

    /// It takes no memory, and appends as much of the piece as fits.
    fn write(&mut self, piece: &[u8]) -> Result<usize, Fault>
        ensures bytes { Writes (mem_sink_state self.old).written (mem_sink_state self.new).written result piece.now }
        ensures sure { KeepsRoom 0 0 result }
        ensures cause { HasCause (mem_sink_state self.old).faults (mem_sink_state self.new).faults result }
        // Exactly the writes of the list fail, and those of a nonempty piece where no room is left.
        ensures fails { is_err result ≡ (is_due (failing_writes self.old) (writes_made self.old)
            || (nat_lt 0 (length piece.now) && mem_sink_room self.old == 0)) }
        ensures count { IfOk result (λ n. n ≡ min (length piece.now) (mem_sink_room self.old)) }
        ensures room { IfOk result (λ n. mem_sink_room self.old ≡ mem_sink_room self.new + n) }
        ensures kept { OnErr result (mem_sink_room self.new ≡ mem_sink_room self.old) }
        ensures faults { CountsFailure (mem_sink_state self.old).faults (mem_sink_state self.new).faults result }
        ensures counts { writes_made self.new ≡ next_count (writes_made self.old) }
        ensures script { failing_writes self.new ≡ failing_writes self.old }
    {
        if self.script.next_fails() {
            return Err(self.faults.next());
        }
        let count = self.room.append(piece);
        if count == 0 && !piece.is_empty() {
            Err(self.faults.next())
        } else {
            Ok(count)
        }
    }
}
