//! A writer as a sink, and standard output: a trusted edge.
ghost use Rattle.std.specs.Prelude.{◌≡◌, None};
ghost use Rattle.mon_io.specs.Faults.{HasCause};
ghost use Rattle.mon_io.specs.HostSink.{PassesOn};
ghost use Rattle.mon_io.specs.Sink.{SinkState, KeepsRoom, Writes};

use crate::fault_count::FaultCount;
use crate::{Fault, Sink};
use std::io;
use std::io::{Printer, Write};

/// A writer, as the standard output. It tells no bytes, and counts each write that fails or takes nothing.
#[derive(Drop)]
pub struct HostSink<W> {
    pub(crate) writer: W,
    faults: FaultCount,
}

impl<'a, R: Print> HostSink<Printer<'a, R>> {
    /// The standard output of `R`, with no fault so far.
    pub fn new(rt: &'a R) -> Self
        ensures faults { (⟦<HostSink<Printer<'a, R>> as Sink>⟧.state result).faults ≡ 0 }
    {
        HostSink::over(io::writer(rt))
    }
}

impl<W: Write> HostSink<W> {
    // A writer, with no fault so far.
    pub(crate) fn over(writer: W) -> Self
        ensures faults { result.faults.count ≡ 0 }
        ensures writer { result.writer ≡ writer }
    {
        HostSink {
            writer,
            faults: FaultCount::new(),
        }
    }
}

impl<W: Write> Sink for HostSink<W> {
    ghost state = { λ sink. record { written = None; faults = sink.faults.count } };

    ghost sure_room = { λ _. 0 };

    fn write(&mut self, piece: &[u8]) -> Result<usize, Fault>
        ensures bytes { Writes None None result piece.now }
        ensures sure { KeepsRoom 0 0 result }
        ensures cause { HasCause self.old.faults.count self.new.faults.count result }
        // The writer was given the bytes that are answered for, and no other.
        ensures passed { PassesOn (W.contents self.old.writer) (W.contents self.new.writer) result piece.now }
    {
        match self.writer.write(piece) {
            Err(_) => Err(self.faults.next()),
            Ok(0) if !piece.is_empty() => Err(self.faults.next()),
            Ok(count) => Ok(count),
        }
    }
}
