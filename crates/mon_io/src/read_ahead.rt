//! A stream that is read ahead.
ghost use Rattle.std.specs.Prelude.{◌≡◌, ◌<◌, ◌≤◌, ◌++◌, [], length, min, take, OnOk};
ghost use Rattle.std.specs.Io.{ReadsAtMost};
ghost use Rattle.std.specs.Io.KnownBytes.{IsAtEnd, Keeps, ReadConsumes};
ghost use Rattle.mon_io.specs.declared.read_ahead.TheConstants.{AHEAD};

use crate::front::copy_front;
use std::io;
use std::io::Read;

/// How many bytes are read at once: 64 KiB.
pub(crate) const AHEAD: usize = 65536;

/// A stream, and the bytes that were read of it and not yet taken, at most `AHEAD`.
#[derive(Drop)]
pub(crate) struct ReadAhead<S> {
    pub(crate) stream: S,
    ahead: [u8; AHEAD],
    start: usize,
    end: usize,
    ghost ordered: { start ≤ end },
    ghost within: { end ≤ AHEAD },
}

impl<S: Read> ReadAhead<S> {
    ghost use Rattle.mon_io.specs.ReadAhead.{bytes_ahead, remaining_behind};

    /// A stream of which nothing is read ahead.
    pub(crate) fn new(stream: S) -> Self
        ensures none { bytes_ahead result ≡ [] }
        ensures stream { result.stream ≡ stream }
    {
        ReadAhead {
            stream,
            ahead: [0; AHEAD],
            start: 0,
            end: 0,
        }
    }

    /// Takes what is ahead, and where nothing is, what the stream gives: none only at its end or with
    /// no room. A failed read takes nothing.
    #[inline]
    pub(crate) fn read(&mut self, buf: &mut [u8]) -> io::Result<usize>
        ensures bound { ReadsAtMost result buf.new }
        ensures bytes { ReadConsumes (remaining_behind S.remaining self.old)
            (remaining_behind S.remaining self.new) result buf.new }
    {
        if self.start == self.end && buf.len() >= AHEAD {
            return self.stream.read(buf);
        }
        self.fill()?;
        Ok(self.take(buf))
    }

    // Where nothing is ahead, reads ahead as much as the stream gives at once.
    #[inline]
    fn fill(&mut self) -> io::Result<()>
        ensures kept { Keeps (remaining_behind S.remaining self.old) (remaining_behind S.remaining self.new) }
        ensures end { OnOk result (bytes_ahead self.new ≡ [] → IsAtEnd (S.remaining self.new.stream)) }
    {
        if self.start < self.end {
            return Ok(());
        }
        let count = self.stream.read(&mut self.ahead)?;
        self.start = 0;
        self.end = count;
        Ok(())
    }

    // Takes off what is ahead, as much as there is or fits into `buf`.
    #[inline]
    fn take(&mut self, buf: &mut [u8]) -> usize
        ensures count { result ≡ min (length (bytes_ahead self.old)) (length buf.new) }
        ensures taken { bytes_ahead self.old ≡ take result buf.new ++ bytes_ahead self.new }
        ensures stream { self.new.stream ≡ self.old.stream }
    {
        let count = copy_front(&self.ahead[self.start..self.end], buf);
        self.start += count;
        count
    }
}
