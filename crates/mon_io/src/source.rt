//! What the files and the standard input of a program are read from.
ghost use Rattle.mon_io.specs.Source.{source_remaining};

use std::io;
use std::io::Read;

/// The stream that is picked.
#[derive(Drop)]
pub(crate) enum Source<F, S> {
    Nothing,
    File(F),
    Standard(S),
}

impl<F: Read, S: Read> Read for Source<F, S> {
    ghost remaining = { source_remaining F.remaining S.remaining };

    fn read(&mut self, buf: &mut [u8]) -> io::Result<usize> {
        match self {
            Source::Nothing => Ok(0),
            Source::File(file) => file.read(buf),
            Source::Standard(input) => input.read(buf),
        }
    }
}
