//! A child that was started.

use mon_io::Memory;
use std::alloc::Global;
use std::io;
use std::io::{ErrorKind, Read, Write};
use std::process::{Child, Command, OpenProcess, Processes, Stdio};

/// The most bytes that a reply has.
pub(crate) const REPLY_BYTES: usize = 33_554_432;

// How many bytes are read at once.
const CHUNK: usize = 65_536;

/// A child, and what was read of its output.
#[derive(Drop)]
pub(crate) struct Running<P: OpenProcess> {
    child: Child<P>,
    output: Vec<u8>,
}

/// How the reading of an output ended.
#[derive(Clone, Copy, PartialEq, Eq)]
pub(crate) enum Ended {
    /// The child closed its output.
    Whole,
    /// There are more bytes than a reply has, or a read failed.
    Broken,
}

/// Starts `path` with the word `child`, its input and its output as pipes.
pub(crate) fn started<R: Processes>(
    rt: &R,
    alloc: Global,
    path: &str,
) -> io::Result<Running<R::Started>> {
    let mut command = Command::new(alloc, path)?;
    command.arg("child")?;
    command.stdin(Stdio::piped());
    command.stdout(Stdio::piped());
    let child = command.spawn(rt)?;
    Ok(Running {
        child,
        output: Vec::new(alloc),
    })
}

impl<P: OpenProcess> Running<P> {
    /// Writes the whole piece to the child's input.
    pub(crate) fn feed(&mut self, piece: &[u8]) -> io::Result<()> {
        match &mut self.child.stdin {
            Some(input) => input.write_all(piece),
            None => Err(io::Error::from(ErrorKind::BrokenPipe)),
        }
    }

    /// Closes the child's input.
    pub(crate) fn seal(&mut self) {
        drop(self.child.stdin.take());
    }

    /// Reads on to the end of the output, or to one byte more than a reply has. What was read is kept.
    pub(crate) fn read_output(&mut self) -> Result<Ended, Memory> {
        let Some(stdout) = &mut self.child.stdout else {
            return Ok(Ended::Broken);
        };
        let mut chunk = [0u8; CHUNK];
        for _ in 0..u64::MAX {
            let Ok(()) = self.output.reserve(CHUNK) else {
                return Err(Memory);
            };
            match stdout.read(&mut chunk) {
                Ok(0) => return Ok(Ended::Whole),
                Ok(count) => {
                    let Ok(()) = self.output.extend_from_slice(&chunk[..count]) else {
                        return Err(Memory);
                    };
                }
                Err(error) if error.kind() == ErrorKind::Interrupted => {}
                Err(_) => return Ok(Ended::Broken),
            }
            if self.output.len() > REPLY_BYTES {
                return Ok(Ended::Broken);
            }
        }
        Ok(Ended::Broken)
    }

    /// Waits for the end of a child that closed its output. It tells whether that was with status 0.
    pub(crate) fn end(&mut self) -> bool {
        match self.child.wait() {
            Ok(status) => status.success(),
            Err(_) => false,
        }
    }

    /// Kills the child, closes both pipes and waits for its end.
    pub(crate) fn stop(&mut self) {
        let _ = self.child.kill();
        drop(self.child.stdin.take());
        drop(self.child.stdout.take());
        let _ = self.child.wait();
    }

    /// The bytes that were read.
    pub(crate) fn into_output(self) -> Vec<u8>
    where
        P: Drop,
    {
        self.output
    }
}
