//! The log as a crew keeps it, the oldest entry first.
ghost use Rattle.std.specs.Prelude.{◌≡◌, ◌+◌, ◌≤◌, ◌<◌, ◌∷◌, [], length, IfOk, OnOk};
ghost use Rattle.crew.specs.Kept.{entry_of, log_of};
ghost use Rattle.crew.specs.Log.{Entry};

use mon_io::Memory;
use std::alloc::Global;
use std::marker::Model;

/// One return of a call of a crew that did not want for memory. Each names its ticket.
#[derive(Debug, Drop)]
pub enum LogEntry {
    /// The ticket was drawn, and its child started.
    Started { ticket: u32 },
    /// The ticket was drawn, and its child could not be started.
    StartFailed { ticket: u32 },
    /// The child got the next piece of its job.
    Fed { ticket: u32, piece: Vec<u8> },
    /// The child could not be fed, or its job not be sealed.
    FeedFailed { ticket: u32 },
    /// The child's job is whole.
    Sealed { ticket: u32 },
    /// A reply came.
    Reply { ticket: u32, bytes: Vec<u8> },
    /// A child ended without a reply.
    Died { ticket: u32 },
    /// The child was ended.
    Stopped { ticket: u32 },
}

impl LogEntry {
    /// The entry of a feed, with a copy of the piece.
    pub fn fed(alloc: Global, ticket: u32, piece: &[u8]) -> Result<LogEntry, Memory>
        ensures entry { IfOk result (λ entry. entry_of entry ≡ Entry.Fed ticket piece.now) }
    {
        match piece.to_vec(alloc) {
            Ok(piece) => Ok(LogEntry::Fed { ticket, piece }),
            Err(_) => Err(Memory),
        }
    }

    /// The entry of a reply, with a copy of its bytes.
    pub fn reply(alloc: Global, ticket: u32, bytes: &[u8]) -> Result<LogEntry, Memory>
        ensures entry { IfOk result (λ entry. entry_of entry ≡ Entry.Reply ticket bytes.now) }
    {
        match bytes.to_vec(alloc) {
            Ok(bytes) => Ok(LogEntry::Reply { ticket, bytes }),
            Err(_) => Err(Memory),
        }
    }
}

/// The entries of a log, with room for more. Clauses see the newest first.
#[derive(Drop)]
pub struct Log {
    kept: Vec<LogEntry>,
}

impl Model for Log {
    ghost use Rattle.std.specs.Prelude.{vec_capacity};
    ghost use Rattle.crew.specs.Kept.{LogState, log_of};

    ghost Value = { LogState };

    ghost view = { λ log. record { entries = log_of log.kept.items; room = vec_capacity log.kept } };
}

impl Log {
    /// A log of no entry. It takes no memory.
    #[tactic(auto, unfolding(crate::specs::Kept::log_of))]
    pub fn new(alloc: Global) -> Log
        ensures entries { result.entries ≡ [] }
    {
        Log {
            kept: Vec::new(alloc),
        }
    }

    /// Takes the room of so many entries more.
    #[tactic(auto, using(crate::proofs::Entries::log_length))]
    pub fn reserve(&mut self, more: usize) -> Result<(), Memory>
        ensures entries { self.new.entries ≡ self.old.entries }
        ensures grows { self.old.room ≤ self.new.room }
        ensures room { OnOk result (length self.new.entries + more ≤ self.new.room) }
    {
        match self.kept.reserve(more) {
            Ok(()) => Ok(()),
            Err(_) => Err(Memory),
        }
    }

    /// Appends an entry, for which there is room.
    #[tactic(auto, using(crate::proofs::Entries::log_length, crate::proofs::Entries::log_push))]
    pub fn note(&mut self, entry: LogEntry)
        requires room { length self.old.entries < self.old.room }
        ensures entries { self.new.entries ≡ entry_of entry ∷ self.old.entries }
        ensures room { self.new.room ≡ self.old.room }
    {
        self.kept.push_reserved(entry);
    }

    /// The entries, the oldest first. It takes no memory.
    pub fn entries(&self) -> &[LogEntry]
        ensures value { log_of result.now ≡ self.now.entries }
    {
        &self.kept
    }
}
