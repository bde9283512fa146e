//! What was fed to each ticket.
ghost use Rattle.std.specs.Prelude.{◌≡◌, ◌≢◌, ℕ, ◌+◌, ◌<◌, ◌==◌, ◌++◌, [], if◌then◌else◌, length, OnOk, OnErr};
ghost use Rattle.roster.specs.Fed.{fed_to};

use mon_io::Memory;
use std::alloc::Global;
use std::marker::Model;

/// The bytes that each issued ticket was fed, by its number.
#[derive(Drop)]
pub struct Fed {
    alloc: Global,
    jobs: Vec<Vec<u8>>,
}

impl Model for Fed {
    ghost use Rattle.std.specs.Prelude.{vec_capacity};
    ghost use Rattle.roster.specs.Fed.{FedState, bytes_of};

    ghost Value = { FedState };

    ghost view = { λ fed. record { jobs = bytes_of fed.jobs.items; room = vec_capacity fed.jobs } };
}

impl Fed {
    /// No ticket. It takes no memory.
    #[tactic(auto, using(crate::proofs::Jobs::jobs_count, crate::proofs::Jobs::fed_nil))]
    pub fn new(alloc: Global) -> Fed
        ensures count { length result.jobs ≡ 0 }
        ensures bytes { (t : ℕ) → fed_to result.jobs t ≡ [] }
    {
        Fed {
            alloc,
            jobs: Vec::new(alloc),
        }
    }

    /// Takes the room of one ticket more.
    #[tactic(auto, using(crate::proofs::Jobs::jobs_count))]
    pub fn reserve(&mut self) -> Result<(), Memory>
        ensures jobs { self.new.jobs ≡ self.old.jobs }
        ensures room { OnOk result (length self.new.jobs < self.new.room) }
    {
        match self.jobs.reserve(1) {
            Ok(()) => Ok(()),
            Err(_) => Err(Memory),
        }
    }

    /// Adds the next ticket, which was fed nothing. There is room for it.
    #[tactic(auto, using(crate::proofs::Jobs::jobs_count, crate::proofs::Jobs::fed_push))]
    pub fn add_ticket(&mut self)
        requires room { length self.old.jobs < self.old.room }
        ensures count { length self.new.jobs ≡ length self.old.jobs + 1 }
        ensures bytes { (t : ℕ) → fed_to self.new.jobs t ≡ fed_to self.old.jobs t }
    {
        self.jobs.push_reserved(Vec::new(self.alloc));
    }

    /// Feeds a piece to a ticket. Where memory is wanted, nothing changes.
    #[tactic(auto, using(crate::proofs::Jobs::jobs_count, crate::proofs::Jobs::fed_set, crate::proofs::Jobs::set_count))]
    pub fn append(&mut self, ticket: u32, piece: &[u8]) -> Result<(), Memory>
        requires known { ticket < length self.old.jobs }
        ensures count { length self.new.jobs ≡ length self.old.jobs }
        ensures bytes { OnOk result ((t : ℕ) → fed_to self.new.jobs t ≡ (if t == ticket then fed_to self.old.jobs t ++ piece.now else fed_to self.old.jobs t)) }
        ensures stays { OnErr result ((t : ℕ) → fed_to self.new.jobs t ≡ fed_to self.old.jobs t) }
    {
        let Ok(()) = self.jobs[ticket as usize].extend_from_slice(piece) else {
            return Err(Memory);
        };
        Ok(())
    }

    /// Forgets what a ticket was fed.
    #[tactic(auto, using(crate::proofs::Jobs::jobs_count, crate::proofs::Jobs::fed_other, crate::proofs::Jobs::set_count))]
    pub fn forget(&mut self, ticket: u32)
        requires known { ticket < length self.old.jobs }
        ensures count { length self.new.jobs ≡ length self.old.jobs }
        ensures bytes { (t : ℕ) → t ≢ ticket → fed_to self.new.jobs t ≡ fed_to self.old.jobs t }
    {
        self.jobs[ticket as usize] = Vec::new(self.alloc);
    }

    /// The bytes that a ticket was fed.
    #[tactic(auto, using(crate::proofs::Jobs::jobs_count, crate::proofs::Jobs::fed_at))]
    pub fn bytes(&self, ticket: u32) -> &[u8]
        requires known { ticket < length self.now.jobs }
        ensures value { result.now ≡ fed_to self.now.jobs ticket }
    {
        &self.jobs[ticket as usize]
    }
}
