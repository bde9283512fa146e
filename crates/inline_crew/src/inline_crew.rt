//! The crew that answers in this process.
ghost use Rattle.std.specs.Prelude.{◌≡◌, ◌+◌, ◌≤◌, ℕ, Some, [], true, false, length};
ghost use Rattle.mon_io.specs.Faults.{next_count};
ghost use Rattle.crew.specs.Crew.{CrewState};
ghost use Rattle.crew.specs.Kept.{log_of};
ghost use Rattle.crew.specs.Log.{AreAnswered};
ghost use Rattle.roster.specs.Roster.{is_out, is_sealed};
ghost use Rattle.inline_crew.specs.InOrder.{InOrder};
ghost use Rattle.inline_crew.specs.Keeps.{Keeps};

use crew::{AnswerStop, Answerer, CrewStop, Event, Log, LogEntry, Spawner};
use mon_io::Memory;
use roster::{Fed, Roster};
use std::alloc::Global;

// How many tickets may be out.
const PLACES: usize = 64;

/// Children that are answered in this process, when they are waited for.
#[derive(Drop)]
pub struct InlineCrew<A: Answerer + Drop> {
    alloc: Global,
    answerer: A,
    roster: Roster,
    fed: Fed,
    log: Log,
    faults: u64,
    ghost keeps: { Keeps roster fed log },
    ghost ordered: { ∥ InOrder log.entries ∥₁ },
    ghost answered: { (A.state answerer).is_told ≡ true → ∥ AreAnswered (A.answers answerer) (A.refuses answerer) log.entries ∥₁ },
}

impl<A: Answerer + Drop> InlineCrew<A> {
    /// No child, no entry and no fault so far. It takes no memory.
    pub fn new(alloc: Global, answerer: A) -> Self
        ensures log { (⟦<InlineCrew<A> as Spawner>⟧.state result).log ≡ Some [] }
        ensures issued { (⟦<InlineCrew<A> as Spawner>⟧.state result).issued ≡ 0 }
        ensures out { (t : ℕ) → (⟦<InlineCrew<A> as Spawner>⟧.state result).is_out t ≡ false }
        ensures faults { (⟦<InlineCrew<A> as Spawner>⟧.state result).faults ≡ 0 }
    {
        InlineCrew {
            alloc,
            answerer,
            roster: Roster::new(alloc),
            fed: Fed::new(alloc),
            log: Log::new(alloc),
            faults: 0,
        }
    }

    /// The log, the oldest entry first. It takes no memory.
    pub fn entries(&self) -> &[LogEntry]
        ensures value { Some (log_of result.now) ≡ (⟦<InlineCrew<A> as Spawner>⟧.state self.now).log }
        ensures order { ∥ InOrder (log_of result.now) ∥₁ }
        ensures answered { (A.state self.now.answerer).is_told ≡ true
            → ∥ AreAnswered (A.answers self.now.answerer) (A.refuses self.now.answerer) (log_of result.now) ∥₁ }
    {
        self.log.entries()
    }

    // Counts a fault.
    fn count_fault(&mut self)
        ensures raised { self.new.faults ≡ next_count self.old.faults }
        ensures later { self.old.faults ≤ self.new.faults }
        ensures roster { self.new.roster ≡ self.old.roster }
        ensures log { self.new.log ≡ self.old.log }
    {
        self.faults = self.faults.saturating_add(1);
    }
}

impl<A: Answerer + Drop> Spawner for InlineCrew<A> {
    ghost state = { λ crew. record {
      log = Some crew.log.entries;
      issued = crew.roster.issued;
      is_out = is_out crew.roster.marks;
      is_sealed = is_sealed crew.roster.marks;
      faults = crew.faults;
    } };

    ghost known = { λ crew t out. crew.keeps.known t out };

    fn issued(&self) -> u32 {
        self.roster.issued()
    }

    /// It fails exactly where 64 tickets are out.
    fn start(&mut self, ticket: u32) -> Result<(), CrewStop> {
        let out = self.roster.len();
        let Ok(()) = self.fed.reserve() else {
            return Err(CrewStop::Memory);
        };
        let Ok(()) = self.log.reserve(out + 2) else {
            return Err(CrewStop::Memory);
        };
        if out >= PLACES {
            self.roster.pass();
            self.fed.add_ticket();
            self.log.note(LogEntry::StartFailed { ticket });
            self.count_fault();
            return Err(CrewStop::Fault);
        }
        let Ok(()) = self.roster.reserve() else {
            return Err(CrewStop::Memory);
        };
        self.roster.join();
        self.fed.add_ticket();
        self.log.note(LogEntry::Started { ticket });
        Ok(())
    }

    /// It keeps the piece, and never fails.
    fn feed(&mut self, ticket: u32, piece: &[u8]) -> Result<(), CrewStop> {
        let Ok(entry) = LogEntry::fed(self.alloc, ticket, piece) else {
            return Err(CrewStop::Memory);
        };
        let Ok(()) = self.log.reserve(self.roster.len() + 1) else {
            return Err(CrewStop::Memory);
        };
        let Ok(()) = self.fed.append(ticket, piece) else {
            return Err(CrewStop::Memory);
        };
        self.log.note(entry);
        Ok(())
    }

    /// It never fails.
    fn seal(&mut self, ticket: u32) -> Result<(), CrewStop> {
        let place = self.roster.place_of(ticket);
        let Ok(()) = self.log.reserve(self.roster.len() + 1) else {
            return Err(CrewStop::Memory);
        };
        self.roster.seal(place);
        self.log.note(LogEntry::Sealed { ticket });
        Ok(())
    }

    /// Answers the oldest ticket that is out: `Died` comes exactly where the answerer has no answer.
    fn wait(&mut self) -> Result<Event, Memory> {
        let ticket = self.roster.oldest();
        let mut bytes = Vec::new(self.alloc);
        match self.answerer.answer(self.fed.bytes(ticket), &mut bytes) {
            Ok(()) => {
                let entry = LogEntry::reply(self.alloc, ticket, &bytes)?;
                self.roster.leave(0);
                self.fed.forget(ticket);
                self.log.note(entry);
                Ok(Event::Reply { ticket, bytes })
            }
            Err(AnswerStop::Memory) => Err(Memory),
            Err(AnswerStop::Fault) => {
                self.roster.leave(0);
                self.fed.forget(ticket);
                self.log.note(LogEntry::Died { ticket });
                self.count_fault();
                Ok(Event::Died { ticket })
            }
        }
    }

    fn stop(&mut self, ticket: u32) {
        let place = self.roster.place_of(ticket);
        self.roster.leave(place);
        self.fed.forget(ticket);
        self.log.note(LogEntry::Stopped { ticket });
    }
}
