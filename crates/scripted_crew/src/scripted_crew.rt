//! The crew that fails and answers by a script.
ghost use Rattle.std.specs.Prelude.{◌≡◌, ◌-◌, ◌^◌, ◌≤◌, ◌||◌, ℕ, Some, [], true, false, IfOk, min, nat_le};
ghost use Rattle.mon_io.specs.Faults.{next_count};
ghost use Rattle.crew.specs.Crew.{CrewState};
ghost use Rattle.crew.specs.Kept.{log_of};
ghost use Rattle.roster.specs.Roster.{is_out, is_sealed};
ghost use Rattle.scripted_crew.specs.Keeps.{Keeps};
ghost use Rattle.scripted_crew.specs.Script.{deeds_of, failures_in, is_listed, script, IsScripted};

use crate::Act;
use crate::act::{behind, event_of, is_listed, next_act};
use crew::{Answerer, CrewStop, Event, Log, LogEntry, Spawner};
use mon_io::Memory;
use roster::{Fed, Roster};
use std::alloc::Global;

// How many tickets may be out.
const PLACES: usize = 64;

/// Children that fail and answer by a script, over an `Answerer`.
#[derive(Drop)]
pub struct ScriptedCrew<A: Answerer + Drop> {
    alloc: Global,
    answerer: A,
    starts_fail: Vec<u32>,
    feeds_fail: Vec<u32>,
    seals_fail: Vec<u32>,
    acts: Vec<Act>,
    done: usize,
    roster: Roster,
    started: Vec<u32>,
    fed: Fed,
    log: Log,
    faults: u64,
    ghost keeps: { Keeps roster fed log started.items (deeds_of acts.items) done faults },
    ghost scripted: { (A.state answerer).is_told ≡ true → ∥ IsScripted
        (script starts_fail.items feeds_fail.items seals_fail.items (deeds_of acts.items))
        (A.answers answerer) (A.refuses answerer) log.entries ∥₁ },
}

impl<A: Answerer + Drop> ScriptedCrew<A> {
    /// A crew of which the calls of the listed tickets fail, and whose waits give these acts first.
    pub fn new(
        alloc: Global,
        answerer: A,
        starts_fail: Vec<u32>,
        feeds_fail: Vec<u32>,
        seals_fail: Vec<u32>,
        acts: Vec<Act>,
    ) -> Result<ScriptedCrew<A>, Memory>
        ensures log { IfOk result (λ crew. (⟦<ScriptedCrew<A> as Spawner>⟧.state crew).log ≡ Some []) }
        ensures issued { IfOk result (λ crew. (⟦<ScriptedCrew<A> as Spawner>⟧.state crew).issued ≡ 0) }
        ensures out { IfOk result (λ crew. (t : ℕ) → (⟦<ScriptedCrew<A> as Spawner>⟧.state crew).is_out t ≡ false) }
        ensures faults { IfOk result (λ crew. (⟦<ScriptedCrew<A> as Spawner>⟧.state crew).faults ≡ 0) }
    {
        Ok(ScriptedCrew {
            alloc,
            answerer,
            starts_fail,
            feeds_fail,
            seals_fail,
            acts,
            done: 0,
            roster: Roster::new(alloc),
            started: Vec::new(alloc),
            fed: Fed::new(alloc),
            log: Log::new(alloc),
            faults: 0,
        })
    }

    /// The log, the oldest entry first. It takes no memory.
    pub fn entries(&self) -> &[LogEntry]
        ensures value { Some (log_of result.now) ≡ (⟦<ScriptedCrew<A> as Spawner>⟧.state self.now).log }
        ensures counted { (⟦<ScriptedCrew<A> as Spawner>⟧.state self.now).faults ≡ min (failures_in (log_of result.now)) (2 ^ 64 - 1) }
        ensures scripted { (A.state self.now.answerer).is_told ≡ true → ∥ IsScripted
            (script self.now.starts_fail.items self.now.feeds_fail.items self.now.seals_fail.items (deeds_of self.now.acts.items))
            (A.answers self.now.answerer) (A.refuses self.now.answerer) (log_of result.now) ∥₁ }
    {
        self.log.entries()
    }

    /// What the waits give, in order. It takes no memory.
    pub fn acts(&self) -> &[Act]
        ensures value { result.now ≡ self.now.acts.items }
    {
        self.acts.as_slice()
    }
}

// A count of faults, one on.
fn raised(faults: u64) -> u64
    ensures value { result ≡ next_count faults }
    ensures later { faults ≤ result }
{
    faults.saturating_add(1)
}

// Whether a start fails where so many tickets are out.
fn start_fails(starts_fail: &[u32], ticket: u32, out: usize) -> bool
    ensures value { result ≡ (nat_le 64 out || is_listed starts_fail.now ticket) }
{
    out >= PLACES || is_listed(starts_fail, ticket)
}

impl<A: Answerer + Drop> Spawner for ScriptedCrew<A> {
    ghost state = { λ crew. record {
      log = Some crew.log.entries;
      issued = crew.roster.issued;
      is_out = is_out crew.roster.marks;
      is_sealed = is_sealed crew.roster.marks;
      faults = crew.faults;
    } };

    ghost known = { λ crew t out. crew.keeps.known t out };

    fn issued(&self) -> u32 {
        self.roster.issued()
    }

    /// It fails exactly where its ticket is listed, or 64 tickets are out.
    fn start(&mut self, ticket: u32) -> Result<(), CrewStop> {
        let out = self.roster.len();
        let Ok(()) = self.fed.reserve() else {
            return Err(CrewStop::Memory);
        };
        let Ok(()) = self.log.reserve(out + 2) else {
            return Err(CrewStop::Memory);
        };
        if start_fails(&self.starts_fail, ticket, out) {
            self.roster.pass();
            self.fed.add_ticket();
            self.log.note(LogEntry::StartFailed { ticket });
            self.faults = raised(self.faults);
            return Err(CrewStop::Fault);
        }
        let Ok(()) = self.roster.reserve() else {
            return Err(CrewStop::Memory);
        };
        let Ok(()) = self.started.reserve(1) else {
            return Err(CrewStop::Memory);
        };
        self.roster.join();
        self.fed.add_ticket();
        self.started.push_reserved(ticket);
        self.log.note(LogEntry::Started { ticket });
        Ok(())
    }

    /// It fails exactly where its ticket is listed.
    fn feed(&mut self, ticket: u32, piece: &[u8]) -> Result<(), CrewStop> {
        let Ok(()) = self.log.reserve(self.roster.len() + 1) else {
            return Err(CrewStop::Memory);
        };
        if is_listed(&self.feeds_fail, ticket) {
            self.log.note(LogEntry::FeedFailed { ticket });
            self.faults = raised(self.faults);
            return Err(CrewStop::Fault);
        }
        let Ok(entry) = LogEntry::fed(self.alloc, ticket, piece) else {
            return Err(CrewStop::Memory);
        };
        let Ok(()) = self.fed.append(ticket, piece) else {
            return Err(CrewStop::Memory);
        };
        self.log.note(entry);
        Ok(())
    }

    /// It fails exactly where its ticket is listed.
    fn seal(&mut self, ticket: u32) -> Result<(), CrewStop> {
        let place = self.roster.place_of(ticket);
        let Ok(()) = self.log.reserve(self.roster.len() + 1) else {
            return Err(CrewStop::Memory);
        };
        if is_listed(&self.seals_fail, ticket) {
            self.log.note(LogEntry::FeedFailed { ticket });
            self.faults = raised(self.faults);
            return Err(CrewStop::Fault);
        }
        self.roster.seal(place);
        self.log.note(LogEntry::Sealed { ticket });
        Ok(())
    }

    /// Gives the event of the next act; where none is left, the answer of the oldest ticket that is out. Where memory is
    /// wanted, the act stays.
    fn wait(&mut self) -> Result<Event, Memory> {
        let oldest = self.roster.oldest();
        let Ok(()) = self.log.reserve(self.roster.len() + 1) else {
            return Err(Memory);
        };
        let place = next_act(&self.acts, self.done, &self.started);
        let done = behind(&self.acts, place);
        let event = event_of(
            self.alloc,
            &mut self.answerer,
            &self.acts,
            place,
            oldest,
            &self.fed,
        )?;
        match event {
            Event::Reply { ticket, bytes } => {
                let entry = LogEntry::reply(self.alloc, ticket, &bytes)?;
                self.roster.remove(ticket);
                self.done = done;
                self.log.note(entry);
                Ok(Event::Reply { ticket, bytes })
            }
            Event::Died { ticket } => {
                self.roster.remove(ticket);
                self.done = done;
                self.log.note(LogEntry::Died { ticket });
                self.faults = raised(self.faults);
                Ok(Event::Died { ticket })
            }
        }
    }

    fn stop(&mut self, ticket: u32) {
        let place = self.roster.place_of(ticket);
        self.roster.leave(place);
        self.log.note(LogEntry::Stopped { ticket });
    }
}
