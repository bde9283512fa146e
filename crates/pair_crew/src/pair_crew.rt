//! The crew that answers once two of its children were out together.
ghost use Rattle.std.specs.Prelude.{◌≡◌, ◌≤◌, ℕ, None, false};
ghost use Rattle.mon_io.specs.Faults.{next_count};
ghost use Rattle.crew.specs.Crew.{CrewState};
ghost use Rattle.roster.specs.Roster.{is_out};

use crew::{CrewStop, Event, Spawner};
use mon_io::Memory;
use roster::Roster;
use std::alloc::Global;

/// The children of another crew, of which the oldest dies at each wait until two of them were out together. It tells no
/// log, and counts each failed call and each death.
#[derive(Drop)]
pub struct PairCrew<S: Spawner + Drop> {
    crew: S,
    roster: Roster,
    have_met: bool,
    faults: u64,
    ghost out: { (t : ℕ) → is_out roster.marks t ≡ (S.state crew).is_out t },
    ghost issued: { roster.issued ≡ (S.state crew).issued },
}

impl<S: Spawner + Drop> PairCrew<S> {
    /// Over a crew of which no child was started, with no fault so far. It takes no memory.
    pub fn new(alloc: Global, crew: S) -> Self
        requires issued { (S.state crew).issued ≡ 0 }
        requires out { (t : ℕ) → (S.state crew).is_out t ≡ false }
        ensures issued { (⟦<PairCrew<S> as Spawner>⟧.state result).issued ≡ 0 }
        ensures out { (t : ℕ) → (⟦<PairCrew<S> as Spawner>⟧.state result).is_out t ≡ false }
        ensures faults { (⟦<PairCrew<S> as Spawner>⟧.state result).faults ≡ 0 }
    {
        PairCrew {
            crew,
            roster: Roster::new(alloc),
            have_met: false,
            faults: 0,
        }
    }

    /// How many calls failed and how many children died.
    pub fn faults(&self) -> u64
        ensures value { result ≡ (⟦<PairCrew<S> as Spawner>⟧.state self.now).faults }
    {
        self.faults
    }

    /// The other crew.
    pub fn inner(&self) -> &S
        ensures issued { (S.state result.now).issued ≡ (⟦<PairCrew<S> as Spawner>⟧.state self.now).issued }
        ensures out { (t : ℕ) → (S.state result.now).is_out t ≡ (⟦<PairCrew<S> as Spawner>⟧.state self.now).is_out t }
        ensures value { result.now ≡ self.now.crew }
    {
        &self.crew
    }
}

// A count of faults, one on.
fn raised(faults: u64) -> u64
    ensures value { result ≡ next_count faults }
    ensures later { faults ≤ result }
{
    faults.saturating_add(1)
}

impl<S: Spawner + Drop> Spawner for PairCrew<S> {
    ghost state = { λ pair. record {
      log = None;
      issued = (S.state pair.crew).issued;
      is_out = (S.state pair.crew).is_out;
      is_sealed = (S.state pair.crew).is_sealed;
      faults = pair.faults;
    } };

    ghost known = { λ pair t out. S.known pair.crew t out };

    fn issued(&self) -> u32 {
        self.crew.issued()
    }

    fn start(&mut self, ticket: u32) -> Result<(), CrewStop> {
        let Ok(()) = self.roster.reserve() else {
            return Err(CrewStop::Memory);
        };
        match self.crew.start(ticket) {
            Ok(()) => {
                self.roster.join();
                self.have_met = self.have_met || self.roster.len() >= 2;
                Ok(())
            }
            Err(CrewStop::Memory) => Err(CrewStop::Memory),
            Err(CrewStop::Fault) => {
                self.roster.pass();
                self.faults = raised(self.faults);
                Err(CrewStop::Fault)
            }
        }
    }

    fn feed(&mut self, ticket: u32, piece: &[u8]) -> Result<(), CrewStop> {
        match self.crew.feed(ticket, piece) {
            Ok(()) => Ok(()),
            Err(CrewStop::Memory) => Err(CrewStop::Memory),
            Err(CrewStop::Fault) => {
                self.faults = raised(self.faults);
                Err(CrewStop::Fault)
            }
        }
    }

    fn seal(&mut self, ticket: u32) -> Result<(), CrewStop> {
        match self.crew.seal(ticket) {
            Ok(()) => Ok(()),
            Err(CrewStop::Memory) => Err(CrewStop::Memory),
            Err(CrewStop::Fault) => {
                self.faults = raised(self.faults);
                Err(CrewStop::Fault)
            }
        }
    }

    fn wait(&mut self) -> Result<Event, Memory> {
        if !self.have_met {
            let ticket = self.roster.oldest();
            self.crew.stop(ticket);
            self.roster.remove(ticket);
            self.faults = raised(self.faults);
            return Ok(Event::Died { ticket });
        }
        match self.crew.wait() {
            Ok(Event::Reply { ticket, bytes }) => {
                self.roster.remove(ticket);
                Ok(Event::Reply { ticket, bytes })
            }
            Ok(Event::Died { ticket }) => {
                self.roster.remove(ticket);
                self.faults = raised(self.faults);
                Ok(Event::Died { ticket })
            }
            Err(Memory) => Err(Memory),
        }
    }

    fn stop(&mut self, ticket: u32) {
        self.crew.stop(ticket);
        self.roster.remove(ticket);
    }
}
