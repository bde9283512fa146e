//! The crew of processes.
ghost use Rattle.std.specs.Prelude.{◌≡◌, ◌≤◌, ◌<◌, ℕ, None, true, false, length};
ghost use Rattle.mon_io.specs.Faults.{next_count};
ghost use Rattle.crew.specs.Crew.{CrewState};
ghost use Rattle.roster.specs.Roster.{is_out, is_sealed};

use crate::running::{Ended, Running, started};
use crew::{CrewStop, Event, Spawner};
use mon_io::Memory;
use roster::Roster;
use std::io::ErrorKind;
use std::process::{OpenProcess, Processes};

// How many tickets may be out.
const PLACES: usize = 64;

/// Children that run `PATH child`, fed and read through pipes. It tells no log, and counts each failed call and each
/// death.
#[derive(Drop)]
pub struct ProcessCrew<'a, R: Processes> {
    rt: &'a R,
    path: String,
    roster: Roster,
    children: Vec<Running<R::Started>>,
    faults: u64,
    ghost together: { length children.items ≡ length roster.marks },
    ghost known: { (t : ℕ) → is_out roster.marks t ≡ true → t < roster.issued },
}

impl<'a, R: Processes> ProcessCrew<'a, R> {
    /// No child, and no fault so far. It takes no memory.
    pub fn new(rt: &'a R, path: String) -> Self
        ensures issued { (⟦<ProcessCrew<'a, R> as Spawner>⟧.state result).issued ≡ 0 }
        ensures out { (t : ℕ) → (⟦<ProcessCrew<'a, R> as Spawner>⟧.state result).is_out t ≡ false }
        ensures faults { (⟦<ProcessCrew<'a, R> as Spawner>⟧.state result).faults ≡ 0 }
    {
        let alloc = *path.allocator();
        ProcessCrew {
            rt,
            path,
            roster: Roster::new(alloc),
            children: Vec::new(alloc),
            faults: 0,
        }
    }

    // Counts a failure.
    fn fault(&mut self) -> CrewStop
        ensures raised { self.new.faults ≡ next_count self.old.faults }
        ensures later { self.old.faults ≤ self.new.faults }
        ensures roster { self.new.roster ≡ self.old.roster }
        ensures value { result ≡ CrewStop.Fault }
    {
        self.faults = self.faults.saturating_add(1);
        CrewStop::Fault
    }
}

impl<'a, R: Processes> Spawner for ProcessCrew<'a, R> {
    ghost state = { λ crew. record {
      log = None;
      issued = crew.roster.issued;
      is_out = is_out crew.roster.marks;
      is_sealed = is_sealed crew.roster.marks;
      faults = crew.faults;
    } };

    ghost known = { λ crew t out. crew.known t out };

    fn issued(&self) -> u32 {
        self.roster.issued()
    }

    /// Starts `PATH child`. It fails where 64 tickets are out, or the system starts no process; where memory is wanted,
    /// no child is left.
    fn start(&mut self, _ticket: u32) -> Result<(), CrewStop> {
        if self.roster.len() >= PLACES {
            self.roster.pass();
            return Err(self.fault());
        }
        let Ok(()) = self.roster.reserve() else {
            return Err(CrewStop::Memory);
        };
        let Ok(()) = self.children.reserve(1) else {
            return Err(CrewStop::Memory);
        };
        let alloc = *self.path.allocator();
        match started(self.rt, alloc, &self.path) {
            Ok(child) => {
                self.roster.join();
                self.children.push_reserved(child);
                Ok(())
            }
            Err(error) if error.kind() == ErrorKind::OutOfMemory => Err(CrewStop::Memory),
            Err(_) => {
                self.roster.pass();
                Err(self.fault())
            }
        }
    }

    /// Writes the piece to the child's standard input. It may wait for the child to read.
    fn feed(&mut self, ticket: u32, piece: &[u8]) -> Result<(), CrewStop> {
        let place = self.roster.place_of(ticket);
        match self.children[place].feed(piece) {
            Ok(()) => Ok(()),
            Err(_) => Err(self.fault()),
        }
    }

    /// Closes the child's standard input.
    fn seal(&mut self, ticket: u32) -> Result<(), CrewStop> {
        let place = self.roster.place_of(ticket);
        self.children[place].seal();
        self.roster.seal(place);
        Ok(())
    }

    /// Reads the whole output of the oldest ticket that is out, and waits for the end of its child. Status 0 with at
    /// most 33,554,432 bytes is a reply. Where memory is wanted, what was read is kept.
    fn wait(&mut self) -> Result<Event, Memory> {
        let ticket = self.roster.oldest();
        self.children[0].seal();
        let ended = self.children[0].read_output()?;
        let mut child = self.children.remove(0);
        self.roster.leave(0);
        if has_replied(ended, &mut child) {
            Ok(Event::Reply {
                ticket,
                bytes: child.into_output(),
            })
        } else {
            let _ = self.fault();
            Ok(Event::Died { ticket })
        }
    }

    /// Kills the child, closes both pipes and waits for its end.
    fn stop(&mut self, ticket: u32) {
        let place = self.roster.place_of(ticket);
        let mut child = self.children.remove(place);
        self.roster.leave(place);
        child.stop();
    }
}

// Whether a child whose output was read ended with status 0. It has ended then in any case.
fn has_replied<P: OpenProcess>(ended: Ended, child: &mut Running<P>) -> bool {
    match ended {
        Ended::Whole => child.end(),
        Ended::Broken => {
            child.stop();
            false
        }
    }
}
