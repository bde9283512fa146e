//! A crew of children, each known by its ticket.
ghost use Rattle.std.specs.Prelude.{◌≡◌, ◌-◌, ◌^◌, ◌<◌, ℕ, true, false};
ghost use Rattle.crew.specs.Crew.{CrewState, Started, Fed, Sealed, Waited, Leaves};
ghost use Rattle.crew.specs.Log.{Entry};

use crate::{CrewStop, Event};
use mon_io::Memory;

/// Starts children, feeds them, and waits for what they answer. No call changes whether the log is told, nor a ticket
/// but the one that it names.
pub trait Spawner {
    /// The log, the number of tickets issued, the tickets that are out and those that are sealed, and the count of
    /// faults, which never falls.
    ghost state: { Self → CrewState };

    /// How many tickets were issued, which is the next ticket.
    fn issued(&self) -> u32
        ensures value { result ≡ (state self.now).issued };

    /// Starts a child under the next ticket. One more ticket is issued then, also where the start fails.
    fn start(&mut self, ticket: u32) -> Result<(), CrewStop>
        requires next { ticket ≡ (state self.old).issued }
        requires small { ticket < 2 ^ 32 - 1 }
        ensures started { Started ticket (state self.old) (state self.new) result };

    /// Gives the child the next piece of its job. The ticket stays out, also where this fails.
    fn feed(&mut self, ticket: u32, piece: &[u8]) -> Result<(), CrewStop>
        requires out { (state self.old).is_out ticket ≡ true }
        requires open { (state self.old).is_sealed ticket ≡ false }
        ensures fed { Fed ticket piece.now (state self.old) (state self.new) result };

    /// Tells the child that its job is whole. The ticket stays out, also where this fails.
    fn seal(&mut self, ticket: u32) -> Result<(), CrewStop>
        requires out { (state self.old).is_out ticket ≡ true }
        requires open { (state self.old).is_sealed ticket ≡ false }
        ensures sealed { Sealed ticket (state self.old) (state self.new) result };

    /// Waits for an event of some child. It may name a ticket that is out no longer; where it wants for memory,
    /// nothing was taken.
    fn wait(&mut self) -> Result<Event, Memory>
        requires some { (t : ℕ) × ((state self.old).is_out t ≡ true) }
        ensures waited { Waited (state self.old) (state self.new) result };

    /// Ends the child. It takes no memory.
    fn stop(&mut self, ticket: u32)
        requires out { (state self.old).is_out ticket ≡ true }
        ensures stopped { Leaves ticket (Entry.Stopped ticket) (state self.old) (state self.new) };

    /// Each ticket that is out was issued.
    ghost known: { (crew : Self) (t : ℕ) → (state crew).is_out t ≡ true → t < (state crew).issued };
}
