//! Calls of a crew of which it is known how they end.
ghost use Rattle.std.specs.Prelude.{◌≡◌, ◌+◌, ◌-◌, ◌^◌, ◌<◌, true, false};
ghost use Rattle.crew.specs.Crew.{Closes, Dies, Fails, Joins, Leaves, Notes};
ghost use Rattle.crew.specs.Log.{Entry};

use crew::{CrewStop, Event, Spawner};
use std::process::Abort;

/// Starts the child of the next ticket, which is this one.
pub(crate) fn start<S: Spawner>(rt: &impl Abort, crew: &mut S, ticket: u32)
    requires next { ticket ≡ (S.state crew.old).issued }
    requires small { ticket < 2 ^ 32 - 1 }
    ensures joins { Joins ticket (S.state crew.old) (S.state crew.new) }
{
    let Ok(()) = crew.start(ticket) else {
        panic!(rt; "ticket {ticket} does not start");
    };
}

/// The start of the next ticket, which is this one, fails.
pub(crate) fn assert_start_fails<S: Spawner>(rt: &impl Abort, crew: &mut S, ticket: u32)
    requires next { ticket ≡ (S.state crew.old).issued }
    requires small { ticket < 2 ^ 32 - 1 }
    ensures fails { Fails (Entry.StartFailed ticket) ((S.state crew.old).issued + 1) (S.state crew.old)
        (S.state crew.new) }
{
    match crew.start(ticket) {
        Err(CrewStop::Fault) => {}
        _ => panic!(rt; "ticket {ticket} starts"),
    }
}

/// Feeds a piece.
pub(crate) fn feed<S: Spawner>(rt: &impl Abort, crew: &mut S, ticket: u32, piece: &[u8])
    requires out { (S.state crew.old).is_out ticket ≡ true }
    requires open { (S.state crew.old).is_sealed ticket ≡ false }
    ensures notes { Notes (Entry.Fed ticket piece.now) (S.state crew.old).issued (S.state crew.old) (S.state crew.new) }
{
    let Ok(()) = crew.feed(ticket, piece) else {
        panic!(rt; "ticket {ticket} takes no piece");
    };
}

/// The feed of a piece fails.
pub(crate) fn assert_feed_fails<S: Spawner>(
    rt: &impl Abort,
    crew: &mut S,
    ticket: u32,
    piece: &[u8],
)
    requires out { (S.state crew.old).is_out ticket ≡ true }
    requires open { (S.state crew.old).is_sealed ticket ≡ false }
    ensures fails { Fails (Entry.FeedFailed ticket) (S.state crew.old).issued (S.state crew.old) (S.state crew.new) }
{
    match crew.feed(ticket, piece) {
        Err(CrewStop::Fault) => {}
        _ => panic!(rt; "ticket {ticket} takes a piece"),
    }
}

/// Seals the ticket.
pub(crate) fn seal<S: Spawner>(rt: &impl Abort, crew: &mut S, ticket: u32)
    requires out { (S.state crew.old).is_out ticket ≡ true }
    requires open { (S.state crew.old).is_sealed ticket ≡ false }
    ensures closes { Closes ticket (S.state crew.old) (S.state crew.new) }
{
    let Ok(()) = crew.seal(ticket) else {
        panic!(rt; "ticket {ticket} is not sealed");
    };
}

/// The seal of the ticket fails.
pub(crate) fn assert_seal_fails<S: Spawner>(rt: &impl Abort, crew: &mut S, ticket: u32)
    requires out { (S.state crew.old).is_out ticket ≡ true }
    requires open { (S.state crew.old).is_sealed ticket ≡ false }
    ensures fails { Fails (Entry.FeedFailed ticket) (S.state crew.old).issued (S.state crew.old) (S.state crew.new) }
{
    match crew.seal(ticket) {
        Err(CrewStop::Fault) => {}
        _ => panic!(rt; "ticket {ticket} is sealed"),
    }
}

/// Waits for the death of this ticket, which is out.
pub(crate) fn assert_dies<S: Spawner>(rt: &impl Abort, crew: &mut S, ticket: u32)
    requires out { (S.state crew.old).is_out ticket ≡ true }
    ensures dies { Dies ticket (S.state crew.old) (S.state crew.new) }
{
    match crew.wait() {
        Ok(Event::Died { ticket: dead }) if dead == ticket => {}
        _ => panic!(rt; "ticket {ticket} does not die"),
    }
}

/// Waits for the reply of this ticket, which is out.
pub(crate) fn reply_of<S: Spawner>(rt: &impl Abort, crew: &mut S, ticket: u32) -> Vec<u8>
    requires out { (S.state crew.old).is_out ticket ≡ true }
    ensures leaves { Leaves ticket (Entry.Reply ticket result.items) (S.state crew.old) (S.state crew.new) }
{
    match crew.wait() {
        Ok(Event::Reply { ticket: of, bytes }) if of == ticket => bytes,
        _ => panic!(rt; "ticket {ticket} does not reply"),
    }
}
