//! What a wait is to give.
ghost use Rattle.std.specs.Prelude.{◌≡◌, ◌<◌, ◌≤◌, ℕ, true, IfOk, Some, drop, length, slice_get};
ghost use Rattle.crew.specs.Answers.{SameAnswers};
ghost use Rattle.roster.specs.Fed.{fed_to};
ghost use Rattle.scripted_crew.specs.Gives.{Gives, IsAnswer};
ghost use Rattle.scripted_crew.specs.Script.{deed_of, deeds_of, from_started, is_listed, ticket_of};

use crew::{AnswerStop, Answerer, Event};
use mon_io::Memory;
use roster::Fed;
use std::alloc::Global;

/// What a wait is to give, by the ticket that it names.
#[derive(Debug, Drop)]
pub enum Act {
    /// The answer to what was fed to this ticket, also where it is out no longer.
    Reply { ticket: u32 },
    /// These bytes as the reply of this ticket.
    Bytes { ticket: u32, bytes: Vec<u8> },
    /// The death of this ticket.
    Die { ticket: u32 },
}

impl Act {
    /// The ticket that it names.
    pub fn ticket(&self) -> u32
        ensures value { result ≡ ticket_of (deed_of self.now) }
    {
        match self {
            Act::Reply { ticket } => *ticket,
            Act::Bytes { ticket, .. } => *ticket,
            Act::Die { ticket } => *ticket,
        }
    }
}

/// Whether the ticket is in the list.
#[tactic(auto, unfolding(crate::specs::Script::is_listed))]
pub(crate) fn is_listed(tickets: &[u32], ticket: u32) -> bool
    ensures value { result ≡ is_listed tickets.now ticket }
{
    tickets.iter().any(|other| *other == ticket)
}

/// The place of the next act behind those that were done: the first one of a ticket that was started. Past the last
/// act where there is none.
pub(crate) fn next_act(acts: &[Act], done: usize, started: &[u32]) -> usize
    requires within { done ≤ length acts.now }
    ensures within { result ≤ length acts.now }
    ensures started { (deed : _) → slice_get (drop result (deeds_of acts.now)) 0 ≡ Some deed → is_listed started.now (ticket_of deed) ≡ true }
    ensures value { drop result (deeds_of acts.now) ≡ from_started (is_listed started.now) (drop done (deeds_of acts.now)) }
{
    for place in done..acts.len() {
        if is_listed(started, acts[place].ticket()) {
            return place;
        }
    }
    acts.len()
}

/// The place behind the act at a place; past the last act that place itself.
#[tactic(auto, using(crate::proofs::Deeds::one_behind, crate::proofs::Deeds::none_behind))]
pub(crate) fn behind(acts: &[Act], place: usize) -> usize
    requires within { place ≤ length acts.now }
    ensures within { result ≤ length acts.now }
    ensures value { drop result (deeds_of acts.now) ≡ drop 1 (drop place (deeds_of acts.now)) }
{
    if place < acts.len() { place + 1 } else { place }
}

/// The answer to what a ticket was fed, as an event; the ticket died where it has none.
pub(crate) fn answer_event<A: Answerer>(
    alloc: Global,
    answerer: &mut A,
    ticket: u32,
    fed: &Fed,
) -> Result<Event, Memory>
    requires known { ticket < length fed.now.jobs }
    ensures gives { IfOk result (λ event. (A.state answerer.old).is_told ≡ true
        → IsAnswer (A.answers answerer.old) (A.refuses answerer.old) ticket (fed_to fed.now.jobs ticket) event) }
    ensures stays { SameAnswers (A.answers answerer.old) (A.answers answerer.new) (A.refuses answerer.old) (A.refuses answerer.new) }
    ensures told { (A.state answerer.new).is_told ≡ (A.state answerer.old).is_told }
{
    let mut bytes = Vec::new(alloc);
    match answerer.answer(fed.bytes(ticket), &mut bytes) {
        Ok(()) => Ok(Event::Reply { ticket, bytes }),
        Err(stop) => match stop {
            AnswerStop::Fault => Ok(Event::Died { ticket }),
            AnswerStop::Memory => Err(Memory),
        },
    }
}

// A copy of bytes.
fn copied(alloc: Global, bytes: &[u8]) -> Result<Vec<u8>, Memory>
    ensures items { IfOk result (λ copy. copy.items ≡ bytes.now) }
{
    match bytes.to_vec(alloc) {
        Ok(copy) => Ok(copy),
        Err(_) => Err(Memory),
    }
}

/// The event of the act at a place; past the last act the answer of the oldest ticket.
pub(crate) fn event_of<A: Answerer>(
    alloc: Global,
    answerer: &mut A,
    acts: &[Act],
    place: usize,
    oldest: u32,
    fed: &Fed,
) -> Result<Event, Memory>
    requires oldest { oldest < length fed.now.jobs }
    requires known { (deed : _) → slice_get (drop place (deeds_of acts.now)) 0 ≡ Some deed → ticket_of deed < length fed.now.jobs }
    ensures gives { IfOk result (λ event. (A.state answerer.old).is_told ≡ true
        → Gives (A.answers answerer.old) (A.refuses answerer.old) (slice_get (drop place (deeds_of acts.now)) 0) oldest fed.now.jobs event) }
    ensures stays { SameAnswers (A.answers answerer.old) (A.answers answerer.new) (A.refuses answerer.old) (A.refuses answerer.new) }
    ensures told { (A.state answerer.new).is_told ≡ (A.state answerer.old).is_told }
{
    if place >= acts.len() {
        return answer_event(alloc, answerer, oldest, fed);
    }
    match &acts[place] {
        Act::Reply { ticket } => answer_event(alloc, answerer, *ticket, fed),
        Act::Bytes { ticket, bytes } => {
            let bytes = copied(alloc, bytes)?;
            Ok(Event::Reply {
                ticket: *ticket,
                bytes,
            })
        }
        Act::Die { ticket } => Ok(Event::Died { ticket: *ticket }),
    }
}
