//! The tickets that are out, each with its job, in the order of their starts.
ghost use Rattle.std.specs.Prelude.{◌≡◌, ◌==◌, length, position, vec_capacity};
ghost use Rattle.replay_core.specs.Attempts.{job_of, least_out, ticket_of, tickets_of, without};

/// A ticket that is out, and the job that it works on.
#[derive(Clone, Copy, Debug, PartialEq, Eq)]
pub struct Attempt {
    /// The ticket.
    pub ticket: u32,
    /// The job.
    pub job: u32,
}

/// The job of a ticket, where it is out.
#[tactic(auto, unfolding(crate::specs::Attempts::job_of))]
pub(crate) fn job_of(outs: &[Attempt], ticket: u32) -> Option<u32>
    ensures value { result ≡ job_of outs.now ticket }
{
    outs.iter().find(|a| a.ticket == ticket).map(|a| a.job)
}

/// The first ticket of a job that is out.
#[tactic(auto, unfolding(crate::specs::Attempts::ticket_of))]
pub(crate) fn ticket_of(outs: &[Attempt], job: u32) -> Option<u32>
    ensures value { result ≡ ticket_of outs.now job }
{
    outs.iter().find(|a| a.job == job).map(|a| a.ticket)
}

/// How many tickets of a job are out.
#[tactic(auto, unfolding(crate::specs::Attempts::tickets_of))]
pub(crate) fn tickets_of(outs: &[Attempt], job: u32) -> usize
    ensures value { result ≡ tickets_of outs.now job }
{
    outs.iter().filter(|a| a.job == job).count()
}

/// The least ticket that is out, which was started first.
pub(crate) fn least_out(outs: &[Attempt]) -> Option<u32>
    ensures value { result ≡ least_out outs.now }
{
    match outs.first() {
        Some(a) => Some(a.ticket),
        None => None,
    }
}

// The place of a ticket among those that are out.
fn place_of(outs: &[Attempt], ticket: u32) -> Option<usize>
    ensures value { result ≡ position (λ a. a.ticket == ticket) outs.now }
{
    outs.iter().position(|a| a.ticket == ticket)
}

/// Takes the attempt of a ticket out of the list.
pub(crate) fn remove(outs: &mut Vec<Attempt>, ticket: u32)
    ensures items { outs.new.items ≡ without ticket outs.old.items }
    ensures capacity { vec_capacity outs.new ≡ vec_capacity outs.old }
{
    if let Some(place) = place_of(outs, ticket) {
        outs.remove(place);
    }
}
