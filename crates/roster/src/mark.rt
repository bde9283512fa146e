//! A ticket that is out, and the places of tickets among marks.
ghost use Rattle.std.specs.Prelude.{◌≡◌, ◌<◌, ◌==◌, true, length, position};
ghost use Rattle.roster.specs.Roster.{is_out, ticket_at};

/// A ticket that is out.
#[derive(Clone, Copy, Debug, PartialEq, Eq)]
pub struct Mark {
    /// The ticket.
    pub ticket: u32,
    /// Whether the job of its child is whole.
    pub is_sealed: bool,
}

/// The place of a ticket that is among the marks.
pub(crate) fn place_of(marks: &[Mark], ticket: u32) -> usize
    requires out { is_out marks.now ticket ≡ true }
    ensures bound { result < length marks.now }
    ensures ticket { ticket_at marks.now result ≡ ticket }
{
    find(marks, ticket).unwrap()
}

// The first place of a ticket.
fn find(marks: &[Mark], ticket: u32) -> Option<usize>
    ensures value { result ≡ position (λ m. ticket == m.ticket) marks.now }
{
    marks.iter().position(|m| ticket == m.ticket)
}

/// Whether a ticket is among the marks.
#[tactic(auto, unfolding(crate::specs::Roster::is_out))]
pub(crate) fn has(marks: &[Mark], ticket: u32) -> bool
    ensures value { result ≡ is_out marks.now ticket }
{
    marks.iter().any(|m| ticket == m.ticket)
}
