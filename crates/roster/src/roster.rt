//! The tickets that are out, in the order of their starts.
ghost use Rattle.std.specs.Prelude.{◌≡◌, ℕ, ◌+◌, ◌-◌, ◌^◌, ◌<◌, ◌≤◌, ◌==◌, ◌||◌, ◌&&◌, not, true, false, [], ◌∷◌, ◌++◌, Some, OnOk, filter, length, slice_get};
ghost use Rattle.roster.specs.Roster.{AreIssued, is_out, is_sealed, no_marks, ticket_at, tickets};

use crate::Mark;
use crate::mark::{has, place_of};
use mon_io::Memory;
use std::alloc::Global;
use std::marker::Model;

/// The tickets that are out, and how many were issued.
#[derive(Drop)]
pub struct Roster {
    marks: Vec<Mark>,
    issued: u32,
}

impl Model for Roster {
    ghost use Rattle.std.specs.Prelude.{vec_capacity};
    ghost use Rattle.roster.specs.Roster.{Listed, AreMarks};

    ghost Value = { Listed };

    ghost view = { λ roster. record { issued = roster.issued; marks = roster.marks.items; room = vec_capacity roster.marks } };

    ghost invariant = { λ roster. AreMarks roster.issued roster.marks.items };
}

impl Roster {
    /// A roster of no ticket, of which none was issued. It takes no memory.
    #[tactic(auto, using(crate::proofs::Marks::out_nil))]
    pub fn new(alloc: Global) -> Roster
        ensures issued { result.issued ≡ 0 }
        ensures marks { result.marks ≡ no_marks }
        ensures out { (t : ℕ) → is_out result.marks t ≡ false }
        ensures known { AreIssued result }
    {
        Roster {
            marks: Vec::new(alloc),
            issued: 0,
        }
    }

    /// How many tickets were issued, which is the next one.
    pub fn issued(&self) -> u32
        ensures value { result ≡ self.now.issued }
    {
        self.issued
    }

    /// How many tickets are out.
    #[tactic(auto, using(crate::proofs::Marks::tickets_count))]
    pub fn len(&self) -> usize
        ensures value { result ≡ length self.now.marks }
        ensures order { result ≡ length (tickets self.now.marks) }
        ensures bound { result < 2 ^ 63 }
    {
        self.marks.len()
    }

    /// Whether a ticket is out. Each that is was issued.
    #[tactic(auto, using(crate::proofs::Marks::out_issued))]
    pub fn is_out(&self, ticket: u32) -> bool
        ensures value { result ≡ is_out self.now.marks ticket }
        ensures known { AreIssued self.now }
    {
        has(&self.marks, ticket)
    }

    /// Takes the room of one ticket more.
    #[tactic(auto, using(crate::proofs::Marks::out_issued))]
    pub fn reserve(&mut self) -> Result<(), Memory>
        ensures issued { self.new.issued ≡ self.old.issued }
        ensures marks { self.new.marks ≡ self.old.marks }
        ensures room { OnOk result (length self.new.marks < self.new.room) }
        ensures known { AreIssued self.new }
    {
        match self.marks.reserve(1) {
            Ok(()) => Ok(()),
            Err(_) => Err(Memory),
        }
    }

    /// Issues the next ticket for a child that could not be started: it isn't out.
    #[tactic(auto, using(crate::proofs::Marks::out_issued, crate::proofs::Marks::marks_more))]
    pub fn pass(&mut self)
        requires small { self.old.issued < 2 ^ 32 - 1 }
        ensures issued { self.new.issued ≡ self.old.issued + 1 }
        ensures marks { self.new.marks ≡ self.old.marks }
        ensures known { AreIssued self.new }
    {
        self.issued += 1;
    }

    /// Issues the next ticket, which is out from then on and not sealed. There is room for it.
    #[tactic(auto, using(crate::proofs::Marks::out_issued, crate::proofs::Marks::marks_push, crate::proofs::Marks::out_push, crate::proofs::Marks::sealed_push, crate::proofs::Marks::tickets_push))]
    pub fn join(&mut self)
        requires small { self.old.issued < 2 ^ 32 - 1 }
        requires room { length self.old.marks < self.old.room }
        ensures issued { self.new.issued ≡ self.old.issued + 1 }
        ensures count { length self.new.marks ≡ length self.old.marks + 1 }
        ensures out { (t : ℕ) → is_out self.new.marks t ≡ (t == self.old.issued || is_out self.old.marks t) }
        ensures sealed { (t : ℕ) → is_sealed self.new.marks t ≡ (not (t == self.old.issued) && is_sealed self.old.marks t) }
        ensures known { AreIssued self.new }
        ensures order { tickets self.new.marks ≡ tickets self.old.marks ++ self.old.issued ∷ [] }
    {
        self.marks.push_reserved(Mark {
            ticket: self.issued,
            is_sealed: false,
        });
        self.issued += 1;
    }

    /// The place of a ticket that is out, in the order of the starts. Each of these tickets was issued.
    #[tactic(auto, using(crate::proofs::Marks::out_issued))]
    pub fn place_of(&self, ticket: u32) -> usize
        requires out { is_out self.now.marks ticket ≡ true }
        ensures bound { result < length self.now.marks }
        ensures ticket { ticket_at self.now.marks result ≡ ticket }
        ensures issued { ticket < self.now.issued }
    {
        place_of(&self.marks, ticket)
    }

    /// The ticket that was started first of those that are out.
    #[tactic(auto, using(crate::proofs::Marks::some_out, crate::proofs::Marks::out_first, crate::proofs::Marks::first_issued, crate::proofs::Marks::tickets_first))]
    pub fn oldest(&self) -> u32
        requires some { (t : ℕ) × (is_out self.now.marks t ≡ true) }
        ensures some { 0 < length self.now.marks }
        ensures value { result ≡ ticket_at self.now.marks 0 }
        ensures out { is_out self.now.marks result ≡ true }
        ensures issued { result < self.now.issued }
        ensures first { slice_get (tickets self.now.marks) 0 ≡ Some result }
    {
        self.marks[0].ticket
    }

    /// Seals the ticket at a place.
    #[tactic(auto, using(crate::proofs::Marks::out_issued, crate::proofs::Marks::marks_set, crate::proofs::Marks::out_set, crate::proofs::Marks::sealed_set, crate::proofs::Marks::tickets_set))]
    pub fn seal(&mut self, place: usize)
        requires bound { place < length self.old.marks }
        ensures issued { self.new.issued ≡ self.old.issued }
        ensures count { length self.new.marks ≡ length self.old.marks }
        ensures out { (t : ℕ) → is_out self.new.marks t ≡ is_out self.old.marks t }
        ensures sealed { (t : ℕ) → is_sealed self.new.marks t ≡ (t == ticket_at self.old.marks place || is_sealed self.old.marks t) }
        ensures known { AreIssued self.new }
        ensures order { tickets self.new.marks ≡ tickets self.old.marks }
    {
        self.marks[place].is_sealed = true;
    }

    /// Takes out the ticket at a place: it is out no longer.
    #[tactic(auto, using(crate::proofs::Marks::out_issued, crate::proofs::Marks::marks_remove, crate::proofs::Marks::out_remove, crate::proofs::Marks::sealed_remove, crate::proofs::Marks::tickets_remove))]
    pub fn leave(&mut self, place: usize)
        requires bound { place < length self.old.marks }
        ensures issued { self.new.issued ≡ self.old.issued }
        ensures count { length self.new.marks + 1 ≡ length self.old.marks }
        ensures out { (t : ℕ) → is_out self.new.marks t ≡ (not (t == ticket_at self.old.marks place) && is_out self.old.marks t) }
        ensures sealed { (t : ℕ) → is_sealed self.new.marks t ≡ (not (t == ticket_at self.old.marks place) && is_sealed self.old.marks t) }
        ensures known { AreIssued self.new }
        ensures order { tickets self.new.marks ≡ filter (λ t. not (t == ticket_at self.old.marks place)) (tickets self.old.marks) }
    {
        self.marks.remove(place);
    }

    /// Takes out a ticket, if it is out.
    #[tactic(auto, using(crate::proofs::Marks::none_left_out, crate::proofs::Marks::none_left_sealed))]
    pub fn remove(&mut self, ticket: u32)
        ensures issued { self.new.issued ≡ self.old.issued }
        ensures count { length self.new.marks ≤ length self.old.marks }
        ensures out { (t : ℕ) → is_out self.new.marks t ≡ (not (t == ticket) && is_out self.old.marks t) }
        ensures sealed { (t : ℕ) → is_sealed self.new.marks t ≡ (not (t == ticket) && is_sealed self.old.marks t) }
        ensures order { tickets self.new.marks ≡ filter (λ t. not (t == ticket)) (tickets self.old.marks) }
        ensures known { AreIssued self.new }
    {
        if self.is_out(ticket) {
            let place = self.place_of(ticket);
            self.leave(place);
        }
    }
}
