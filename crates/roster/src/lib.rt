//! What a crew keeps of its tickets: which are out, how many were issued, and what they were fed.
//!
//! - `mark`: `Mark`, a ticket that is out, and whether it is sealed
//! - `roster`: `Roster`, the marks in the order of their starts
//! - `fed`: `Fed`, the bytes that each issued ticket was fed, for a crew that keeps them
//!
//! Tickets are issued in order, from 0. One that is out was issued, and stands on the roster once.
#![tactic(auto)]

mod fed;
mod mark;
mod roster;

pub use fed::Fed;
pub use mark::Mark;
pub use roster::Roster;
