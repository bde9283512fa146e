//! Jobs of a child: what they are, and how their bytes stand field by field.
//!
//! - `item`, `job`: `Item` and `Job`, what a child is given; `fault`: `JobFault`, why bytes are no job
//! - `via`: `Via`, up to eight numbers of sites, which take no memory
//! - `place`: `Place`, what stands next in the bytes of a job, with the numbers that were read
//! - `judge_place`, `judge_head`, `judge_replay`, `judge_solve`: what a field is judged as
//! - `given`: the item, site or need that a field completes; `held_need`: `HeldNeed`, a need that takes no memory
//! - `laws`: that each job has one spelling, none a proper prefix of another, and that all bytes are read as one thing
//!
//! `specs/Job.antt` says a job and its spelling, without a reader; `specs/Places.antt` the fields in their order with
//! the test of each; `specs/Given.antt` what they give; `specs/Read.antt` what bytes are read as; `specs/Rooms.antt` that
//! a via never gets more than eight numbers.
#![tactic(auto)]

mod fault;
mod given;
mod held_need;
mod item;
mod job;
mod judge_head;
mod judge_place;
mod judge_replay;
mod judge_solve;
mod laws;
mod place;
mod via;

pub use fault::JobFault;
pub use given::{item_at, need_at, site_at};
pub use held_need::HeldNeed;
pub use item::Item;
pub use job::Job;
pub use judge_place::{judge, place_size};
pub use laws::{one_reading, one_spelling};
pub use place::{HeadNumbers, HeadStep, Kind, Place, SolveNumbers, SolveStep, Tally};
pub use via::Via;
