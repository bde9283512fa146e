//! The book of attempts: which ticket works on which job, what failed, and what is to be done next.
//!
//! - `attempt`: `Attempt`, a ticket that is out with its job, and reads of the list of these
//! - `bad`: `Bad`, the bad attempts of a job by their `Kind`; `account`: `Account`, what is kept of a job
//! - `want`: `Want`, what is to be done next; `take`: `Take`, what became of a reply
//! - `book`: `Core`, the book
//! - `calls`: what holds of every list of lawful calls
//!
//! A ticket is out whose child was started and has not ended. Tickets are drawn in order, each for one job, and
//! a job has at most two out together. An event of a ticket that is out no longer is stale and changes nothing
//! but the number of stale events. `specs/Book.antt` says what each call makes of a book, `specs/Next.antt` what
//! is to be done next, and `specs/Calls.antt` what a list of calls says by itself.
#![tactic(auto)]

mod account;
mod attempt;
mod bad;
mod book;
mod calls;
mod take;
mod want;

pub use account::Account;
pub use attempt::Attempt;
pub use bad::{Bad, Kind};
pub use book::Core;
pub use calls::law_of_calls;
pub use take::Take;
pub use want::Want;
