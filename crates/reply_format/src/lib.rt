//! Replies of a child: what they are, and how their bytes stand field by field, in both versions.
//!
//! - `heap`, `body`, `reply`: `Heap`, `ReplayBody` and `Reply`, what a child answers; `expect`: `Expect`, what its parent
//!   expects; `fault`: `ReplyFault`, why bytes are no such reply
//! - `laws`: that each reply has one spelling in each version, and that all bytes are read as one thing
//!
//! `specs/Reply.antt` says a reply and its spelling, without a reader; `specs/Places.antt` the fields of a replay reply
//! in their order with the test of each, `specs/Outcomes.antt` those of a solve reply; `specs/Read.antt` what bytes are
//! read as. Version 1 has every counter; version 2 leaves out those that are 0.
#![tactic(auto)]

mod body;
mod expect;
mod fault;
mod heap;
mod laws;
mod reply;

pub use body::ReplayBody;
pub use expect::Expect;
pub use fault::ReplyFault;
pub use heap::Heap;
pub use laws::{one_reading, replies_are_read_back};
pub use reply::Reply;
