//! Replies of a child, written and read.
//!
//! - `read`: `read_reply`, of either version, to a job that is known
//!   - `cursor`, `front`: the next field of bytes, and the first fields of every reply
//!   - `replay_job`, `head_field`, `head`, `counter`, `counters`, `heaps`, `read_replay`: a replay reply, part by part
//!   - `solve_front`, `found`, `read_solve`: a solve reply
//! - `write`: `write_reply`, in version 2, which leaves out the counters that are 0
//!   - `write_head`, `write_row`, `write_heap`, `write_replay`, `write_solve`: its parts
//!
//! `specs/Steps.antt` says how reading goes on from field to field, over the places of the format, and where it stops.
//! Both take memory.
#![tactic(auto)]

mod counter;
mod counters;
mod cursor;
mod found;
mod front;
mod head;
mod head_field;
mod heaps;
mod read;
mod read_replay;
mod read_solve;
mod replay_job;
mod solve_front;
mod write;
mod write_head;
mod write_heap;
mod write_replay;
mod write_row;
mod write_solve;

pub use read::read_reply;
pub use write::write_reply;
