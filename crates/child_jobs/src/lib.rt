//! Jobs of a child, written and read.
//!
//! - `write`: `write_job`, `write_solve` for a problem that stays with its owner, and `write_head` and `write_frame` for a
//!   replay job in pieces
//! - `reader`: `JobReader`, of a job whose bytes come in pieces; `items`: the items of a frame that stand whole in one
//! - `head`: `JobHead`, what it knows once the head is there; `end`: `JobEnd`, what a whole job was
//! - `read`: `read_job`, of a job in one piece
//!
//! A reader takes memory when it is made and at the end, and none between. It answers the same for every cutting into
//! pieces: `specs/Reader.antt` says which bytes it has taken, and which items it has given out; `specs/Rooms.antt` why
//! what it holds has room.
#![tactic(auto)]

mod end;
mod head;
mod items;
mod read;
mod reader;
mod write;

pub use end::JobEnd;
pub use head::{JobHead, JobKind};
pub use read::read_job;
pub use reader::JobReader;
pub use write::{write_frame, write_head, write_job, write_solve};
