//! What the commands share: how a call ends, the numbers of a sketch, a topology from a file, and the last write.
//!
//! - `status`: `Status`, `Input` and `Phase`
//! - `setting`: `Setting`, the numbers of a sketch and of what is printed of it
//! - `topology_file`: `read_topology`
//! - `trace_stop`: `trace_status`, the status at a stop of the reader of a trace
//! - `last_write`: `finish`, `finish_bytes`
//!
//! `specs/Call.antt` says each status with its cause, of any command: a command brings its duty, which is the inputs
//! that it reads, the text that is due, and why it refuses what it reads. `specs/CrewCall.antt` has what a call with a
//! crew has beside. `specs/Told.antt` says when a status is told
//! by contents that are told, so that no call without a fault answers otherwise, unless memory runs out.
#![tactic(auto)]

mod last_write;
mod setting;
mod status;
mod topology_file;
mod trace_stop;

pub use last_write::{finish, finish_bytes};
pub use setting::Setting;
pub use status::{Input, Phase, Status};
pub use topology_file::read_topology;
pub use trace_stop::trace_status;
