//! The command `place`: a placement of a topology's paths, which children search.
//!
//! - `command`: `place`, the command
//! - `report`: `report_outcome`, which writes the text of what a search found
//! - `stopped`: `stop_status`, the status of children that were given up
//! - `solving`: `solving_of`, the numbers of the search that the words give
//!
//! `specs/Place.antt` says each status with its cause; `specs/Told.antt` which status comes where what is read is told
//! and so is the crew's log.
#![tactic(auto)]

mod command;
mod report;
mod solving;
mod stopped;

pub use command::place;
pub use report::report_outcome;
pub use solving::solving_of;
pub use stopped::stop_status;
