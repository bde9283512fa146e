//! Drives a crew until each job has its first good reply.
//!
//! - `jobs`: the trait `Jobs`, what is to be done and which replies are good
//! - `stop`: `Stop`, why a call ended without every job's reply
//! - `feed`: the pieces of a job, fed to the ticket that was started for it
//! - `turn`: one turn, in which a ticket is started or an event taken
//! - `run`: `supervise`, turns until every job is done or a limit is passed; then the stop of all tickets that are out
//!
//! `specs/Reading.antt` says what a log says of tickets, jobs and replies, `specs/Steps.antt` which logs a call may
//! write, and `specs/Outcome.antt` what each answer of `supervise` means. A crew that tells no log is driven alike.
#![tactic(auto)]

mod feed;
mod jobs;
mod run;
mod stop;
mod turn;

pub use jobs::Jobs;
pub use run::supervise;
pub use stop::Stop;
