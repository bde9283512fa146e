//! The one job of a search.
//!
//! - `jobs`: `SolveJobs`, which has this job, and takes the reply to it that holds a right outcome
//! - `judge`: which replies these are
//!
//! `specs/Replies.antt` says which bytes are such a reply, and `specs/Search.antt` what is promised of them.
#![tactic(auto)]

mod jobs;
mod judge;

pub use jobs::SolveJobs;
