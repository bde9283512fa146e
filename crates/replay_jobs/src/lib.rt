//! The replay jobs of a placement: one for each epoch and switch, and what their replies say together.
//!
//! - `jobs`: `ReplayJobs`, which has these jobs, and takes and merges a reply to each
//! - `taking`: a reply taken for a share, and merged for its epoch
//! - `grouping`: the shares of all epochs and switches
//! - `share`: the items of a share
//!
//! `specs/Replays.antt` says what is promised of jobs and of what was merged, `specs/Epochs.antt` what stands for a
//! list of places.
#![tactic(auto)]

mod grouping;
mod jobs;
mod share;
mod taking;

pub use jobs::ReplayJobs;
