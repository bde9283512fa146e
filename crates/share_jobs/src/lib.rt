//! The replay job of a share: what is fed to a child, and which replies answer it.
//!
//! - `share_job`: `ShareJob`, a job with its pieces and the mark of a reply that was taken
//! - `pieces`: the pieces of a job, each as it is fed
//! - `judge`: which replies answer a job
//!
//! `specs/Pieces.antt` says the pieces, `specs/Reading.antt` which bytes are a reply, `specs/Heads.antt` which job the
//! pieces spell, and `specs/Share.antt` what clauses see of such a job.
#![tactic(auto)]

mod judge;
mod pieces;
mod share_job;

pub use share_job::ShareJob;
