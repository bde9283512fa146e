//! What is to be done next, and the tests behind it.
ghost use Rattle.std.specs.Prelude.{◌≡◌, ◌^◌, ◌<◌, ◌≤◌, ◌==◌, ◌&&◌, nat_lt, not, ℕ, length, true, false};
ghost use Rattle.replay_core.specs.Attempts.{job_with, tickets_of, wanted};
ghost use Rattle.replay_core.specs.Below.{all_below, first_below};
ghost use Rattle.replay_core.specs.Book.{account_at, total};

use crate::account::account_of;
use crate::attempt::tickets_of;
use crate::{Account, Attempt};

/// What is to be done next.
#[derive(Clone, Copy, Debug, PartialEq, Eq)]
pub enum Want {
    /// Start the next ticket for this job.
    Start { job: u32 },
    /// Wait for an event.
    Wait,
    /// Every job is done.
    Finished,
    /// This job has more bad attempts than restarts are allowed.
    Spent { job: u32 },
    /// 4,096 stale events came.
    Stale,
}

// Whether a job isn't done and has exactly so many tickets out.
fn is_ready(account: &Account, outs: &[Attempt], job: u32, count: usize) -> bool
    ensures value { result ≡ (not account.now.done && tickets_of outs.now job == count) }
{
    !account.done && tickets_of(outs, job) == count
}

// The least job that isn't done and has exactly so many tickets out.
#[tactic(auto, unfolding(crate::specs::Attempts::job_with), using(crate::proofs::Below::first_below_found))]
fn job_with(accounts: &[Account], outs: &[Attempt], count: usize) -> Option<u32>
    requires few { length accounts.now ≤ 256 }
    ensures value { result ≡ job_with (length accounts.now) (λ job. (account_at accounts.now job).done) outs.now count }
{
    for job in 0..accounts.len() as u32 {
        if is_ready(account_of(accounts, job), outs, job, count) {
            return Some(job);
        }
    }
    None
}

/// The job of the next start, if one is wanted.
#[tactic(auto, unfolding(crate::specs::Attempts::wanted))]
pub(crate) fn wanted(accounts: &[Account], outs: &[Attempt]) -> Option<u32>
    requires few { length accounts.now ≤ 256 }
    ensures value { result ≡ wanted (length accounts.now) (λ job. (account_at accounts.now job).done) outs.now }
{
    match job_with(accounts, outs, 0) {
        Some(job) => Some(job),
        None => job_with(accounts, outs, 1),
    }
}

/// The least job with more bad attempts than restarts.
#[tactic(auto, using(crate::proofs::Below::first_below_found))]
pub(crate) fn first_spent(accounts: &[Account], restarts: u32) -> Option<u32>
    requires few { length accounts.now ≤ 256 }
    requires small { (job : ℕ) → job < length accounts.now → total (account_at accounts.now job).bad < 2 ^ 32 }
    ensures value { result ≡ first_below (λ job. nat_lt restarts (total (account_at accounts.now job).bad)) (length accounts.now) }
{
    for job in 0..accounts.len() as u32 {
        if restarts < account_of(accounts, job).bad.total() {
            return Some(job);
        }
    }
    None
}

/// Whether every job is done.
#[tactic(auto, using(crate::proofs::Below::all_below_fails))]
pub(crate) fn are_all_done(accounts: &[Account]) -> bool
    requires few { length accounts.now ≤ 256 }
    ensures value { result ≡ all_below (λ job. (account_at accounts.now job).done) (length accounts.now) }
{
    for job in 0..accounts.len() as u32 {
        if !account_of(accounts, job).done {
            return false;
        }
    }
    true
}
