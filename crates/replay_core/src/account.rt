//! What is kept of each job.
ghost use Rattle.std.specs.Prelude.{◌≡◌, ◌^◌, ◌+◌, ◌<◌, length, replicate, IfOk};
ghost use Rattle.replay_core.specs.Book.{account_at, count_bad, count_drawn, is_now_done, new_account, total, with_account};

use crate::{Bad, Kind};
use mon_io::Memory;
use std::alloc::Global;

/// What is kept of a job.
#[derive(Clone, Copy, Debug, PartialEq, Eq)]
pub struct Account {
    /// Whether a good reply came.
    pub done: bool,
    /// How many tickets were drawn for it.
    pub drawn: u32,
    /// Its bad attempts.
    pub bad: Bad,
}

/// What is kept of a job.
pub(crate) fn account_of(accounts: &[Account], job: u32) -> &Account
    requires known { job < length accounts.now }
    ensures value { result.now ≡ account_at accounts.now job }
{
    &accounts[job as usize]
}

/// Counts a ticket that was drawn for a job.
#[tactic(auto, unfolding(crate::specs::Book::with_account))]
pub(crate) fn count_drawn(accounts: &mut Vec<Account>, job: u32)
    requires known { job < length accounts.old.items }
    requires small { (account_at accounts.old.items job).drawn + 1 < 2 ^ 32 }
    ensures value { accounts.new.items ≡ with_account accounts.old.items job count_drawn }
{
    let mut account = *account_of(accounts, job);
    account.drawn += 1;
    accounts[job as usize] = account;
}

/// Counts a bad attempt of a job.
#[tactic(auto, unfolding(crate::specs::Book::with_account))]
pub(crate) fn count_bad(accounts: &mut Vec<Account>, job: u32, kind: Kind)
    requires known { job < length accounts.old.items }
    requires small { total (account_at accounts.old.items job).bad + 1 < 2 ^ 32 }
    ensures value { accounts.new.items ≡ with_account accounts.old.items job (count_bad kind) }
{
    let mut account = *account_of(accounts, job);
    account.bad.add(kind);
    accounts[job as usize] = account;
}

/// Marks a job as done.
#[tactic(auto, unfolding(crate::specs::Book::with_account))]
pub(crate) fn set_done(accounts: &mut Vec<Account>, job: u32)
    requires known { job < length accounts.old.items }
    ensures value { accounts.new.items ≡ with_account accounts.old.items job is_now_done }
{
    let mut account = *account_of(accounts, job);
    account.done = true;
    accounts[job as usize] = account;
}

/// The accounts of jobs of which none was started.
pub(crate) fn new_accounts(alloc: Global, jobs: u32) -> Result<Vec<Account>, Memory>
    ensures items { IfOk result (λ accounts. accounts.items ≡ replicate jobs new_account) }
{
    let bad = Bad {
        start: 0,
        feed: 0,
        died: 0,
        reply: 0,
    };
    let account = Account {
        done: false,
        drawn: 0,
        bad,
    };
    match vec![in alloc; account; jobs as usize] {
        Ok(accounts) => Ok(accounts),
        Err(_) => Err(Memory),
    }
}
