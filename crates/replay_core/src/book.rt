//! The book of attempts.
ghost use Rattle.std.specs.Prelude.{◌≡◌, ◌^◌, ◌<◌, ◌≤◌, ◌-◌, length, true, false, IfOk, IsSome};
ghost use Rattle.replay_core.specs.Attempts.{is_out, job_of, least_out, IsLeastOut};
ghost use Rattle.replay_core.specs.Book.{after_died, after_feed_failed, after_reply, after_start_failed, after_started, after_stopped, bad_of, new_book, take_of, ticket};
ghost use Rattle.replay_core.specs.Next.{IsNext, next_of};
ghost use Rattle.replay_core.specs.Kept.{IsBook};

use crate::account::{account_of, count_bad, count_drawn, new_accounts, set_done};
use crate::attempt::{self, remove, ticket_of};
use crate::want::{are_all_done, first_spent, wanted};
use crate::{Account, Attempt, Bad, Kind, Take, Want};
use mon_io::Memory;
use std::alloc::Global;
use std::marker::Model;

/// Which tickets are out for which jobs, what failed, and how many events were stale.
#[derive(Drop)]
pub struct Core {
    first: u32,
    window: u32,
    restarts: u32,
    drawn: u32,
    stale: u32,
    is_stopping: bool,
    outs: Vec<Attempt>,
    accounts: Vec<Account>,
}

impl Model for Core {
    ghost use Rattle.std.specs.Prelude.{◌≤◌, vec_capacity};
    ghost use Rattle.replay_core.specs.Book.{Book};
    ghost use Rattle.replay_core.specs.Kept.{IsBook};

    ghost Value = { Book };

    ghost view = { λ core. record {
      first = core.first;
      window = core.window;
      restarts = core.restarts;
      drawn = core.drawn;
      stale = core.stale;
      is_stopping = core.is_stopping;
      outs = core.outs.items;
      accounts = core.accounts.items;
    } };

    ghost invariant = { λ core. (core.window ≤ vec_capacity core.outs) × IsBook (record {
      first = core.first;
      window = core.window;
      restarts = core.restarts;
      drawn = core.drawn;
      stale = core.stale;
      is_stopping = core.is_stopping;
      outs = core.outs.items;
      accounts = core.accounts.items;
    }) };
}

impl Core {
    /// A book of 1 to 256 jobs of which none was started. Its tickets run from `first`, which is below 2^31; at
    /// most `window` (1 to 32) are out together, and a job may have `restarts` (0 to 16) bad attempts. It takes
    /// the room of all tickets that can be out; no other call takes memory.
    pub fn new(
        alloc: Global,
        first: u32,
        jobs: u32,
        window: u32,
        restarts: u32,
    ) -> Result<Core, Memory>
        requires first { first < 2 ^ 31 }
        requires jobs_some { 1 ≤ jobs }
        requires jobs_few { jobs ≤ 256 }
        requires window_some { 1 ≤ window }
        requires window_few { window ≤ 32 }
        requires restarts { restarts ≤ 16 }
        ensures book { IfOk result (λ core. core ≡ new_book first jobs window restarts) }
        ensures kept { IfOk result (λ core. IsBook core) }
    {
        let Ok(outs) = Vec::with_capacity(alloc, window as usize) else {
            return Err(Memory);
        };
        let accounts = new_accounts(alloc, jobs)?;
        Ok(Core {
            first,
            window,
            restarts,
            drawn: 0,
            stale: 0,
            is_stopping: false,
            outs,
            accounts,
        })
    }

    /// What is to be done next: the first of `Finished`, `Spent` of the least job with more bad attempts than
    /// restarts, `Stale`, and, where fewer tickets than the window are out, `Start` of the least job that isn't
    /// done and has no ticket out, or else of the least that isn't done and has one; `Wait` where none applies.
    pub fn next(&self) -> Want
        ensures value { result ≡ next_of self.now }
        ensures facts { IsNext self.now result }
        ensures kept { IsBook self.now }
    {
        self.first_want()
    }

    // What is to be done next, by the first test that passes.
    fn first_want(&self) -> Want
        ensures value { result ≡ next_of self.now }
        ensures kept { IsBook self.now }
    {
        if are_all_done(&self.accounts) {
            return Want::Finished;
        }
        if let Some(job) = first_spent(&self.accounts, self.restarts) {
            return Want::Spent { job };
        }
        if self.stale >= 4096 {
            return Want::Stale;
        }
        if self.outs.len() >= self.window as usize {
            return Want::Wait;
        }
        match wanted(&self.accounts, &self.outs) {
            Some(job) => Want::Start { job },
            None => Want::Wait,
        }
    }

    /// The ticket that the next start draws.
    pub fn ticket(&self) -> u32
        ensures value { result ≡ ticket self.now }
        ensures small { result < 2 ^ 32 - 1 }
        ensures kept { IsBook self.now }
    {
        self.first + self.drawn
    }

    /// The next ticket was drawn and started for the job: `next` wants this start, and no ticket was stopped.
    pub fn started(&mut self, job: u32)
        requires wanted { next_of self.old ≡ Want.Start job }
        requires running { self.old.is_stopping ≡ false }
        ensures book { self.new ≡ after_started self.old job }
        ensures kept { IsBook self.new }
    {
        let ticket = self.first + self.drawn;
        self.outs.push_reserved(Attempt { ticket, job });
        self.drawn += 1;
        count_drawn(&mut self.accounts, job);
    }

    /// The next ticket was drawn for the job and its start failed, which is a bad attempt: `next` wants this
    /// start, and no ticket was stopped.
    pub fn start_failed(&mut self, job: u32)
        requires wanted { next_of self.old ≡ Want.Start job }
        requires running { self.old.is_stopping ≡ false }
        ensures book { self.new ≡ after_start_failed self.old job }
        ensures kept { IsBook self.new }
    {
        self.drawn += 1;
        count_drawn(&mut self.accounts, job);
        count_bad(&mut self.accounts, job, Kind::Start);
    }

    /// A feed or the seal of a ticket that is out failed: it is out no longer, and one bad attempt is counted.
    pub fn feed_failed(&mut self, ticket: u32)
        requires out { IsSome (job_of self.old.outs ticket) }
        ensures book { self.new ≡ after_feed_failed self.old ticket (job_of self.old.outs ticket) }
        ensures kept { IsBook self.new }
    {
        if let Some(job) = attempt::job_of(&self.outs, ticket) {
            remove(&mut self.outs, ticket);
            count_bad(&mut self.accounts, job, Kind::Feed);
        }
    }

    /// A child died. False exactly where its ticket was not out, which counts one stale event; else it is out no
    /// longer, and one bad attempt is counted. Fewer than 4,096 stale events were counted before.
    pub fn died(&mut self, ticket: u32) -> bool
        requires fresh { self.old.stale < 4096 }
        ensures book { self.new ≡ after_died self.old ticket (job_of self.old.outs ticket) }
        ensures value { result ≡ is_out self.old.outs ticket }
        ensures kept { IsBook self.new }
    {
        match attempt::job_of(&self.outs, ticket) {
            Some(job) => {
                remove(&mut self.outs, ticket);
                count_bad(&mut self.accounts, job, Kind::Died);
                true
            }
            None => {
                self.stale += 1;
                false
            }
        }
    }

    /// A reply came, which is good or not. `Stale` exactly where its ticket was not out, which counts one stale
    /// event; else it is out no longer. `Bad` exactly where it isn't good, which counts one bad attempt; `First`
    /// otherwise: the job is done, and its other ticket that was out, if any, is out no longer. Fewer than 4,096
    /// stale events were counted before.
    pub fn reply(&mut self, ticket: u32, good: bool) -> Take
        requires fresh { self.old.stale < 4096 }
        ensures book { self.new ≡ after_reply self.old ticket good (job_of self.old.outs ticket) }
        ensures value { result ≡ take_of self.old ticket good (job_of self.old.outs ticket) }
        ensures kept { IsBook self.new }
    {
        let Some(job) = attempt::job_of(&self.outs, ticket) else {
            self.stale += 1;
            return Take::Stale;
        };
        remove(&mut self.outs, ticket);
        if !good {
            count_bad(&mut self.accounts, job, Kind::Reply);
            return Take::Bad { job };
        }
        set_done(&mut self.accounts, job);
        match ticket_of(&self.outs, job) {
            Some(rival) => {
                remove(&mut self.outs, rival);
                Take::First {
                    job,
                    rival: Some(rival),
                }
            }
            None => Take::First { job, rival: None },
        }
    }

    /// A ticket that is out was stopped: it is out no longer, which counts as nothing. No start comes after it.
    pub fn stopped(&mut self, ticket: u32)
        requires out { IsSome (job_of self.old.outs ticket) }
        ensures book { self.new ≡ after_stopped self.old ticket }
        ensures kept { IsBook self.new }
    {
        remove(&mut self.outs, ticket);
        self.is_stopping = true;
    }

    /// The job of a ticket; none exactly where it is not out.
    pub fn job_of(&self, ticket: u32) -> Option<u32>
        ensures value { result ≡ job_of self.now.outs ticket }
    {
        attempt::job_of(&self.outs, ticket)
    }

    /// The least ticket that is out; none exactly where none is out.
    pub fn least_out(&self) -> Option<u32>
        ensures value { result ≡ least_out self.now.outs }
        ensures least { IsLeastOut self.now.outs result }
    {
        attempt::least_out(&self.outs)
    }

    /// How many tickets are out.
    pub fn out(&self) -> u32
        ensures value { result ≡ length self.now.outs }
    {
        self.outs.len() as u32
    }

    /// The bad attempts of a job.
    pub fn bad(&self, job: u32) -> Bad
        requires known { job < length self.now.accounts }
        ensures value { result ≡ bad_of self.now job }
    {
        account_of(&self.accounts, job).bad
    }
}
