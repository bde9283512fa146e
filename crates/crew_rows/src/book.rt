//! Short stories of the book of attempts.
ghost use Rattle.std.specs.Prelude.{◌≡◌, ◌≤◌, false};

use replay_core::{Bad, Core, Kind, Take, Want};
use std::alloc::Global;
use std::process::Abort;

const NONE_BAD: Bad = Bad {
    start: 0,
    feed: 0,
    died: 0,
    reply: 0,
};

// A book with tickets from 5.
#[tactic(auto, unfolding(replay_core::specs::Book::new_book))]
fn book_of(rt: &impl Abort, alloc: Global, jobs: u32, window: u32, restarts: u32) -> Core
    requires jobs_some { 1 ≤ jobs }
    requires jobs_few { jobs ≤ 256 }
    requires window_some { 1 ≤ window }
    requires window_few { window ≤ 32 }
    requires restarts { restarts ≤ 16 }
    ensures running { result.is_stopping ≡ false }
    ensures fresh { result.stale ≡ 0 }
{
    Core::new(alloc, 5, jobs, window, restarts).expect(rt, "ample memory")
}

// The next is the start of this ticket for this job, which succeeds.
fn assert_starts(rt: &impl Abort, core: &mut Core, job: u32, ticket: u32)
    requires running { core.old.is_stopping ≡ false }
    ensures running { core.new.is_stopping ≡ false }
    ensures stale { core.new.stale ≡ core.old.stale }
{
    assert_eq!(rt; core.ticket(), ticket);
    match core.next() {
        Want::Start { job: wanted } => {
            assert_eq!(rt; wanted, job);
            core.started(wanted);
        }
        other => panic!(rt; "{other:?} where a start was due"),
    }
    assert_eq!(rt; core.job_of(ticket), Some(job));
}

// The next is that the job is spent, with these bad attempts.
fn assert_spent(rt: &impl Abort, core: &Core, job: u32, bad: Bad) {
    match core.next() {
        Want::Spent { job: spent } => {
            assert_eq!(rt; spent, job);
            assert_eq!(rt; core.bad(spent), bad);
            assert_eq!(rt; core.bad(spent).total(), bad.total());
        }
        other => panic!(rt; "{other:?} where a job was spent"),
    }
}

#[test]
fn bad_attempts_are_counted_by_kind(rt: HostRuntime) {
    let mut bad = NONE_BAD;
    bad.add(Kind::Start);
    bad.add(Kind::Died);
    bad.add(Kind::Died);
    bad.add(Kind::Reply);
    let counted = Bad {
        start: 1,
        feed: 0,
        died: 2,
        reply: 1,
    };
    assert_eq!(rt; bad, counted);
    assert_eq!(rt; bad.total(), 4);
}

#[test]
fn the_first_reply_of_two_children(rt: HostRuntime) {
    let mut core = book_of(&rt, rt.alloc(), 1, 2, 1);
    assert_starts(&rt, &mut core, 0, 5);
    assert_starts(&rt, &mut core, 0, 6);
    assert_eq!(rt; core.next(), Want::Wait);
    let take = core.reply(5, true);
    let first = Take::First {
        job: 0,
        rival: Some(6),
    };
    assert_eq!(rt; take, first);
    assert_eq!(rt; take.rival(), Some(6));
    // The rival is out no longer, so the book is told of no stop.
    assert_eq!(rt; core.job_of(6), None);
    assert_eq!(rt; core.out(), 0);
    assert_eq!(rt; core.next(), Want::Finished);
}

#[test]
fn a_death_where_no_restart_is_allowed(rt: HostRuntime) {
    let mut core = book_of(&rt, rt.alloc(), 2, 1, 0);
    assert_starts(&rt, &mut core, 0, 5);
    assert_eq!(rt; core.next(), Want::Wait);
    assert!(rt; core.died(5));
    let bad = Bad {
        died: 1,
        ..NONE_BAD
    };
    assert_spent(&rt, &core, 0, bad);
}

#[test]
fn a_failed_start_and_a_failed_feed(rt: HostRuntime) {
    let mut core = book_of(&rt, rt.alloc(), 1, 1, 1);
    match core.next() {
        Want::Start { job } => core.start_failed(job),
        other => panic!(rt; "{other:?} where a start was due"),
    }
    assert_starts(&rt, &mut core, 0, 6);
    assert!(rt; core.job_of(6).is_some());
    core.feed_failed(6);
    assert_eq!(rt; core.out(), 0);
    let bad = Bad {
        start: 1,
        feed: 1,
        ..NONE_BAD
    };
    assert_spent(&rt, &core, 0, bad);
}

#[test]
fn a_reply_that_is_not_good(rt: HostRuntime) {
    let mut core = book_of(&rt, rt.alloc(), 1, 1, 0);
    assert_starts(&rt, &mut core, 0, 5);
    let take = core.reply(5, false);
    assert_eq!(rt; take, Take::Bad { job: 0 });
    assert_eq!(rt; take.rival(), None);
    let bad = Bad {
        reply: 1,
        ..NONE_BAD
    };
    assert_spent(&rt, &core, 0, bad);
}

#[test]
fn a_ticket_that_is_not_out_changes_no_job(rt: HostRuntime) {
    let mut core = book_of(&rt, rt.alloc(), 1, 1, 0);
    assert_starts(&rt, &mut core, 0, 5);
    assert_eq!(rt; core.reply(9, true), Take::Stale);
    assert_eq!(rt; core.reply(9, false), Take::Stale);
    assert!(rt; !core.died(9));
    assert_eq!(rt; core.job_of(9), None);
    assert_eq!(rt; core.job_of(5), Some(0));
    assert_eq!(rt; core.out(), 1);
    assert_eq!(rt; core.next(), Want::Wait);
}

#[test]
fn a_ticket_is_stopped(rt: HostRuntime) {
    let mut core = book_of(&rt, rt.alloc(), 1, 2, 0);
    assert_starts(&rt, &mut core, 0, 5);
    assert_starts(&rt, &mut core, 0, 6);
    assert_eq!(rt; core.least_out(), Some(5));
    assert!(rt; core.job_of(5).is_some());
    core.stopped(5);
    assert_eq!(rt; core.least_out(), Some(6));
    assert_eq!(rt; core.out(), 1);
}
