//! What the crew that fails and answers by a script gives.
ghost use Rattle.std.specs.Prelude.{◌≡◌, ℕ, false};

use crate::calls::{
    assert_dies, assert_feed_fails, assert_seal_fails, assert_start_fails, feed, reply_of, seal,
    start,
};
use crate::made::{EMPTY_JOB, EMPTY_REPLY};
use child_worker::WorkerAnswer;
use crew::{LogEntry, Spawner};
use scripted_crew::{Act, ScriptedCrew};
use std::alloc::Global;
use std::process::Abort;
use std::test::Fail;

// A crew of which no call fails, and whose waits give these acts first.
fn crew_of(rt: &impl Abort, alloc: Global, acts: Vec<Act>) -> ScriptedCrew<WorkerAnswer>
    ensures issued { (⟦<ScriptedCrew<WorkerAnswer> as Spawner>⟧.state result).issued ≡ 0 }
    ensures out { (t : ℕ) → (⟦<ScriptedCrew<WorkerAnswer> as Spawner>⟧.state result).is_out t ≡ false }
{
    ScriptedCrew::new(
        alloc,
        WorkerAnswer::new(alloc),
        Vec::new(alloc),
        Vec::new(alloc),
        Vec::new(alloc),
        acts,
    )
    .expect(rt, "ample memory")
}

// How many of the entries tell of a failed call or a death, which is the crew's count of faults.
fn failures(entries: &[LogEntry]) -> usize {
    entries
        .iter()
        .filter(|entry| {
            matches!(
                entry,
                LogEntry::StartFailed { .. } | LogEntry::FeedFailed { .. } | LogEntry::Died { .. }
            )
        })
        .count()
}

#[test]
fn a_listed_start_fails(rt: HostRuntime) -> Result<(), Fail> {
    let alloc = rt.alloc();
    let mut crew = ScriptedCrew::new(
        alloc,
        WorkerAnswer::new(alloc),
        [0].to_vec(alloc)?,
        Vec::new(alloc),
        Vec::new(alloc),
        Vec::new(alloc),
    )?;
    assert_start_fails(&rt, &mut crew, 0);
    start(&rt, &mut crew, 1);
    assert_eq!(rt; crew.issued(), 2);
    match crew.entries() {
        [
            LogEntry::StartFailed { ticket: 0 },
            LogEntry::Started { ticket: 1 },
        ] => {}
        _ => panic!(rt; "a failed start and a start"),
    }
    assert_eq!(rt; failures(crew.entries()), 1);
    Ok(())
}

#[test]
fn listed_feeds_and_seals_fail(rt: HostRuntime) -> Result<(), Fail> {
    let alloc = rt.alloc();
    let mut crew = ScriptedCrew::new(
        alloc,
        WorkerAnswer::new(alloc),
        Vec::new(alloc),
        [0].to_vec(alloc)?,
        [1].to_vec(alloc)?,
        Vec::new(alloc),
    )?;
    start(&rt, &mut crew, 0);
    assert_feed_fails(&rt, &mut crew, 0, &EMPTY_JOB);
    crew.stop(0);
    start(&rt, &mut crew, 1);
    feed(&rt, &mut crew, 1, &EMPTY_JOB);
    assert_seal_fails(&rt, &mut crew, 1);
    match crew.entries() {
        [
            LogEntry::Started { ticket: 0 },
            LogEntry::FeedFailed { ticket: 0 },
            LogEntry::Stopped { ticket: 0 },
            LogEntry::Started { ticket: 1 },
            LogEntry::Fed { ticket: 1, .. },
            LogEntry::FeedFailed { ticket: 1 },
        ] => {}
        _ => panic!(rt; "a feed and a seal that failed"),
    }
    assert_eq!(rt; failures(crew.entries()), 2);
    Ok(())
}

#[test]
fn the_acts_come_in_order(rt: HostRuntime) -> Result<(), Fail> {
    let alloc = rt.alloc();
    let bytes = [7, 9].to_vec(alloc)?;
    let acts = vec![in alloc; Act::Die { ticket: 1 }, Act::Bytes { ticket: 2, bytes }]?;
    let mut crew = crew_of(&rt, alloc, acts);
    start(&rt, &mut crew, 0);
    start(&rt, &mut crew, 1);
    start(&rt, &mut crew, 2);
    assert_dies(&rt, &mut crew, 1);
    let reply = reply_of(&rt, &mut crew, 2);
    assert_eq!(rt; reply.as_slice(), [7, 9].as_slice());
    assert_eq!(rt; failures(crew.entries()), 1);
    Ok(())
}

#[test]
fn the_oldest_is_answered_without_acts(rt: HostRuntime) {
    let mut crew = crew_of(&rt, rt.alloc(), Vec::new(rt.alloc()));
    start(&rt, &mut crew, 0);
    feed(&rt, &mut crew, 0, &EMPTY_JOB);
    seal(&rt, &mut crew, 0);
    start(&rt, &mut crew, 1);
    let reply = reply_of(&rt, &mut crew, 0);
    assert_eq!(rt; reply.as_slice(), EMPTY_REPLY.as_slice());
    match crew.entries() {
        [
            LogEntry::Started { ticket: 0 },
            LogEntry::Fed { ticket: 0, .. },
            LogEntry::Sealed { ticket: 0 },
            LogEntry::Started { ticket: 1 },
            LogEntry::Reply { ticket: 0, .. },
        ] => {}
        _ => panic!(rt; "the oldest is answered"),
    }
    assert_eq!(rt; failures(crew.entries()), 0);
}

#[test]
fn a_job_of_no_byte_is_a_death(rt: HostRuntime) {
    let mut crew = crew_of(&rt, rt.alloc(), Vec::new(rt.alloc()));
    start(&rt, &mut crew, 0);
    start(&rt, &mut crew, 1);
    assert_dies(&rt, &mut crew, 0);
    assert_dies(&rt, &mut crew, 1);
    assert_eq!(rt; failures(crew.entries()), 2);
}
