//! Replays by two children that are out together.
ghost use Rattle.std.specs.Prelude.{◌≡◌, ◌≤◌, ℕ, false};
ghost use Rattle.replay_jobs.specs.ReplayJobs.{replay_state};

use crate::shares::first_of_two;
use child_worker::WorkerAnswer;
use crew::LogEntry;
use flow_keys::{FlowKey, Routed};
use hash_family::Params;
use inline_crew::InlineCrew;
use pair_crew::PairCrew;
use replay_jobs::ReplayJobs;
use replay_supervisor::supervise;
use sketch_merge::Merged;
use std::alloc::{AllocError, Global};
use std::process::Abort;
use std::test::Fail;

// The key `10.0.0.1 1000 10.1.0.2 53 17`.
const KEY: [u32; 11] = [
    4,
    167_772_161,
    0,
    0,
    0,
    167_837_698,
    0,
    0,
    0,
    65_536_053,
    17,
];

// The tickets of a log.
#[derive(Drop)]
struct Tickets {
    started: Vec<u32>,
    replied: Vec<u32>,
    stopped: Vec<u32>,
}

// The tickets that were started, those that replied, and those that were stopped.
fn tickets_of(alloc: Global, entries: &[LogEntry]) -> Result<Tickets, AllocError> {
    let mut started = Vec::new(alloc);
    let mut replied = Vec::new(alloc);
    let mut stopped = Vec::new(alloc);
    for entry in entries {
        match entry {
            LogEntry::Started { ticket } => started.push(*ticket)?,
            LogEntry::Reply { ticket, .. } => replied.push(*ticket)?,
            LogEntry::Stopped { ticket } => stopped.push(*ticket)?,
            _ => {}
        }
    }
    Ok(Tickets {
        started,
        replied,
        stopped,
    })
}

// Two children were started. The first one replied, and a third one was started for the share of the second one, which
// replied before it.
fn assert_two_replay(rt: &impl Abort, alloc: Global, entries: &[LogEntry]) -> Result<(), Fail> {
    let tickets = tickets_of(alloc, entries)?;
    assert_eq!(rt; tickets.started.as_slice(), [0, 1, 2].as_slice());
    assert_eq!(rt; tickets.replied.as_slice(), [0, 1].as_slice());
    assert_eq!(rt; tickets.stopped.as_slice(), [2].as_slice());
    Ok(())
}

// One epoch, of three packets of this one key.
fn assert_merged(rt: &impl Abort, merged: &[Merged], key: FlowKey) {
    match merged {
        [epoch] => {
            assert_eq!(rt; (epoch.weight(), epoch.dropped()), (3, false));
            assert_eq!(rt; epoch.keys(0), [key].as_slice());
        }
        _ => panic!(rt; "one epoch"),
    }
}

// The replays of three packets of this key, which pass the first of two switches.
fn replays_of(rt: &impl Abort, alloc: Global, key: FlowKey) -> ReplayJobs
    ensures some { 1 ≤ (replay_state result).work.count }
    ensures few { (replay_state result).work.count ≤ 256 }
    ensures fresh { (job : ℕ) → (replay_state result).has_taken job ≡ false }
{
    let params = Params::new(12, 5, 1024, 64, 1).expect(rt, "the numbers of a sketch");
    let routed = [
        Routed {
            epoch: 0,
            path: 0,
            key,
            weight: 1,
        },
        Routed {
            epoch: 0,
            path: 0,
            key,
            weight: 1,
        },
        Routed {
            epoch: 0,
            path: 0,
            key,
            weight: 1,
        },
    ];
    let placement = first_of_two(rt, alloc);
    ReplayJobs::new(alloc, params, 1, 2, &placement, &routed).expect(rt, "ample memory")
}

#[test]
fn two_children_replay_together(rt: HostRuntime) -> Result<(), Fail> {
    let alloc = rt.alloc();
    let key = FlowKey::from_words(KEY).expect(&rt, "a key");
    let mut jobs = replays_of(&rt, alloc, key);
    let mut pair = PairCrew::new(alloc, InlineCrew::new(alloc, WorkerAnswer::new(alloc)));
    assert_eq!(rt; supervise(alloc, &mut pair, &mut jobs, 2, 3), Ok(()));
    assert_eq!(rt; pair.faults(), 0);
    assert_two_replay(&rt, alloc, pair.inner().entries())?;
    assert_merged(&rt, jobs.merged().as_slice(), key);
    Ok(())
}
