//! A search by two children that are out together.

use crate::made::two_switches;
use bound_certificate::Outcome;
use child_worker::WorkerAnswer;
use crew::LogEntry;
use inline_crew::InlineCrew;
use pair_crew::PairCrew;
use replay_core::Bad;
use replay_supervisor::{Stop, supervise};
use solve_jobs::SolveJobs;
use std::alloc::Global;
use std::process::Abort;

// It is a placement at these sites.
fn assert_placed_at(rt: &impl Abort, outcome: Option<Outcome>, sites: &[u8]) {
    match outcome {
        Some(Outcome::Placed { placement, tree: _ }) => {
            assert_eq!(rt; placement.sites.as_slice(), sites);
        }
        _ => panic!(rt; "no placement"),
    }
}

// Two children were fed the search; the first one replied, and the second was stopped.
fn assert_one_stops(rt: &impl Abort, entries: &[LogEntry]) {
    match entries {
        [
            LogEntry::Started { ticket: 0 },
            LogEntry::Fed { ticket: 0, .. },
            LogEntry::Sealed { ticket: 0 },
            LogEntry::Started { ticket: 1 },
            LogEntry::Fed { ticket: 1, .. },
            LogEntry::Sealed { ticket: 1 },
            LogEntry::Reply { ticket: 0, .. },
            LogEntry::Stopped { ticket: 1 },
        ] => {}
        _ => panic!(rt; "another log"),
    }
}

#[test]
fn two_children_search_together(rt: HostRuntime) {
    let alloc = rt.alloc();
    let topology = two_switches(&rt, alloc);
    let mut jobs = SolveJobs::new(alloc, topology.problem(), 1024).expect(&rt, "ample memory");
    let mut pair = PairCrew::new(alloc, InlineCrew::new(alloc, WorkerAnswer::new(alloc)));
    assert_eq!(rt; supervise(alloc, &mut pair, &mut jobs, 2, 3), Ok(()));
    assert_eq!(rt; pair.faults(), 0);
    assert_placed_at(&rt, jobs.outcome(), &[1, 1]);
    assert_one_stops(&rt, pair.inner().entries());
}

#[test]
fn one_child_after_another_dies(rt: HostRuntime) {
    let alloc = rt.alloc();
    let topology = two_switches(&rt, alloc);
    let mut jobs = SolveJobs::new(alloc, topology.problem(), 1024).expect(&rt, "ample memory");
    let mut pair = PairCrew::new(alloc, InlineCrew::new(alloc, WorkerAnswer::new(alloc)));
    let bad = Bad {
        start: 0,
        feed: 0,
        died: 4,
        reply: 0,
    };
    let spent = Stop::RestartsSpent { job: 0, bad };
    assert_eq!(rt; supervise(alloc, &mut pair, &mut jobs, 1, 3), Err(spent));
    assert_eq!(rt; pair.faults(), 4);
    assert!(rt; jobs.outcome().is_none());
}
