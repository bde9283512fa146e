//! What the crew that answers in this process gives.
ghost use Rattle.std.specs.Prelude.{◌≤◌};

use crate::calls::{assert_dies, feed, reply_of, seal, start};
use crate::made::{EMPTY_JOB, EMPTY_REPLY};
use child_worker::WorkerAnswer;
use crew::{LogEntry, Spawner};
use inline_crew::InlineCrew;
use std::alloc::Global;
use std::process::Abort;

// A crew of one child, which died of a job of no byte. The count of faults, which was 0, rose.
fn crew_of_the_dead(rt: &impl Abort, alloc: Global) -> InlineCrew<WorkerAnswer>
    ensures counted { 1 ≤ (⟦<InlineCrew<WorkerAnswer> as Spawner>⟧.state result).faults }
{
    let mut crew = InlineCrew::new(alloc, WorkerAnswer::new(alloc));
    start(rt, &mut crew, 0);
    seal(rt, &mut crew, 0);
    assert_dies(rt, &mut crew, 0);
    crew
}

#[test]
fn no_byte_is_no_job(rt: HostRuntime) {
    let crew = crew_of_the_dead(&rt, rt.alloc());
    assert_eq!(rt; crew.issued(), 1);
    match crew.entries() {
        [
            LogEntry::Started { ticket: 0 },
            LogEntry::Sealed { ticket: 0 },
            LogEntry::Died { ticket: 0 },
        ] => {}
        _ => panic!(rt; "a death"),
    }
}

#[test]
fn a_job_in_two_pieces(rt: HostRuntime) {
    let mut crew = InlineCrew::new(rt.alloc(), WorkerAnswer::new(rt.alloc()));
    start(&rt, &mut crew, 0);
    feed(&rt, &mut crew, 0, &EMPTY_JOB[..5]);
    feed(&rt, &mut crew, 0, &EMPTY_JOB[5..]);
    seal(&rt, &mut crew, 0);
    let reply = reply_of(&rt, &mut crew, 0);
    assert_eq!(rt; reply.as_slice(), EMPTY_REPLY.as_slice());
    match crew.entries() {
        [
            LogEntry::Started { ticket: 0 },
            LogEntry::Fed {
                ticket: 0,
                piece: first,
            },
            LogEntry::Fed {
                ticket: 0,
                piece: second,
            },
            LogEntry::Sealed { ticket: 0 },
            LogEntry::Reply { ticket: 0, bytes },
        ] => {
            assert_eq!(rt; first.as_slice(), &EMPTY_JOB[..5]);
            assert_eq!(rt; second.as_slice(), &EMPTY_JOB[5..]);
            assert_eq!(rt; bytes.as_slice(), EMPTY_REPLY.as_slice());
        }
        _ => panic!(rt; "two pieces and a reply"),
    }
}

#[test]
fn a_ticket_is_stopped(rt: HostRuntime) {
    let mut crew = InlineCrew::new(rt.alloc(), WorkerAnswer::new(rt.alloc()));
    start(&rt, &mut crew, 0);
    start(&rt, &mut crew, 1);
    crew.stop(0);
    assert_dies(&rt, &mut crew, 1);
    match crew.entries() {
        [
            LogEntry::Started { ticket: 0 },
            LogEntry::Started { ticket: 1 },
            LogEntry::Stopped { ticket: 0 },
            LogEntry::Died { ticket: 1 },
        ] => {}
        _ => panic!(rt; "the second child answers once the first is stopped"),
    }
}
