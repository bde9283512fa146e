//! What is taken of children that answer and fail by a script, and when they are given up.
ghost use Rattle.std.specs.Prelude.{◌≡◌, ℕ, false};

use crate::made::{PRICED, has_line, run_over};
use bound_certificate::{Outcome, Placement, is_formed};
use certificate_text::read_tree_text;
use child_replies::write_reply;
use child_worker::WorkerAnswer;
use crew::Spawner;
use mon_command::{Phase, Status};
use mon_io::MemSink;
use replay_core::Bad;
use reply_format::Reply;
use scripted_crew::{Act, ScriptedCrew};
use sqlite_items::Items;
use std::alloc::{AllocError, Global};
use std::process::Abort;
use std::test::Fail;

// A right outcome of a search of one node, which is not the best one.
const BOTH_AT_A: &str = "univmon place 1
nodes 1
outcome placed
cost 13
bound 12
branches 1
path p0 a
path p1 a
switch a load 8 capacity 10
switch b load 0 capacity 10
univmon tree 1
branch 2
dual 1 4 2 0 0
dual 1 0 2 0 0
end
";

// A crew of which no call fails, and whose waits give these acts first.
fn crew_of(rt: &impl Abort, alloc: Global, acts: Vec<Act>) -> ScriptedCrew<WorkerAnswer>
    ensures issued { (⟦<ScriptedCrew<WorkerAnswer> as Spawner>⟧.state result).issued ≡ 0 }
    ensures out { (t : ℕ) → (⟦<ScriptedCrew<WorkerAnswer> as Spawner>⟧.state result).is_out t ≡ false }
{
    ScriptedCrew::new(
        alloc,
        WorkerAnswer::new(alloc),
        Vec::new(alloc),
        Vec::new(alloc),
        Vec::new(alloc),
        acts,
    )
    .expect(rt, "ample memory")
}

// The command of a line over `PRICED` ends so where the waits give these acts first; what it wrote.
fn written(
    rt: &impl Abort,
    alloc: Global,
    line: &str,
    acts: Vec<Act>,
    status: Status,
) -> Result<MemSink, Fail> {
    let mut crew = crew_of(rt, alloc, acts);
    let mut sink = MemSink::new(alloc, 4096, Vec::new(alloc))?;
    let ended = run_over(alloc, line, PRICED, &mut crew, &mut sink)?;
    assert_eq!(rt; ended, status);
    Ok(sink)
}

// The reply to job 0 that gives both paths to `a`, with the tree of the text.
fn reply_of_both(rt: &impl Abort, alloc: Global) -> Result<Vec<u8>, Fail> {
    let tree = read_tree_text(alloc, BOTH_AT_A.as_bytes()).expect(rt, "a tree");
    assert!(rt; is_formed(&tree), "a tree within its limits");
    let sites = Items::from_slice(alloc, &[0, 0])?;
    let placement = Placement { sites };
    let reply = Reply::Solve {
        job: 0,
        outcome: Outcome::Placed { placement, tree },
    };
    let mut bytes = Vec::new(alloc);
    write_reply(alloc, &reply, &mut bytes)?;
    Ok(bytes)
}

// The death of the first child, and then so many answers of it.
fn answers_of_the_dead(alloc: Global, count: u32) -> Result<Vec<Act>, AllocError> {
    let mut acts = Vec::new(alloc);
    acts.push(Act::Die { ticket: 0 })?;
    for _ in 0..count {
        acts.push(Act::Reply { ticket: 0 })?;
    }
    Ok(acts)
}

// The text tells that the least cost was reached.
fn assert_least(rt: &impl Abort, sink: &MemSink) {
    for line in ["outcome placed", "cost 12", "bound 12"] {
        assert!(rt; has_line(sink.bytes(), line), "{line}");
    }
}

#[test]
fn a_right_reply_is_taken_as_it_is(rt: HostRuntime) -> Result<(), Fail> {
    let bytes = reply_of_both(&rt, rt.alloc())?;
    let mut acts = Vec::new(rt.alloc());
    acts.push(Act::Bytes { ticket: 0, bytes })?;
    let line = "place T --nodes 1 --window 1";
    let sink = written(&rt, rt.alloc(), line, acts, Status::Done)?;
    assert_eq!(rt; sink.bytes(), BOTH_AT_A.as_bytes());
    Ok(())
}

#[test]
fn a_death_without_a_restart(rt: HostRuntime) -> Result<(), Fail> {
    let acts = answers_of_the_dead(rt.alloc(), 0)?;
    let bad = Bad {
        start: 0,
        feed: 0,
        died: 1,
        reply: 0,
    };
    let status = Status::RestartsSpent {
        phase: Phase::Solve,
        job: 0,
        bad,
    };
    let line = "place T --restarts 0 --window 1";
    let sink = written(&rt, rt.alloc(), line, acts, status)?;
    assert!(rt; sink.bytes().is_empty());
    Ok(())
}

#[test]
fn the_last_stale_event(rt: HostRuntime) -> Result<(), Fail> {
    let acts = answers_of_the_dead(rt.alloc(), 4096)?;
    let status = Status::StaleLimit {
        phase: Phase::Solve,
    };
    let sink = written(&rt, rt.alloc(), "place T --window 1", acts, status)?;
    assert!(rt; sink.bytes().is_empty());
    Ok(())
}

#[test]
fn one_stale_event_fewer(rt: HostRuntime) -> Result<(), Fail> {
    let mut acts = answers_of_the_dead(rt.alloc(), 4095)?;
    acts.push(Act::Reply { ticket: 1 })?;
    let sink = written(&rt, rt.alloc(), "place T --window 1", acts, Status::Done)?;
    assert_least(&rt, &sink);
    Ok(())
}

#[test]
fn an_empty_reply_is_followed_by_another_child(rt: HostRuntime) -> Result<(), Fail> {
    let bytes = Vec::new(rt.alloc());
    let mut acts = Vec::new(rt.alloc());
    acts.push(Act::Bytes { ticket: 0, bytes })?;
    acts.push(Act::Reply { ticket: 1 })?;
    let sink = written(&rt, rt.alloc(), "place T --window 1", acts, Status::Done)?;
    assert_least(&rt, &sink);
    Ok(())
}
