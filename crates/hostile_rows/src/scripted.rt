//! Crews of children that fail and answer by a script, and calls over them.
ghost use Rattle.std.specs.Prelude.{◌≡◌, ◌^◌, ◌<◌, ℕ, false};

use crate::made::{run_over, three_packets};
use child_worker::WorkerAnswer;
use crew::Spawner;
use mon_command::{Phase, Status};
use mon_io::NeverSink;
use replay_core::Bad;
use scripted_crew::{Act, ScriptedCrew};
use std::alloc::{AllocError, Global};
use std::process::Abort;
use std::test::Fail;

/// The measure of three packets of one key, which pass the first of two switches.
pub(crate) const IDLE: &str = "univmon measure 1
packets 3 keyed 3 routed 3
sketch seed 1 levels 12 rows 5 width 1024 heap 64 weight packets
placement optimal cost 15 bound 15
path p0 s0
switch s0 load 5 capacity 10
switch s1 load 0 capacity 10
epoch 0 packets 3 weight 3 heaps kept
cardinality 1
total 3
heavy 10.0.0.1 1000 10.1.0.2 53 17 weight 3
end
";

/// The tickets of which the start, the feeds and the seal fail.
#[derive(Clone, Copy)]
pub(crate) struct Failing<'a> {
    pub(crate) starts: &'a [u32],
    pub(crate) feeds: &'a [u32],
    pub(crate) seals: &'a [u32],
}

/// No call fails.
pub(crate) const NONE: Failing<'static> = Failing {
    starts: &[],
    feeds: &[],
    seals: &[],
};

/// A crew of which these calls fail, and whose waits give these acts first.
pub(crate) fn crew_of(
    rt: &impl Abort,
    alloc: Global,
    failing: Failing<'_>,
    acts: Vec<Act>,
) -> ScriptedCrew<WorkerAnswer>
    ensures issued { (⟦<ScriptedCrew<WorkerAnswer> as Spawner>⟧.state result).issued ≡ 0 }
    ensures out { (t : ℕ) → (⟦<ScriptedCrew<WorkerAnswer> as Spawner>⟧.state result).is_out t ≡ false }
{
    ScriptedCrew::new(
        alloc,
        WorkerAnswer::new(alloc),
        failing.starts.to_vec(alloc).expect(rt, "ample memory"),
        failing.feeds.to_vec(alloc).expect(rt, "ample memory"),
        failing.seals.to_vec(alloc).expect(rt, "ample memory"),
        acts,
    )
    .expect(rt, "ample memory")
}

/// The command of a line over three packets ends so with such a crew; what it wrote.
pub(crate) fn ended(
    rt: &impl Abort,
    alloc: Global,
    line: &str,
    topology: &str,
    mut crew: ScriptedCrew<WorkerAnswer>,
    status: Status,
) -> Result<NeverSink, Fail>
    requires few { (⟦<ScriptedCrew<WorkerAnswer> as Spawner>⟧.state crew).issued < 2 ^ 30 }
    requires none_out { (t : ℕ) → (⟦<ScriptedCrew<WorkerAnswer> as Spawner>⟧.state crew).is_out t ≡ false }
{
    let trace = three_packets(alloc)?;
    let (found, sink) = run_over(alloc, line, topology, &trace, &mut crew)?;
    assert_eq!(rt; found, status, "{line}");
    Ok(sink)
}

/// The answers of these tickets.
pub(crate) fn answers(alloc: Global, tickets: &[u32]) -> Result<Vec<Act>, AllocError> {
    let mut acts = Vec::new(alloc);
    for ticket in tickets {
        acts.push(Act::Reply { ticket: *ticket })?;
    }
    Ok(acts)
}

/// The first replay was given up with these bad attempts.
pub(crate) fn given_up(bad: Bad) -> Status {
    Status::RestartsSpent {
        phase: Phase::Replay,
        job: 0,
        bad,
    }
}

/// Of each count none.
pub(crate) const NO_BAD: Bad = Bad {
    start: 0,
    feed: 0,
    died: 0,
    reply: 0,
};
