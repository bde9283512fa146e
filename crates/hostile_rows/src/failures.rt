//! Children that die and repeat themselves, and calls of a crew that fail, by a script.

use crate::made::{IDLE_SWITCH, ONE_SWITCH, THREE_PACKETS, run_over, three_packets};
use crate::scripted::{Failing, IDLE, NO_BAD, NONE, answers, crew_of, ended, given_up};
use crew::LogEntry;
use mon_command::{Phase, Status};
use replay_core::Bad;
use scripted_crew::Act;
use std::alloc::{AllocError, Global};
use std::process::Abort;
use std::test::Fail;

// The text of one path and two switches with narrow sketches.
const IDLE_NARROW: &str = "univmon measure 1
packets 3 keyed 3 routed 3
sketch seed 1 levels 12 rows 5 width 16 heap 64 weight packets
placement optimal cost 15 bound 15
path p0 s0
switch s0 load 5 capacity 10
switch s1 load 0 capacity 10
epoch 0 packets 3 weight 3 heaps kept
cardinality 1
total 3
heavy 10.0.0.1 1000 10.1.0.2 53 17 weight 3
end
";

#[test]
fn deaths_and_a_repeated_reply(rt: HostRuntime) -> Result<(), Fail> {
    let alloc = rt.alloc();
    let mut deaths = answers(alloc, &[0])?;
    deaths.push(Act::Die { ticket: 1 })?;
    deaths.push(Act::Reply { ticket: 2 })?;
    deaths.push(Act::Die { ticket: 3 })?;
    deaths.push(Act::Reply { ticket: 4 })?;
    let repeated = answers(alloc, &[0, 1, 1, 2])?;
    for acts in [Vec::new(alloc), deaths, repeated] {
        let crew = crew_of(&rt, alloc, NONE, acts);
        let line = "measure T A --window 1";
        let sink = ended(&rt, alloc, line, IDLE_SWITCH, crew, Status::Done)?;
        assert_eq!(rt; sink.bytes(), IDLE.as_bytes());
    }
    Ok(())
}

// Where the first attempt at the first replay fails so, another is made; and without a restart it is given up.
fn assert_one_bad(
    rt: &impl Abort,
    alloc: Global,
    failing: Failing<'_>,
    dies: &[u32],
    bad: Bad,
) -> Result<(), Fail> {
    for (line, status, text) in [
        ("measure T A --window 1", Status::Done, IDLE),
        ("measure T A --window 1 --restarts 0", given_up(bad), ""),
    ] {
        let mut acts = answers(alloc, &[0])?;
        for ticket in dies {
            acts.push(Act::Die { ticket: *ticket })?;
        }
        let crew = crew_of(rt, alloc, failing, acts);
        let sink = ended(rt, alloc, line, IDLE_SWITCH, crew, status)?;
        assert_eq!(rt; sink.bytes(), text.as_bytes(), "{line}");
    }
    Ok(())
}

#[test]
fn a_first_attempt_that_fails(rt: HostRuntime) -> Result<(), Fail> {
    let mut start = NO_BAD;
    start.start = 1;
    let mut feed = NO_BAD;
    feed.feed = 1;
    let mut died = NO_BAD;
    died.died = 1;
    let mut starts = NONE;
    starts.starts = &[1];
    let mut feeds = NONE;
    feeds.feeds = &[1];
    let mut seals = NONE;
    seals.seals = &[1];
    assert_one_bad(&rt, rt.alloc(), starts, &[], start)?;
    assert_one_bad(&rt, rt.alloc(), feeds, &[], feed)?;
    assert_one_bad(&rt, rt.alloc(), seals, &[], feed)?;
    assert_one_bad(&rt, rt.alloc(), NONE, &[1], died)
}

// The answers of tickets 0 and 1, and so many more of ticket 1.
fn repeats(alloc: Global, count: u32) -> Result<Vec<Act>, AllocError> {
    let mut acts = answers(alloc, &[0, 1])?;
    for _ in 0..count {
        acts.push(Act::Reply { ticket: 1 })?;
    }
    Ok(acts)
}

#[test]
fn the_last_stale_event(rt: HostRuntime) -> Result<(), Fail> {
    let crew = crew_of(&rt, rt.alloc(), NONE, repeats(rt.alloc(), 4096)?);
    let status = Status::StaleLimit {
        phase: Phase::Replay,
    };
    let line = "measure T A --window 1 --width 16";
    let sink = ended(&rt, rt.alloc(), line, IDLE_SWITCH, crew, status)?;
    assert_eq!(rt; sink.bytes().len(), 0);
    Ok(())
}

#[test]
fn one_stale_event_fewer(rt: HostRuntime) -> Result<(), Fail> {
    let crew = crew_of(&rt, rt.alloc(), NONE, repeats(rt.alloc(), 4095)?);
    let line = "measure T A --window 1 --width 16";
    let sink = ended(&rt, rt.alloc(), line, IDLE_SWITCH, crew, Status::Done)?;
    assert_eq!(rt; sink.bytes(), IDLE_NARROW.as_bytes());
    Ok(())
}

// The tickets that were started, and those that were stopped, in the order of the log.
fn started_and_stopped(
    alloc: Global,
    entries: &[LogEntry],
) -> Result<(Vec<u32>, Vec<u32>), AllocError> {
    let (mut started, mut stopped) = (Vec::new(alloc), Vec::new(alloc));
    for entry in entries {
        match entry {
            LogEntry::Started { ticket } => started.push(*ticket)?,
            LogEntry::Stopped { ticket } => stopped.push(*ticket)?,
            _ => {}
        }
    }
    Ok((started, stopped))
}

// Where two children may be out together, the second one's reply may come first; the first one's is then stale.
#[test]
fn a_second_child_that_answers_first(rt: HostRuntime) -> Result<(), Fail> {
    let alloc = rt.alloc();
    let mut dies = answers(alloc, &[1])?;
    dies.push(Act::Die { ticket: 2 })?;
    dies.push(Act::Reply { ticket: 3 })?;
    let stale = answers(alloc, &[1, 0, 2])?;
    let trace = three_packets(alloc)?;
    let line = "measure T A --window 2";
    for (acts, starts, stops) in [
        (dies, [0, 1, 2, 3, 4].as_slice(), [0, 4].as_slice()),
        (stale, [0, 1, 2, 3].as_slice(), [0, 3].as_slice()),
    ] {
        let mut crew = crew_of(&rt, alloc, NONE, acts);
        let (status, sink) = run_over(alloc, line, ONE_SWITCH, &trace, &mut crew)?;
        assert_eq!(rt; status, Status::Done);
        assert_eq!(rt; sink.bytes(), THREE_PACKETS.as_bytes());
        let (started, stopped) = started_and_stopped(alloc, crew.entries())?;
        assert_eq!(rt; (started.as_slice(), stopped.as_slice()), (starts, stops));
    }
    Ok(())
}
