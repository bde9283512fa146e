//! Replies that are spoiled in one place, in both versions. Each is made of a reply that is well formed and untrue, so
//! that the text would tell it if it were taken.

use crate::made::{IDLE_SWITCH, ONE_SWITCH};
use crate::replies::{HEAPS_OF_FIRST, HEAPS_OF_SECOND, changed, reply_of, search_reply};
use crate::scripted::{IDLE, NO_BAD, NONE, answers, crew_of, ended, given_up};
use mon_command::Status;
use mon_io::NeverSink;
use scripted_crew::Act;
use std::alloc::Global;
use std::process::Abort;
use std::test::Fail;

// The command of a line ends so where the first attempt at the first replay has these bytes as its reply; what it wrote.
fn answered(
    rt: &impl Abort,
    alloc: Global,
    line: &str,
    topology: &str,
    bytes: &[u8],
    status: Status,
) -> Result<NeverSink, Fail> {
    let bytes = bytes.to_vec(alloc)?;
    let mut acts = answers(alloc, &[0])?;
    acts.push(Act::Bytes { ticket: 1, bytes })?;
    let crew = crew_of(rt, alloc, NONE, acts);
    ended(rt, alloc, line, topology, crew, status)
}

// Another attempt is made where that reply has these bytes; and without a restart the replay is given up.
fn assert_spoiled(rt: &impl Abort, alloc: Global, bytes: &[u8]) -> Result<(), Fail> {
    let mut bad = NO_BAD;
    bad.reply = 1;
    for (line, status, text) in [
        ("measure T A --window 1 --restarts 3", Status::Done, IDLE),
        ("measure T A --window 1 --restarts 0", given_up(bad), ""),
    ] {
        let sink = answered(rt, alloc, line, IDLE_SWITCH, bytes, status)?;
        assert_eq!(rt; sink.bytes(), text.as_bytes(), "{line}");
    }
    Ok(())
}

// The reply of this version is spoiled by each of these bytes in its place.
fn assert_each_spoiled(
    rt: &impl Abort,
    alloc: Global,
    version: u8,
    places: &[(usize, &[u8])],
) -> Result<(), Fail> {
    let bytes = reply_of(alloc, version, 1)?;
    for (at, new) in places {
        let other = changed(alloc, &bytes, *at, new)?;
        assert!(rt; other != bytes, "version {version} is changed at {at}");
        assert_spoiled(rt, alloc, &other)?;
    }
    Ok(())
}

// No byte, one fewer, one more, the key given twice, and the reply to a search.
fn assert_lengths(rt: &impl Abort, alloc: Global, version: u8) -> Result<(), Fail> {
    let bytes = reply_of(alloc, version, 1)?;
    let mut shorter = bytes.clone()?;
    assert!(rt; shorter.pop().is_some());
    let mut longer = bytes.clone()?;
    longer.push(0)?;
    let twice = reply_of(alloc, version, 2)?;
    let search = search_reply(alloc, version)?;
    for other in [Vec::new(alloc), shorter, longer, twice, search] {
        assert_spoiled(rt, alloc, &other)?;
    }
    Ok(())
}

#[test]
fn a_reply_of_another_length(rt: HostRuntime) -> Result<(), Fail> {
    assert_lengths(&rt, rt.alloc(), 1)?;
    assert_lengths(&rt, rt.alloc(), 2)
}

// The magic number, the version, the job, the levels, the items, and their weight.
#[test]
fn a_head_that_is_changed(rt: HostRuntime) -> Result<(), Fail> {
    let places = [
        (0, [0x54].as_slice()),
        (4, [9].as_slice()),
        (6, [1].as_slice()),
        (10, [11].as_slice()),
        (16, [2].as_slice()),
        (20, [4].as_slice()),
    ];
    assert_each_spoiled(&rt, rt.alloc(), 1, &places)?;
    assert_each_spoiled(&rt, rt.alloc(), 2, &places)
}

// The first counter is above the weight, or below all.
#[test]
fn a_counter_out_of_its_range(rt: HostRuntime) -> Result<(), Fail> {
    let four = 4_i64.to_le_bytes();
    let least = i64::MIN.to_le_bytes();
    let first = [(28, four.as_slice()), (28, least.as_slice())];
    let second = [(32, four.as_slice()), (32, least.as_slice())];
    assert_each_spoiled(&rt, rt.alloc(), 1, &first)?;
    assert_each_spoiled(&rt, rt.alloc(), 2, &second)
}

// A count above the width, a counter of 0, a second bucket at the width, and one that is the first.
#[test]
fn a_row_that_is_changed(rt: HostRuntime) -> Result<(), Fail> {
    let places = [
        (28, [1, 4].as_slice()),
        (32, [0].as_slice()),
        (40, [0, 4].as_slice()),
        (40, [0, 0].as_slice()),
    ];
    assert_each_spoiled(&rt, rt.alloc(), 2, &places)
}

// Of the first heap its length, its mark, and the family of its key.
#[test]
fn a_heap_that_is_changed(rt: HostRuntime) -> Result<(), Fail> {
    for (version, heaps) in [(1, HEAPS_OF_FIRST), (2, HEAPS_OF_SECOND)] {
        let places = [
            (heaps, [65].as_slice()),
            (heaps + 1, [0x80].as_slice()),
            (heaps + 2, [5].as_slice()),
        ];
        assert_each_spoiled(&rt, rt.alloc(), version, &places)?;
    }
    Ok(())
}

// What is spoiled above is taken as it is.
#[test]
fn a_reply_that_is_not_spoiled_is_taken(rt: HostRuntime) -> Result<(), Fail> {
    let alloc = rt.alloc();
    let line = "measure T A --window 1 --restarts 0";
    for version in [1, 2] {
        let bytes = reply_of(alloc, version, 1)?;
        let sink = answered(&rt, alloc, line, IDLE_SWITCH, &bytes, Status::Done)?;
        assert!(rt;
            sink.bytes() != IDLE.as_bytes(),
            "version {version} is untrue"
        );
    }
    Ok(())
}

#[test]
fn an_untrue_reply_is_reported_as_it_is(rt: HostRuntime) -> Result<(), Fail> {
    let bytes = reply_of(rt.alloc(), 1, 0)?;
    let line = "measure T A --window 1";
    let sink = answered(&rt, rt.alloc(), line, ONE_SWITCH, &bytes, Status::Done)?;
    let block = "epoch 0 packets 3 weight 3 heaps kept\ncardinality 0\ntotal 0\nend\n";
    assert!(rt; sink.bytes().ends_with(block.as_bytes()));
    Ok(())
}
