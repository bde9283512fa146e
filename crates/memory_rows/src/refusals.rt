//! Each command, whichever growth of memory is refused.

use crate::made::{CROWDED, REPLAY, REPLAY_REPLY, SEARCH, SEARCH_REPLY, TOPOLOGY, TRACE, TREE};
use child_worker::WorkerAnswer;
use inline_crew::InlineCrew;
use mon_command::{Status, run};
use mon_io::{NeverInputs, NeverSink};
use std::alloc::{AllocError, Global};
use std::process::Abort;

const MEASURE: &str = "univmon measure 1
packets 3 keyed 3 routed 3
sketch seed 1 levels 12 rows 5 width 1024 heap 64 weight packets
placement optimal cost 15 bound 15
path p0 s0
switch s0 load 5 capacity 10
switch s1 load 0 capacity 10
epoch 0 packets 3 weight 3 heaps kept
cardinality 1
total 3
heavy 10.0.0.1 1000 10.1.0.2 53 17 weight 3
end
";

const PLACE: &str = "univmon place 1
nodes 1024
outcome infeasible
branches 0
univmon tree 1
hall 2 0 1
end
";

const CENTRAL: &str = "univmon central 1
packets 3 keyed 3 routed 3
sketch seed 1 levels 0 rows 1 width 16 heap all weight packets
epoch 0 packets 3 weight 3 heaps kept
level 0 packets 3 weight 3 keys 1 nonzero 1
cardinality 1
total 3
heavy 10.0.0.1 1000 10.1.0.2 53 17 weight 3
end
";

const CHECK: &str = "univmon check 1\nbound none\nbranches 0\nfull no\nend\n";

// The words of a line, which spaces divide.
fn words_of(alloc: Global, line: &str) -> Result<Vec<String>, AllocError> {
    let mut words = Vec::new(alloc);
    for word in line.split_whitespace() {
        words.push(String::from_str(alloc, word)?)?;
    }
    Ok(words)
}

// Files of these names and bytes.
fn files_of(alloc: Global, files: &[(&str, &[u8])]) -> Result<Vec<(String, Vec<u8>)>, AllocError> {
    let mut shelf = Vec::new(alloc);
    for (name, bytes) in files {
        shelf.push((String::from_str(alloc, name)?, bytes.to_vec(alloc)?))?;
    }
    Ok(shelf)
}

// How the command of a line ends over these files and children that are answered in this process, and what it wrote.
// None where memory was refused before it began.
fn ended(alloc: Global, line: &str, files: &[(&str, &[u8])]) -> Option<(Status, NeverSink)> {
    let Ok(words) = words_of(alloc, line) else {
        return None;
    };
    let Ok(shelf) = files_of(alloc, files) else {
        return None;
    };
    let Ok(mut sink) = NeverSink::new(alloc, 4096) else {
        return None;
    };
    let mut inputs = NeverInputs::new(shelf);
    let mut crew = InlineCrew::new(alloc, WorkerAnswer::new(alloc));
    let status = run(alloc, &words, &mut inputs, &mut crew, &mut sink);
    Some((status, sink))
}

// It ends so with this text, or out of memory without one. Then one more byte is taken, which fails where each growth
// up to here was granted and that of this byte is refused.
fn assert_ends(
    rt: &impl Abort,
    alloc: Global,
    line: &str,
    files: &[(&str, &[u8])],
    status: Status,
    text: &[u8],
) {
    let Some((found, sink)) = ended(alloc, line, files) else {
        return;
    };
    if found == Status::Memory {
        assert!(rt; sink.bytes().is_empty(), "nothing is written");
    } else {
        assert_eq!(rt; found, status, "{line}");
        assert_eq!(rt; sink.bytes(), text, "{line}");
    }
    assert!(rt; [0_u8].to_vec(alloc).is_ok(), "each growth was granted");
}

#[test]
fn a_measure(rt: HostRuntime) {
    let files = [("T", TOPOLOGY.as_bytes()), ("A", TRACE.as_slice())];
    let text = MEASURE.as_bytes();
    assert_ends(&rt, rt.alloc(), "measure T A", &files, Status::Done, text);
}

#[test]
fn a_placement(rt: HostRuntime) {
    let files = [("T", CROWDED.as_bytes())];
    let status = Status::Infeasible;
    assert_ends(&rt, rt.alloc(), "place T", &files, status, PLACE.as_bytes());
}

#[test]
fn a_sketch_of_all(rt: HostRuntime) {
    let files = [("T", TOPOLOGY.as_bytes()), ("A", TRACE.as_slice())];
    let line = "central A --topology T --levels 0 --rows 1 --width 16";
    let text = CENTRAL.as_bytes();
    assert_ends(&rt, rt.alloc(), line, &files, Status::Done, text);
}

#[test]
fn a_check(rt: HostRuntime) {
    let files = [("T", CROWDED.as_bytes()), ("C", TREE.as_bytes())];
    let text = CHECK.as_bytes();
    assert_ends(&rt, rt.alloc(), "check T C", &files, Status::Done, text);
}

#[test]
fn a_child_that_searches(rt: HostRuntime) {
    let files = [("-", SEARCH.as_slice())];
    assert_ends(
        &rt,
        rt.alloc(),
        "child",
        &files,
        Status::Done,
        &SEARCH_REPLY,
    );
}

#[test]
fn a_child_that_replays(rt: HostRuntime) {
    let files = [("-", REPLAY.as_slice())];
    assert_ends(
        &rt,
        rt.alloc(),
        "child",
        &files,
        Status::Done,
        &REPLAY_REPLY,
    );
}
