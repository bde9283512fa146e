//! `central` with epochs and with a topology.

use super::{FRAME, HEAD, LITTLE, joined, run};
use mon_command::{Input, Status, TraceFault};
use mon_io::{MemInputs, MemSink};
use std::alloc::{AllocError, Global};
use std::test::Fail;
use topology::{Entry, TopologyFault, What};

// The head of a record at second 160, and at second 580.
const LATER: [u8; 16] = [160, 0, 0, 0, 0, 0, 0, 0, 42, 0, 0, 0, 42, 0, 0, 0];

const LATE: [u8; 16] = [68, 2, 0, 0, 0, 0, 0, 0, 42, 0, 0, 0, 42, 0, 0, 0];

const TWO_EPOCHS: &str = "univmon central 1
packets 8 keyed 8 routed 8
sketch seed 1 levels 0 rows 1 width 16 heap all weight packets
epoch 0 packets 3 weight 3 heaps kept
level 0 packets 3 weight 3 keys 1 nonzero 1
cardinality 1
total 3
heavy 10.0.0.1 1000 10.1.0.2 53 17 weight 3
epoch 1 packets 5 weight 5 heaps kept
level 0 packets 5 weight 5 keys 1 nonzero 1
cardinality 1
total 5
heavy 10.0.0.1 1000 10.1.0.2 53 17 weight 5
change 0 1 total 2
changed 10.0.0.1 1000 10.1.0.2 53 17 by 2
end
";

// The head of a record at second 220.
const TWO_LATER: [u8; 16] = [220, 0, 0, 0, 0, 0, 0, 0, 42, 0, 0, 0, 42, 0, 0, 0];

const EMPTY_BETWEEN: &str = "univmon central 1
packets 3 keyed 3 routed 3
sketch seed 1 levels 0 rows 1 width 16 heap all weight packets
epoch 0 packets 1 weight 1 heaps kept
level 0 packets 1 weight 1 keys 1 nonzero 1
cardinality 1
total 1
heavy 10.0.0.1 1000 10.1.0.2 53 17 weight 1
epoch 1 packets 0 weight 0 heaps kept
level 0 packets 0 weight 0 keys 0 nonzero 0
cardinality 0
total 0
change 0 1 total 1
changed 10.0.0.1 1000 10.1.0.2 53 17 by -1
epoch 2 packets 2 weight 2 heaps kept
level 0 packets 2 weight 2 keys 1 nonzero 1
cardinality 1
total 2
heavy 10.0.0.1 1000 10.1.0.2 53 17 weight 2
change 1 2 total 2
changed 10.0.0.1 1000 10.1.0.2 53 17 by 2
end
";

const ONE_SWITCH: &str = "[[switch]]
name = 's0'
capacity = 10
open = 10
unit = 1
";

const ROUTED: &str = "univmon central 1
packets 2 keyed 2 routed 1
sketch seed 1 levels 0 rows 1 width 16 heap all weight packets
epoch 0 packets 1 weight 1 heaps kept
level 0 packets 1 weight 1 keys 1 nonzero 1
cardinality 1
total 1
heavy 10.0.0.1 1000 10.1.0.2 53 17 weight 1
end
";

// Inputs with a trace `A` and a topology `T`, of which at most one call fails.
fn two_inputs(
    alloc: Global,
    trace: Vec<u8>,
    topology: &str,
    fails: Option<u32>,
) -> Result<MemInputs, AllocError> {
    let mut files = Vec::new(alloc);
    files.push((String::from_str(alloc, "A")?, trace))?;
    let bytes = topology.as_bytes().to_vec(alloc)?;
    files.push((String::from_str(alloc, "T")?, bytes))?;
    Ok(MemInputs::new(files, fails.into_iter().collect(alloc)?))
}

// A topology of one switch, with these lines of a path.
fn one_path(alloc: Global, lines: &str) -> Result<String, AllocError> {
    format!(in alloc;
        "{ONE_SWITCH}[[path]]\nname = 'p0'\nfrom = '10.0.0.0/16'\nto = '10.1.0.0/16'\n{lines}\n"
    )
}

// Three packets at second 100, five at second 160, and some more.
fn eight_packets(alloc: Global, more: &[u8]) -> Result<Vec<u8>, AllocError> {
    let mut bytes = joined(alloc, &[&LITTLE])?;
    for _ in 0..3 {
        bytes.extend_from_slice(&HEAD)?;
        bytes.extend_from_slice(&FRAME)?;
    }
    for _ in 0..5 {
        bytes.extend_from_slice(&LATER)?;
        bytes.extend_from_slice(&FRAME)?;
    }
    bytes.extend_from_slice(more)?;
    Ok(bytes)
}

#[test]
fn tells_what_changed(rt: HostRuntime) -> Result<(), Fail> {
    let alloc = rt.alloc();
    let mut inputs = two_inputs(alloc, eight_packets(alloc, &[])?, "", None)?;
    let mut sink = MemSink::new(alloc, 4096, Vec::new(alloc))?;
    let line = "central A --epoch 60 --levels 0 --rows 1 --width 16";
    assert_eq!(rt; run(alloc, line, &mut inputs, &mut sink)?, Status::Done);
    assert_eq!(rt; sink.bytes(), TWO_EPOCHS.as_bytes());
    Ok(())
}

#[test]
fn an_empty_epoch_has_its_block(rt: HostRuntime) -> Result<(), Fail> {
    let alloc = rt.alloc();
    let trace = joined(
        alloc,
        &[
            &LITTLE, &HEAD, &FRAME, &TWO_LATER, &FRAME, &TWO_LATER, &FRAME,
        ],
    )?;
    let mut inputs = two_inputs(alloc, trace, "", None)?;
    let mut sink = MemSink::new(alloc, 4096, Vec::new(alloc))?;
    let line = "central A --epoch 60 --levels 0 --rows 1 --width 16";
    assert_eq!(rt; run(alloc, line, &mut inputs, &mut sink)?, Status::Done);
    assert_eq!(rt; sink.bytes(), EMPTY_BETWEEN.as_bytes());
    Ok(())
}

#[test]
fn tells_a_late_record(rt: HostRuntime) -> Result<(), Fail> {
    let alloc = rt.alloc();
    let more = joined(alloc, &[&LATE, &FRAME])?;
    let mut inputs = two_inputs(alloc, eight_packets(alloc, &more)?, "", None)?;
    let mut sink = MemSink::new(alloc, 4096, Vec::new(alloc))?;
    let late = TraceFault::Epochs {
        number: 8,
        index: 8,
    };
    let status = run(alloc, "central A --epoch 60", &mut inputs, &mut sink)?;
    assert_eq!(rt; status, Status::Trace(late));
    assert!(rt; sink.bytes().is_empty());
    Ok(())
}

// The frame, and once with the source 192.168.0.1; two paths, of which the first takes more.
#[test]
fn routes_by_the_paths(rt: HostRuntime) -> Result<(), Fail> {
    let alloc = rt.alloc();
    let mut other = FRAME;
    other[26] = 192;
    other[27] = 168;
    let trace = joined(alloc, &[&LITTLE, &HEAD, &FRAME, &HEAD, &other])?;
    let topology = format!(in alloc;
        "{ONE_SWITCH}[[path]]\nname = 'p0'\nfrom = '10.0.0.0/8'\nto = '0.0.0.0/0'\nload = 5\nvia = ['s0']\n[[path]]\nname = 'p1'\nfrom = '10.0.0.0/16'\nto = '10.1.0.0/16'\nload = 5\nvia = ['s0']\n"
    )?;
    let mut inputs = two_inputs(alloc, trace, &topology, None)?;
    let mut sink = MemSink::new(alloc, 4096, Vec::new(alloc))?;
    let line = "central A --topology T --levels 0 --rows 1 --width 16";
    assert_eq!(rt; run(alloc, line, &mut inputs, &mut sink)?, Status::Done);
    assert_eq!(rt; sink.bytes(), ROUTED.as_bytes());
    Ok(())
}

// The lines of the path, the call of the inputs that fails, and the status.
#[test]
fn refuses_topologies(rt: HostRuntime) -> Result<(), Fail> {
    let alloc = rt.alloc();
    let count = TopologyFault::Count {
        entry: Entry::Path,
        index: 0,
        what: What::Via,
        found: 0,
    };
    let range = TopologyFault::Range {
        entry: Entry::Path,
        index: 0,
        what: What::Load,
    };
    for (lines, fails, status) in [
        ("load = 0\nvia = ['s0']", None, Status::Topology(range)),
        (
            "load = 5\nvia = ['s9']",
            None,
            Status::Topology(TopologyFault::UnknownSwitch { path: 0 }),
        ),
        ("load = 5\nvia = []", None, Status::Topology(count)),
        ("load = ", None, Status::Topology(TopologyFault::NotToml)),
        (
            "load = 5\nvia = ['s0']",
            Some(0),
            Status::ReadFault(Input::Topology),
        ),
        (
            "load = 5\nvia = ['s0']",
            Some(3),
            Status::ReadFault(Input::Trace),
        ),
    ] {
        let trace = joined(alloc, &[&LITTLE, &HEAD, &FRAME])?;
        let mut inputs = two_inputs(alloc, trace, &one_path(alloc, lines)?, fails)?;
        let mut sink = MemSink::new(alloc, 4096, Vec::new(alloc))?;
        let told = run(alloc, "central A --topology T", &mut inputs, &mut sink)?;
        assert_eq!(rt; told, status, "{lines}");
        assert!(rt; sink.bytes().is_empty());
    }
    Ok(())
}
