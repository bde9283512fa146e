//! The number and the line of each fault of a topology, of a late and a heavy record, and of each end of a search.

use mon_command::{Input, Phase, Status, TraceFault, status_line, status_number};
use replay_core::Bad;
use std::test::Fail;
use topology::{Entry, TopologyFault, What};

#[test]
fn each_fault_of_a_topology_has_its_line(rt: HostRuntime) -> Result<(), Fail> {
    let alloc = rt.alloc();
    let (entry, index, what) = (Entry::Switch, 3, What::Opening);
    for (fault, line) in [
        (TopologyFault::NotToml, "not toml"),
        (TopologyFault::TooLong, "too long"),
        (
            TopologyFault::Missing { entry, index, what },
            "missing switch 3 open",
        ),
        (
            TopologyFault::WrongKind { entry, index, what },
            "wrong kind switch 3 open",
        ),
        (
            TopologyFault::Range { entry, index, what },
            "range switch 3 open",
        ),
        (TopologyFault::BadName { entry, index }, "bad name switch 3"),
        (
            TopologyFault::TwiceNamed { entry, index },
            "twice named switch 3",
        ),
        (
            TopologyFault::UnknownSwitch { path: 7 },
            "unknown switch path 7",
        ),
        (TopologyFault::TwiceVia { path: 7 }, "twice via path 7"),
        (
            TopologyFault::BadPrefix {
                path: 7,
                what: What::To,
            },
            "bad prefix path 7 to",
        ),
        (
            TopologyFault::MixedFamily { path: 7 },
            "mixed family path 7",
        ),
        (
            TopologyFault::Count {
                entry: Entry::Path,
                index: 0,
                what: What::List,
                found: 65,
            },
            "count path 0 list found 65",
        ),
    ] {
        let status = Status::Topology(fault);
        assert_eq!(rt; status_number(&status), 4, "{line}");
        let told = status_line(alloc, &status)?;
        let wanted = format!(in alloc; "univmon: topology: {line}")?;
        assert_eq!(rt; told.as_bytes(), wanted.as_bytes(), "{line}");
    }
    Ok(())
}

#[test]
fn late_and_heavy_records_have_their_lines(rt: HostRuntime) -> Result<(), Fail> {
    let alloc = rt.alloc();
    let late = Status::Trace(TraceFault::Epochs {
        number: 5,
        index: 8,
    });
    assert_eq!(rt; status_number(&late), 5);
    let told = status_line(alloc, &late)?;
    assert_eq!(rt;
        told.as_bytes(),
        "univmon: trace: epoch 8 at record 5".as_bytes()
    );
    let heavy = Status::Trace(TraceFault::Weight { number: 4096 });
    assert_eq!(rt; status_number(&heavy), 5);
    let told = status_line(alloc, &heavy)?;
    assert_eq!(rt;
        told.as_bytes(),
        "univmon: trace: weight at record 4096".as_bytes()
    );
    let told = status_line(alloc, &Status::ReadFault(Input::Topology))?;
    assert_eq!(rt; told.as_bytes(), "univmon: cannot read topology".as_bytes());
    Ok(())
}

#[test]
fn each_end_of_a_search_has_its_line(rt: HostRuntime) -> Result<(), Fail> {
    let alloc = rt.alloc();
    for (status, number, line) in [
        (Status::Infeasible, 6, "univmon: infeasible"),
        (
            Status::SearchBudget { nodes: 2 },
            7,
            "univmon: search budget 2 spent",
        ),
        (
            Status::StaleLimit {
                phase: Phase::Solve,
            },
            9,
            "univmon: too many stale events: solve",
        ),
        (
            Status::StaleLimit {
                phase: Phase::Replay,
            },
            9,
            "univmon: too many stale events: replay",
        ),
    ] {
        assert_eq!(rt; status_number(&status), number, "{line}");
        let told = status_line(alloc, &status)?;
        assert_eq!(rt; told.as_bytes(), line.as_bytes());
    }
    Ok(())
}

#[test]
fn spent_restarts_have_their_line(rt: HostRuntime) -> Result<(), Fail> {
    let alloc = rt.alloc();
    let bad = Bad {
        start: 1,
        feed: 2,
        died: 3,
        reply: 4,
    };
    for (phase, job, told) in [
        (Phase::Solve, 0, "solve job 0"),
        (Phase::Replay, 17, "replay job 17"),
    ] {
        let status = Status::RestartsSpent { phase, job, bad };
        assert_eq!(rt; status_number(&status), 8);
        let line = format!(in alloc;
            "univmon: restarts spent: {told}: start 1 feed 2 died 3 reply 4"
        )?;
        assert_eq!(rt; status_line(alloc, &status)?.as_bytes(), line.as_bytes());
    }
    Ok(())
}
