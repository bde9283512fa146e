//! What is found by children that are answered in this process.

use crate::made::{COARSE, CROWDED, PRICED, has_line, run_over};
use child_worker::WorkerAnswer;
use inline_crew::InlineCrew;
use mon_command::Status;
use mon_io::MemSink;
use std::alloc::Global;
use std::process::Abort;
use std::test::Fail;

const NONE_OF_TWO: &str = "univmon place 1
nodes 1024
outcome infeasible
branches 0
univmon tree 1
hall 2 0 1
end
";

const NONE_OF_THREE: &str = "univmon place 1
nodes 1024
outcome infeasible
branches 5
univmon tree 1
branch 2
branch 2
over
branch 2
over
over
branch 2
branch 2
over
over
over
end
";

// The command of a line over this topology ends so; what it wrote.
fn written(
    rt: &impl Abort,
    alloc: Global,
    line: &str,
    topology: &str,
    status: Status,
) -> Result<MemSink, Fail> {
    let mut crew = InlineCrew::new(alloc, WorkerAnswer::new(alloc));
    let mut sink = MemSink::new(alloc, 4096, Vec::new(alloc))?;
    let ended = run_over(alloc, line, topology, &mut crew, &mut sink)?;
    assert_eq!(rt; ended, status);
    Ok(sink)
}

#[test]
fn two_paths_are_too_much_for_one_switch(rt: HostRuntime) -> Result<(), Fail> {
    let sink = written(&rt, rt.alloc(), "place T", CROWDED, Status::Infeasible)?;
    assert_eq!(rt; sink.bytes(), NONE_OF_TWO.as_bytes());
    Ok(())
}

#[test]
fn no_two_of_three_paths_share_a_switch(rt: HostRuntime) -> Result<(), Fail> {
    let sink = written(&rt, rt.alloc(), "place T", COARSE, Status::Infeasible)?;
    assert_eq!(rt; sink.bytes(), NONE_OF_THREE.as_bytes());
    Ok(())
}

#[test]
fn two_nodes_are_spent(rt: HostRuntime) -> Result<(), Fail> {
    let status = Status::SearchBudget { nodes: 2 };
    let sink = written(&rt, rt.alloc(), "place T --nodes 2", COARSE, status)?;
    for line in ["nodes 2", "outcome spent", "branches 2"] {
        assert!(rt; has_line(sink.bytes(), line), "{line}");
    }
    Ok(())
}

#[test]
fn the_dear_switch_is_cheaper_for_both(rt: HostRuntime) -> Result<(), Fail> {
    let sink = written(&rt, rt.alloc(), "place T", PRICED, Status::Done)?;
    for line in [
        "nodes 1024",
        "outcome placed",
        "cost 12",
        "bound 12",
        "path p0 b",
        "path p1 b",
        "switch a load 0 capacity 10",
        "switch b load 8 capacity 10",
    ] {
        assert!(rt; has_line(sink.bytes(), line), "{line}");
    }
    Ok(())
}
