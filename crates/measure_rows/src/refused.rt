//! Words, topologies and traces that are refused.

use crate::made::{FRAME, HEADER, ONE_SWITCH, run_over, trace_of};
use child_worker::WorkerAnswer;
use inline_crew::InlineCrew;
use mon_command::{Opt, Status, TraceFault, UsageFault};
use std::alloc::Global;
use std::process::Abort;
use std::test::Fail;
use topology::{Entry, TopologyFault, What};

// One path by one switch, with no load, by an unknown switch, and by none.
const NO_LOAD: &str = "switch = [{name='s0',capacity=10,open=10,unit=1}]
path = [{name='p0',from='10.0.0.0/16',to='10.1.0.0/16',load=0,via=['s0']}]
";

const UNKNOWN_SWITCH: &str = "switch = [{name='s0',capacity=10,open=10,unit=1}]
path = [{name='p0',from='10.0.0.0/16',to='10.1.0.0/16',load=5,via=['s9']}]
";

const NO_SWITCH: &str = "switch = [{name='s0',capacity=10,open=10,unit=1}]
path = [{name='p0',from='10.0.0.0/16',to='10.1.0.0/16',load=5,via=[]}]
";

// The command of a line over these files ends so, writes nothing and starts nobody.
fn assert_refused(
    rt: &impl Abort,
    alloc: Global,
    line: &str,
    topology: &str,
    trace: &[u8],
    status: Status,
) -> Result<(), Fail> {
    let mut crew = InlineCrew::new(alloc, WorkerAnswer::new(alloc));
    let (found, sink) = run_over(alloc, line, topology, trace, &mut crew)?;
    assert_eq!(rt; found, status, "{line}");
    assert_eq!(rt; sink.bytes().len(), 0);
    assert_eq!(rt; crew.entries().len(), 0);
    Ok(())
}

#[test]
fn words_are_refused(rt: HostRuntime) -> Result<(), Fail> {
    for (line, fault) in [
        ("", UsageFault::NoCommand),
        ("measure T", UsageFault::Refused),
        ("measure T A --rows 2", UsageFault::Value(Opt::Rows)),
        ("measure T A --heap 0", UsageFault::Value(Opt::Heap)),
        (
            "measure T A --weight octets",
            UsageFault::Value(Opt::Weight),
        ),
        ("drill T", UsageFault::Refused),
        ("drill --flows 0", UsageFault::Value(Opt::Flows)),
        ("generate", UsageFault::Refused),
        ("generate tree", UsageFault::Value(Opt::Part)),
    ] {
        let status = Status::Usage(fault);
        assert_refused(&rt, rt.alloc(), line, ONE_SWITCH, &HEADER, status)?;
    }
    Ok(())
}

#[test]
fn what_is_read_is_refused(rt: HostRuntime) -> Result<(), Fail> {
    let (entry, index, found) = (Entry::Path, 0, 0);
    let what = What::Load;
    let range = TopologyFault::Range { entry, index, what };
    let what = What::Via;
    let count = TopologyFault::Count {
        entry,
        index,
        what,
        found,
    };
    let unknown = TopologyFault::UnknownSwitch { path: 0 };
    let late = TraceFault::Epochs {
        number: 8,
        index: 8,
    };
    let mut records = Vec::new(rt.alloc());
    for seconds in [100, 100, 100, 160, 160, 160, 160, 160, 580] {
        records.push((seconds, FRAME))?;
    }
    let trace = trace_of(rt.alloc(), &records)?;
    for (topology, status) in [
        (NO_LOAD, Status::Topology(range)),
        (UNKNOWN_SWITCH, Status::Topology(unknown)),
        (NO_SWITCH, Status::Topology(count)),
        (ONE_SWITCH, Status::Trace(late)),
    ] {
        let line = "measure T A --epoch 60";
        assert_refused(&rt, rt.alloc(), line, topology, &trace, status)?;
    }
    Ok(())
}
