//! `generate`, and the commands that are unknown where no child can be started.

use super::{LITTLE, run};
use mon_command::{Opt, Status, UsageFault, status_line, status_number};
use mon_io::{MemInputs, NeverSink};
use std::test::Fail;

#[test]
fn a_trace_of_no_packet_is_its_header(rt: HostRuntime) -> Result<(), Fail> {
    let alloc = rt.alloc();
    let mut inputs = MemInputs::new(Vec::new(alloc), Vec::new(alloc));
    let mut sink = NeverSink::new(alloc, 64)?;
    let status = run(alloc, "generate trace --packets 0", &mut inputs, &mut sink)?;
    assert_eq!(rt; status, Status::Done);
    assert_eq!(rt; sink.bytes(), LITTLE.as_slice());
    Ok(())
}

#[test]
fn what_cannot_be_made_is_refused(rt: HostRuntime) -> Result<(), Fail> {
    let alloc = rt.alloc();
    let refused = Status::Usage(UsageFault::Value(Opt::Part));
    let mut inputs = MemInputs::new(Vec::new(alloc), Vec::new(alloc));
    let mut sink = NeverSink::new(alloc, 64)?;
    assert_eq!(rt;
        run(alloc, "generate frob", &mut inputs, &mut sink)?,
        refused
    );
    assert!(rt; sink.bytes().is_empty());
    assert_eq!(rt; status_number(&refused), 2);
    let line = status_line(alloc, &refused)?;
    assert_eq!(rt; line.as_str(), "univmon: usage: value of PART");
    Ok(())
}

#[test]
fn what_starts_children_is_unknown(rt: HostRuntime) -> Result<(), Fail> {
    let alloc = rt.alloc();
    for line in ["place A", "measure A B", "drill"] {
        let mut inputs = MemInputs::new(Vec::new(alloc), Vec::new(alloc));
        let mut sink = NeverSink::new(alloc, 64)?;
        assert_eq!(rt;
            run(alloc, line, &mut inputs, &mut sink)?,
            Status::Usage(UsageFault::UnknownCommand),
            "{line}"
        );
        assert!(rt; sink.bytes().is_empty());
    }
    Ok(())
}
