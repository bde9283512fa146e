//! `child`, and the line of each breach of a job.

use super::run;
use job_format::JobFault;
use mon_command::{Input, Status, UsageFault, status_line, status_number};
use mon_io::{MemInputs, MemSink};
use std::alloc::{AllocError, Global};
use std::test::Fail;

// A job without items: number 0, levels 0, rows 1, width 16, heap 1, seed 1.
const EMPTY: [u8; 26] = [
    85, 77, 74, 66, 1, 0, 0, 0, 0, 0, 0, 1, 16, 0, 1, 0, 1, 0, 0, 0, 0, 0, 0, 0, 0, 0,
];

// Its reply: no counter, and an empty heap.
const REPLY: [u8; 32] = [
    85, 77, 82, 80, 2, 0, 0, 0, 0, 0, 0, 1, 16, 0, 1, 0, 0, 0, 0, 0, 0, 0, 0, 0, 0, 0, 0, 0, 0, 0,
    0, 0,
];

// Standard input with these bytes, of which at most one call fails.
fn standard_input(
    alloc: Global,
    bytes: &[u8],
    fails: Option<u32>,
) -> Result<MemInputs, AllocError> {
    let mut files = Vec::new(alloc);
    files.push((String::from_str(alloc, "-")?, bytes.to_vec(alloc)?))?;
    Ok(MemInputs::new(files, fails.into_iter().collect(alloc)?))
}

#[test]
fn a_job_is_answered(rt: HostRuntime) -> Result<(), Fail> {
    let alloc = rt.alloc();
    let mut inputs = standard_input(alloc, &EMPTY, None)?;
    let mut sink = MemSink::new(alloc, 4096, Vec::new(alloc))?;
    assert_eq!(rt; run(alloc, "child", &mut inputs, &mut sink)?, Status::Done);
    assert_eq!(rt; sink.bytes(), REPLY.as_slice());
    Ok(())
}

#[test]
fn what_is_no_job_is_refused(rt: HostRuntime) -> Result<(), Fail> {
    let alloc = rt.alloc();
    let mut longer = EMPTY.to_vec(alloc)?;
    longer.push(0)?;
    for (words, bytes, fails, status) in [
        ("child", &EMPTY[..25], None, Status::Job(JobFault::Short)),
        (
            "child",
            longer.as_slice(),
            None,
            Status::Job(JobFault::Extra),
        ),
        ("child", &EMPTY[1..], None, Status::Job(JobFault::Magic)),
        (
            "child",
            EMPTY.as_slice(),
            Some(0),
            Status::ReadFault(Input::Job),
        ),
        (
            "child",
            EMPTY.as_slice(),
            Some(1),
            Status::ReadFault(Input::Job),
        ),
        (
            "child -",
            EMPTY.as_slice(),
            None,
            Status::Usage(UsageFault::Refused),
        ),
    ] {
        let mut inputs = standard_input(alloc, bytes, fails)?;
        let mut sink = MemSink::new(alloc, 4096, Vec::new(alloc))?;
        assert_eq!(rt; run(alloc, words, &mut inputs, &mut sink)?, status);
        assert!(rt; sink.bytes().is_empty());
    }
    Ok(())
}

#[test]
fn a_reply_that_cannot_be_written_is_told(rt: HostRuntime) -> Result<(), Fail> {
    let alloc = rt.alloc();
    let mut inputs = standard_input(alloc, &EMPTY, None)?;
    let mut sink = MemSink::new(alloc, 31, Vec::new(alloc))?;
    assert_eq!(rt;
        run(alloc, "child", &mut inputs, &mut sink)?,
        Status::SinkFault
    );
    assert_eq!(rt; sink.bytes(), &REPLY[..31]);
    Ok(())
}

#[test]
fn each_breach_of_a_job_has_its_line(rt: HostRuntime) -> Result<(), Fail> {
    let alloc = rt.alloc();
    for (status, number, line) in [
        (Status::ReadFault(Input::Job), 3, "univmon: cannot read job"),
        (Status::Job(JobFault::Short), 12, "univmon: job: short"),
        (Status::Job(JobFault::Magic), 12, "univmon: job: magic"),
        (Status::Job(JobFault::Version), 12, "univmon: job: version"),
        (Status::Job(JobFault::Shape), 12, "univmon: job: shape"),
        (Status::Job(JobFault::Extra), 12, "univmon: job: extra"),
    ] {
        assert_eq!(rt; status_number(&status), number);
        assert_eq!(rt; status_line(alloc, &status)?.as_str(), line);
    }
    Ok(())
}
