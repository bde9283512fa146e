//! The program's words for its children, and children that die.

use crate::made::{PRICED, words_of};
use mon_command::{Phase, Status, UsageFault};
use mon_program::run_program;
use replay_core::Bad;
use std::path::PathBuf;
use std::test::Fail;
use std::{env, fs, process};

// A new file with the topology `PRICED`.
fn priced_file(rt: &HostRuntime) -> Result<PathBuf, Fail> {
    let alloc = rt.alloc();
    let name = format!(in alloc; "place-rows-{}", process::id(rt.process()))?;
    let path = env::temp_dir(rt)?.join(alloc, name.as_str())?;
    fs::write(rt, path.as_str(), PRICED.as_bytes())?;
    Ok(path)
}

#[test]
fn a_child_that_answers_nothing(rt: HostRuntime) -> Result<(), Fail> {
    let alloc = rt.alloc();
    let path = priced_file(&rt)?;
    let line = format!(in alloc; "--worker false place {} --restarts 0", path.as_str())?;
    let status = run_program(&rt, alloc, None, &words_of(alloc, line.as_str())?);
    fs::remove_file(&rt, path.as_str())?;
    match status {
        Status::RestartsSpent {
            phase: Phase::Solve,
            job: 0,
            bad: Bad {
                start,
                feed,
                died,
                reply: 0,
            },
        } => {
            let attempts = (start, feed, died);
            let once = [(1, 0, 0), (0, 1, 0), (0, 0, 1)];
            assert!(rt; once.contains(&attempts), "{attempts:?}");
        }
        other => panic!(rt; "{other:?} where restarts were spent"),
    }
    Ok(())
}

#[test]
fn words_without_a_command(rt: HostRuntime) -> Result<(), Fail> {
    let alloc = rt.alloc();
    for (line, fault) in [
        ("", UsageFault::NoCommand),
        ("--worker", UsageFault::UnknownCommand),
        ("--worker false", UsageFault::NoCommand),
    ] {
        let words = words_of(alloc, line)?;
        let status = run_program(&rt, alloc, None, &words);
        assert_eq!(rt; status, Status::Usage(fault), "{line}");
    }
    Ok(())
}
