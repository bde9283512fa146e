//! The program: reads the words of the command line, writes the text on standard output, prints why it
//! could not on standard error, and ends with the number of the status.
#![tactic(auto)]

use mon_command::{Status, UsageFault, status_line, status_number};
use mon_program::run_program;
use std::process::{ExitCode, Processes};
use std::rt::{Env, Files};
use std::{env, io};

fn main(rt: HostRuntime) -> ExitCode {
    let status = run(&rt);
    report(&rt, &status);
    ExitCode::from(status_number(&status))
}

// Does what the words of the command line ask for.
fn run<R: Env + Files + Input + Print + Processes + AllocGlobal>(rt: &R) -> Status {
    match words(rt) {
        Ok(words) => {
            let file = env::current_exe(rt).ok();
            let own = file.as_ref().and_then(|file| file.to_str());
            run_program(rt, rt.alloc(), own, &words)
        }
        Err(error) if error.kind() == io::ErrorKind::OutOfMemory => Status::Memory,
        // A word that isn't UTF-8.
        Err(_) => Status::Usage(UsageFault::Refused),
    }
}

// The words behind the program's name.
fn words<R: Env + AllocGlobal>(rt: &R) -> io::Result<Vec<String>> {
    let mut words = env::args(rt)?;
    let _program = words.next();
    Ok(words.collect(rt.alloc())?)
}

// Prints the line of a status on standard error, where the work was not done and there is memory for it.
fn report<R: Eprint + AllocGlobal>(rt: &R, status: &Status) {
    if *status == Status::Done {
        return;
    }
    if let Ok(line) = status_line(rt.alloc(), status) {
        let _ = rt.eprintln(line.as_str());
    }
}
