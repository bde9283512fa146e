//! The program's call.
ghost use Rattle.std.specs.Prelude.{◌≡◌, ◌≤◌, true, length, map, string_bytes};
ghost use Rattle.mon_program.specs.Program.{IsProgram, has_worker};

use crate::run_inline;
use child_worker::WorkerAnswer;
use inline_crew::InlineCrew;
use mon_command::{Status, run};
use mon_io::{HostInputs, HostSink};
use process_crew::ProcessCrew;
use std::alloc::Global;
use std::process::Processes;
use std::rt::Files;

/// Does what the words ask for over the host's inputs and its standard output. A leading pair `--worker PATH` is taken
/// off: children run `PATH child` then, where `-` stands for the program's own file if it is known; without a pair they
/// are answered in this process. `--worker` with no word behind it is no pair. `place` may wait for children.
pub fn run_program<R: Files + Input + Print + Processes>(
    rt: &R,
    alloc: Global,
    own: Option<&str>,
    words: &[String],
) -> Status
    ensures outcome { IsProgram (map string_bytes words.now) result }
{
    let mut inputs = HostInputs::new(rt);
    let mut sink = HostSink::new(rt);
    if has_worker(words) {
        let Ok(path) = String::from_str(alloc, worker_path(own, &words[1])) else {
            return Status::Memory;
        };
        let mut crew = ProcessCrew::new(rt, path);
        run(alloc, &words[2..], &mut inputs, &mut crew, &mut sink)
    } else {
        let mut crew = InlineCrew::new(alloc, WorkerAnswer::new(alloc));
        run_inline(alloc, words, &mut inputs, &mut crew, &mut sink)
    }
}

// Whether the first word of at least two says that the next one names the children's program.
fn has_worker(words: &[String]) -> bool
    ensures some { result ≡ true → 2 ≤ length words.now }
    ensures value { result ≡ has_worker (map string_bytes words.now) }
{
    words.len() >= 2 && words[0].as_str() == "--worker"
}

// The program of that name, where a hyphen stands for the program's own file if it is known.
fn worker_path<'a>(own: Option<&'a str>, path: &'a str) -> &'a str {
    match own {
        Some(own) if path == "-" => own,
        _ => path,
    }
}
