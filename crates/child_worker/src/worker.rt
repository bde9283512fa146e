//! Jobs answered in memory.
ghost use Rattle.std.specs.Prelude.{◌≡◌, true};

use crate::WorkStop;
use crate::work::reply_bytes;
use crew::{AnswerStop, Answerer};
use std::alloc::Global;

/// Answers jobs in memory, as a child does.
#[derive(Drop)]
pub struct WorkerAnswer {
    alloc: Global,
    faults: u64,
}

impl WorkerAnswer {
    /// No job was refused so far. It takes no memory.
    pub fn new(alloc: Global) -> WorkerAnswer
        ensures told { (⟦<WorkerAnswer as Answerer>⟧.state result).is_told ≡ true }
        ensures faults { (⟦<WorkerAnswer as Answerer>⟧.state result).faults ≡ 0 }
    {
        WorkerAnswer { alloc, faults: 0 }
    }
}

impl Answerer for WorkerAnswer {
    ghost use Rattle.child_worker.specs.Replies.{AnswersBytes, IsRefused};

    ghost state = { λ worker. record { is_told = true; faults = worker.faults } };

    ghost answers = { λ worker job bytes. AnswersBytes job bytes };

    ghost refuses = { λ worker job. IsRefused job };

    /// `Fault` comes exactly where the bytes spell no job.
    fn answer(&mut self, job: &[u8], out: &mut Vec<u8>) -> Result<(), AnswerStop> {
        out.clear();
        match reply_bytes(self.alloc, job) {
            Ok(bytes) => {
                *out = bytes;
                Ok(())
            }
            Err(WorkStop::Fault(_)) => {
                self.faults = self.faults.saturating_add(1);
                Err(AnswerStop::Fault)
            }
            Err(WorkStop::Memory) => Err(AnswerStop::Memory),
        }
    }
}
