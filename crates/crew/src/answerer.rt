//! What answers a job.
ghost use Rattle.std.specs.Prelude.{◌≡◌, ◌≤◌, ℕ, List, [], true, OnOk, OnErr, IsErrOf};
ghost use Rattle.mon_io.specs.Faults.{Rose};
ghost use Rattle.crew.specs.Answers.{AnswerState, SameAnswers};

/// Why a job was not answered.
#[derive(Clone, Copy, Debug, PartialEq, Eq)]
pub enum AnswerStop {
    /// The job has no answer, and the count of faults rose.
    Fault,
    /// A growth was refused.
    Memory,
}

/// Answers jobs. Which bytes are answers to which jobs never changes, nor which jobs have none, nor whether these are
/// told.
pub trait Answerer {
    /// Whether the answers are told, and the count of faults.
    ghost state: { Self → AnswerState };

    /// Which bytes are answers to the bytes of a job.
    ghost answers: { Self → List ℕ → List ℕ → Type 0 };

    /// Which jobs have no answer.
    ghost refuses: { Self → List ℕ → Type 0 };

    /// Makes `out` an answer to the job. After a stop `out` is empty. `Fault` comes only where the job has no answer,
    /// and where the count of faults rose in the call.
    fn answer(&mut self, job: &[u8], out: &mut Vec<u8>) -> Result<(), AnswerStop>
        ensures answered { OnOk result ((state self.old).is_told ≡ true → answers self.old job.now out.new.items) }
        ensures refused { IsErrOf result AnswerStop.Fault → (state self.old).is_told ≡ true → refuses self.old job.now }
        ensures empty { OnErr result (out.new.items ≡ []) }
        ensures stays { SameAnswers (answers self.old) (answers self.new) (refuses self.old) (refuses self.new) }
        ensures told { (state self.new).is_told ≡ (state self.old).is_told }
        ensures later { (state self.old).faults ≤ (state self.new).faults }
        ensures cause { IsErrOf result AnswerStop.Fault → Rose (state self.old).faults (state self.new).faults };
}
