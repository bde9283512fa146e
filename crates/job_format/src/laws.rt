//! What holds of every job's spelling, and of all bytes.
ghost use Rattle.std.specs.Prelude.{◌≡◌, ◌<◌, ℕ, List, [], ◌++◌, All, Result};
ghost use Rattle.job_format.specs.Job.{IsJob, Job, SpellsJob};
ghost use Rattle.job_format.specs.Read.{ReadsJob};
ghost use Rattle.job_format.specs.declared.fault.JobFault.{JobFault};

/// Each job within its limits has exactly one spelling, and no spelling of a job is a proper prefix of another's.
pub fn one_spelling()
    ensures some { (job : Job) → IsJob job → (bytes : List ℕ) × SpellsJob job bytes }
    ensures one { (job : Job) (bytes other : List ℕ) → SpellsJob job bytes → SpellsJob job other → bytes ≡ other }
    ensures no_prefix { (job other : Job) (bytes rest : List ℕ) →
        SpellsJob job bytes → SpellsJob other (bytes ++ rest) → rest ≡ [] }
{}

/// All bytes are read as a job, or come to one first breach: always one of the two, and never two.
pub fn one_reading()
    ensures always { (bytes : List ℕ) → All (λ byte. byte < 256) bytes → (read : Result Job JobFault) × ReadsJob bytes read }
    ensures one { (bytes : List ℕ) (read other : Result Job JobFault) →
        ReadsJob bytes read → ReadsJob bytes other → read ≡ other }
{}
