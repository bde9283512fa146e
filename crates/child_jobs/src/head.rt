//! What is known of a job once its head is there.
ghost use Rattle.std.specs.Prelude.{◌≡◌, true};
ghost use Rattle.std.specs.Option.{option_map};
ghost use Rattle.job_format.specs.Read.{setting_in};
ghost use Rattle.child_jobs.specs.Rooms.{is_sketch, is_sound};

use hash_family::Params;
use job_format::{HeadNumbers, Place};

/// What a job is for.
#[derive(Clone, Copy, Debug)]
pub enum JobKind {
    /// Items are sketched with these numbers.
    Replay(Params),
    /// A problem is searched.
    Solve,
}

/// A job's number and what it is for: the first 24 bytes of a replay job, the first 10 of a solve job.
#[derive(Clone, Copy, Debug)]
pub struct JobHead {
    /// The number of the job.
    pub job: u32,
    /// What it is for.
    pub kind: JobKind,
}

impl JobHead {
    ghost use Rattle.child_jobs.specs.Heads.{ReplayHead, SolveHead, head_at, head_of};

    /// The head of the job at a place, Some exactly behind it.
    pub(crate) fn at(place: &Place) -> Option<JobHead>
        requires sound { is_sound place.now ≡ true }
        ensures value { option_map head_of result ≡ head_at place.now }
    {
        match place {
            Place::Head { .. } => None,
            Place::Count { numbers, .. } => Some(JobHead::of_replay(numbers)),
            Place::Key { numbers, .. } => Some(JobHead::of_replay(numbers)),
            Place::Weight { numbers, .. } => Some(JobHead::of_replay(numbers)),
            Place::ReplayEnd { numbers, .. } => Some(JobHead::of_replay(numbers)),
            Place::Solve { numbers, .. } => Some(JobHead::of_solve(numbers.job)),
            Place::SolveEnd { numbers } => Some(JobHead::of_solve(numbers.job)),
        }
    }

    // The head with these numbers.
    fn of_replay(numbers: &HeadNumbers) -> JobHead
        requires sound { is_sketch numbers.now ≡ true }
        ensures value { head_of result ≡ ReplayHead numbers.now.job (setting_in numbers.now) }
    {
        let params = Params::new(
            numbers.levels,
            numbers.rows,
            numbers.width,
            numbers.heap,
            numbers.seed,
        );
        JobHead {
            job: numbers.job,
            kind: JobKind::Replay(params.unwrap()),
        }
    }

    fn of_solve(job: u32) -> JobHead
        ensures value { head_of result ≡ SolveHead job }
    {
        JobHead {
            job,
            kind: JobKind::Solve,
        }
    }
}
