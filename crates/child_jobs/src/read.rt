//! A job from its bytes.
ghost use Rattle.std.specs.Prelude.{◌≡◌, ◌≤◌, ◌⊎◌, List, ℕ, Result, Ok, Err, [], length, drop, IfOk, IfErr};
ghost use Rattle.std.specs.Option.{option_map};
ghost use Rattle.job_format.specs.Job.{Job as AnyJob};
ghost use Rattle.job_format.specs.Read.{BreaksJob, ReadsJob, read_as};
ghost use Rattle.job_format.specs.declared.fault.JobFault.{JobFault as Fault};
ghost use Rattle.job_format.specs.declared.fault.JobFault.TheVariants.{Memory};
ghost use Rattle.child_jobs.specs.Ends.{Ends};
ghost use Rattle.child_jobs.specs.Heads.{head_of};
ghost use Rattle.child_jobs.specs.Reader.{HasTaken};

use crate::{JobEnd, JobHead, JobKind, JobReader};
use job_format::{Item, Job, JobFault};
use sqlite_items::Items;
use std::alloc::Global;

/// The job that these bytes spell, else their first breach: `Short` where they end inside a job, `Magic`, `Version`,
/// `Shape` and `Extra` as `JobFault` says, or `Memory`. It takes memory.
pub fn read_job(alloc: Global, bytes: &[u8]) -> Result<Job, JobFault>
    ensures reads { (result ≡ Err Memory) ⊎ ReadsJob bytes.now (read_as result) }

    // No other answer would do.
    ensures alone { (other : Result AnyJob Fault) → ReadsJob bytes.now other
        → (result ≡ Err Memory) ⊎ (read_as result ≡ other) }
{
    let Ok(mut reader) = JobReader::new(alloc) else {
        return Err(JobFault::Memory);
    };
    match take_all(alloc, &mut reader, bytes) {
        Ok(items) => whole_job(alloc, reader, items),
        Err(fault) => Err(fault),
    }
}

// Gives a reader all bytes, and collects the items of each frame.
fn take_all(alloc: Global, reader: &mut JobReader, bytes: &[u8]) -> Result<Vec<Item>, JobFault>
    requires start { HasTaken reader.old [] [] }
    ensures takes { IfOk result (λ items. HasTaken reader.new bytes.now items.items) }
    ensures breach { IfErr result (λ fault. (fault ≡ Memory) ⊎ BreaksJob bytes.now fault) }
{
    let mut items = Vec::new(alloc);
    let mut taken = 0;
    while taken < bytes.len() {
        match reader.feed(rest_of(bytes, taken)) {
            Ok(count) => taken += count,
            Err(fault) => return Err(fault),
        }
        let Ok(()) = items.extend_from_slice(reader.frame()) else {
            return Err(JobFault::Memory);
        };
    }
    Ok(items)
}

// What a reader that has taken all bytes says that they are.
fn whole_job(alloc: Global, reader: JobReader, items: Vec<Item>) -> Result<Job, JobFault>
    ensures reads { (bytes : List ℕ) → HasTaken reader bytes items.items
        → (result ≡ Err Memory) ⊎ ReadsJob bytes (read_as result) }
{
    let head = reader.head();
    match reader.finish(alloc) {
        Ok(end) => job_of(head, end, items),
        Err(fault) => Err(fault),
    }
}

// The job with this head and this end, which are of one kind.
fn job_of(head: Option<JobHead>, end: JobEnd, items: Vec<Item>) -> Result<Job, JobFault>
    ensures reads { (bytes : List ℕ) → Ends bytes (option_map head_of head) items.items (Ok end)
        → ReadsJob bytes (read_as result) }
{
    let Some(head) = head else {
        return Err(JobFault::Short);
    };
    match (head.kind, end) {
        (JobKind::Replay(params), JobEnd::Replay) => Ok(Job::Replay {
            job: head.job,
            params,
            items: Items::from_vec(items),
        }),
        (JobKind::Solve, JobEnd::Solve { nodes, problem }) => Ok(Job::Solve {
            job: head.job,
            nodes,
            problem,
        }),
        _ => Err(JobFault::Short),
    }
}

// The bytes from a place on.
fn rest_of(bytes: &[u8], taken: usize) -> &[u8]
    requires { taken ≤ length bytes.now }
    ensures { result.now ≡ drop taken bytes.now }
{
    &bytes[taken..]
}
