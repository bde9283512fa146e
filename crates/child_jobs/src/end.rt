//! What a whole job was.
ghost use Rattle.std.specs.Prelude.{◌≡◌, ◌⊎◌, map, IfOk, IfErr};
ghost use Rattle.bound_certificate.specs.Limits.{IsWithin};
ghost use Rattle.job_format.specs.Held.{need_of};
ghost use Rattle.job_format.specs.declared.fault.JobFault.TheVariants as faults;

use bound_certificate::{Need, Problem, Site, is_within};
use job_format::{HeldNeed, JobFault};
use mon_io::Memory;
use sqlite_items::Items;
use std::alloc::Global;

/// What is known at the end of a job beyond its head and its items.
#[derive(Debug, Drop)]
pub enum JobEnd {
    /// All items were given out.
    Replay,
    /// The nodes of the search, and its problem.
    Solve { nodes: u32, problem: Problem },
}

impl JobEnd {
    ghost use Rattle.child_jobs.specs.declared.end.JobEnd.TheVariants as ends;

    /// The end of a solve job with these sites and needs; else `Memory`, or `Shape` where they are outside the limits
    /// of a problem.
    pub(crate) fn of_solve(
        alloc: Global,
        nodes: u16,
        sites: Vec<Site>,
        needs: Vec<HeldNeed>,
    ) -> Result<JobEnd, JobFault>
        ensures value { IfOk result (λ end. end
            ≡ ends.Solve nodes (record { sites = sites.items; needs = map need_of needs.items })) }
        ensures fault { IfErr result (λ fault. (fault ≡ faults.Memory)
            ⊎ (IsWithin sites.items (map need_of needs.items) → ⊥)) }
    {
        let Ok(needs) = needs_of(alloc, &needs) else {
            return Err(JobFault::Memory);
        };
        if !is_within(&sites, &needs) {
            return Err(JobFault::Shape);
        }
        Ok(JobEnd::Solve {
            nodes: u32::from(nodes),
            problem: Problem::new(sites, needs),
        })
    }
}

// The needs that are held, in memory.
fn needs_of(alloc: Global, held: &[HeldNeed]) -> Result<Vec<Need>, Memory>
    ensures value { IfOk result (λ needs. needs.items ≡ map need_of held.now) }
{
    let mut needs = Vec::new(alloc);
    for one in held {
        let need = need_of(alloc, one)?;
        let Ok(()) = needs.push(need) else {
            return Err(Memory);
        };
    }
    Ok(needs)
}

fn need_of(alloc: Global, held: &HeldNeed) -> Result<Need, Memory>
    ensures value { IfOk result (λ need. need ≡ need_of held.now) }
{
    match Items::from_slice(alloc, held.via.as_slice()) {
        Ok(via) => Ok(Need {
            load: held.load,
            via,
        }),
        Err(_) => Err(Memory),
    }
}
