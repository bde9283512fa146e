//! The search by children.
ghost use Rattle.std.specs.Prelude.{◌≡◌, ◌^◌, ◌<◌, ℕ, false, IsTrue};
ghost use Rattle.bound_certificate.specs.Meaning.{Shows};
ghost use Rattle.bound_certificate.specs.Outcome.{is_right};
ghost use Rattle.solve_phase.specs.Phase.{Solves, verdict_on};
ghost use Rattle.solve_phase.specs.Solving.{IsSolving};

use crate::Solving;
use bound_certificate::{Outcome, Problem, Verdict, check_outcome};
use crew::Spawner;
use replay_supervisor::{Stop, supervise};
use solve_jobs::SolveJobs;
use std::alloc::Global;

/// What a search found, with the verdict of its tree.
#[derive(Debug, Drop)]
pub struct Found {
    pub outcome: Outcome,
    pub verdict: Verdict,
}

/// Has children of the crew search a placement, until one of them has found a right outcome. The crew has no ticket
/// out, also on every return, and has issued fewer than 2^31. It may wait for children. Takes memory.
pub fn solve<S: Spawner>(
    alloc: Global,
    crew: &mut S,
    problem: &Problem,
    solving: Solving,
) -> Result<Found, Stop>
    requires solving { IsSolving solving }
    requires issued { (S.state crew.old).issued < 2 ^ 31 }
    requires none_out { (t : ℕ) → (S.state crew.old).is_out t ≡ false }
    ensures solved { Solves problem.now solving (S.state crew.old) (S.state crew.new) result }
{
    let Ok(mut jobs) = SolveJobs::new(alloc, problem, solving.nodes) else {
        return Err(Stop::Memory);
    };
    match supervise(alloc, crew, &mut jobs, solving.window, solving.restarts) {
        Ok(()) => Ok(with_verdict(problem, solving.nodes, jobs.outcome().unwrap())),
        Err(stop) => Err(stop),
    }
}

// A right outcome, with the verdict of its tree.
fn with_verdict(problem: &Problem, nodes: u32, outcome: Outcome) -> Found
    requires right { IsTrue (is_right problem.now nodes outcome) }
    ensures outcome { result.outcome ≡ outcome }
    ensures verdict { result.verdict ≡ verdict_on problem.now outcome }
    ensures shows { Shows problem.now nodes outcome (verdict_on problem.now outcome) }
{
    let verdict = check_outcome(problem, nodes, &outcome).unwrap();
    Found { outcome, verdict }
}
