//! The one job of a search.
ghost use Rattle.std.specs.Prelude.{◌≡◌, ◌≤◌, ◌↔◌, ℕ, false, IfOk, is_some};
ghost use Rattle.std.specs.List.{flat_map};
ghost use Rattle.bound_certificate.specs.Problem.{Problem as AnyProblem};
ghost use Rattle.job_format.specs.Job.{SpellsSolve};
ghost use Rattle.replay_supervisor.specs.Jobs.{Places};
ghost use Rattle.solve_jobs.specs.Search.{Judges, Holds};

use crate::judge::right_outcome;
use bound_certificate::{Outcome, Problem};
use child_jobs::write_solve;
use mon_io::Memory;
use replay_supervisor::Jobs;
use std::alloc::Global;

/// The search of a problem, as one job of number 0, which takes one reply with a right outcome.
#[derive(Drop)]
pub struct SolveJobs<'a> {
    alloc: Global,
    problem: &'a Problem,
    nodes: u32,
    job: Vec<u8>,
    found: Option<Outcome>,
}

impl<'a> SolveJobs<'a> {
    ghost use Rattle.solve_jobs.specs.SolveJobs.{solve_state, solve_stands};

    /// The search of a problem with 1 to 4,096 nodes, of which no reply was taken. It takes memory.
    pub fn new(alloc: Global, problem: &'a Problem, nodes: u32) -> Result<SolveJobs<'a>, Memory>
        requires some { 1 ≤ nodes }
        requires few { nodes ≤ 4096 }
        ensures count { IfOk result (λ jobs. (solve_state jobs).work.count ≡ 1) }
        ensures spells { IfOk result (λ jobs. SpellsSolve (record { number = 0; nodes = nodes; problem = problem.now })
            (flat_map (λ piece. piece) ((solve_state jobs).work.pieces 0))) }
        ensures judges { IfOk result (λ jobs. Judges (solve_state jobs).work problem.now nodes) }
        ensures fresh { IfOk result (λ jobs. (job : ℕ) → (solve_state jobs).has_taken job ≡ false) }
    {
        let mut job = Vec::new(alloc);
        write_solve(0, nodes, problem, &mut job)?;
        Ok(SolveJobs {
            alloc,
            problem,
            nodes,
            job,
            found: None,
        })
    }

    /// The outcome of the reply that was taken; None exactly where none was.
    pub fn outcome(self) -> Option<Outcome>
        ensures taken { is_some result ≡ (solve_state self.entry).has_taken 0 }

        // Of any problem and nodes by which the good replies are judged, and in any list of places that the job stands for.
        ensures kept { (problem : AnyProblem) (nodes : ℕ) (places : Places)
            → Judges (solve_state self.entry).work problem nodes → solve_stands self.entry places
            → Holds problem nodes result places }
    {
        self.found
    }
}

impl<'a> Jobs for SolveJobs<'a> {
    ghost use Rattle.solve_jobs.specs.SolveJobs.{solve_state, solve_stands};
    ghost use Rattle.solve_jobs.specs.SolveLaws.{solve_starts, solve_few};

    ghost state = { solve_state };

    ghost stands = { solve_stands };

    ghost starts = { λ s fresh. solve_starts s fresh };

    ghost few = { λ s job. solve_few s job };

    fn count(&self) -> u32 {
        1
    }

    fn piece(&mut self, job: u32, index: u32) -> Option<&[u8]> {
        if index == 0 {
            Some(self.job.as_slice())
        } else {
            None
        }
    }

    fn take(&mut self, job: u32, bytes: &[u8]) -> Result<bool, Memory> {
        match right_outcome(self.alloc, self.problem, self.nodes, bytes)? {
            Some(outcome) => {
                self.found = Some(outcome);
                Ok(true)
            }
            None => Ok(false),
        }
    }
}
