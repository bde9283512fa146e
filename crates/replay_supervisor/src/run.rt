//! The turns of a call, and its end.
ghost use Rattle.std.specs.Prelude.{◌≡◌, ◌^◌, ◌<◌, ◌≤◌, ℕ, false};
ghost use Rattle.replay_core.specs.Attempts.{is_out};
ghost use Rattle.replay_core.specs.Kept.{IsBook};
ghost use Rattle.replay_supervisor.specs.Follows.{Ended, Turns, plan_of};
ghost use Rattle.replay_supervisor.specs.Outcome.{Supervised};
ghost use Rattle.replay_supervisor.specs.Steps.{plan};
ghost use Rattle.replay_supervisor.specs.Stopping.{IsStopped};

use crate::turn::{start_ticket, take_event};
use crate::{Jobs, Stop};
use crew::Spawner;
use replay_core::{Core, Want};
use std::alloc::Global;

// Turns until every job is done, or one is spent, or too many events were stale.
fn turn_all<S: Spawner, J: Jobs>(crew: &mut S, jobs: &mut J, core: &mut Core) -> Result<(), Stop>
    requires starts { Turns (plan_of (J.state jobs.old) core.old) (S.state crew.old) (S.state crew.old)
        (J.state jobs.old) (J.stands jobs.old) core.old }
    ensures ended { Ended (plan_of (J.state jobs.old) core.old) (S.state crew.old) (S.state crew.new) (J.state jobs.new)
        (J.stands jobs.new) core.new result }
    ensures outs { (t : ℕ) → (S.state crew.new).is_out t ≡ is_out core.new.outs t }
    ensures book { IsBook core.new }
{
    'turns: loop {
        match core.next() {
            Want::Finished => return Ok(()),
            Want::Spent { job } => {
                let bad = core.bad(job);
                return Err(Stop::RestartsSpent { job, bad });
            }
            Want::Stale => return Err(Stop::StaleLimit),
            Want::Start { job } => {
                let Ok(()) = start_ticket(crew, jobs, core, job) else {
                    return Err(Stop::Memory);
                };
            }
            Want::Wait => {
                let Ok(()) = take_event(crew, jobs, core) else {
                    return Err(Stop::Memory);
                };
            }
        }
    }
}

// Stops each ticket that is out.
fn stop_all<S: Spawner>(crew: &mut S, core: &mut Core)
    requires outs { (t : ℕ) → (S.state crew.old).is_out t ≡ is_out core.old.outs t }
    requires book { IsBook core.old }
    ensures stopped { IsStopped (S.state crew.old) (S.state crew.new) core.old }
{
    for turn in 0..32u32 {
        let Some(ticket) = core.least_out() else {
            return;
        };
        crew.stop(ticket);
        core.stopped(ticket);
    }
}

/// Starts, feeds and seals tickets of the crew until each job has its first good reply from a ticket that is out.
/// At most `window` (1 to 32) tickets are out together, and a job of which more than `restarts` (0 to 16) attempts
/// were bad ends the call. The crew has no ticket out and has issued fewer than 2^31; there are 1 to 256 jobs, of
/// which none has taken a reply. It may wait for children, and on every return no ticket is out.
pub fn supervise<S: Spawner, J: Jobs>(
    alloc: Global,
    crew: &mut S,
    jobs: &mut J,
    window: u32,
    restarts: u32,
) -> Result<(), Stop>
    requires issued { (S.state crew.old).issued < 2 ^ 31 }
    requires jobs_some { 1 ≤ (J.state jobs.old).work.count }
    requires jobs_few { (J.state jobs.old).work.count ≤ 256 }
    requires fresh { (job : ℕ) → (J.state jobs.old).has_taken job ≡ false }
    requires window_some { 1 ≤ window }
    requires window_few { window ≤ 32 }
    requires restarts { restarts ≤ 16 }
    requires none_out { (t : ℕ) → (S.state crew.old).is_out t ≡ false }
    ensures outcome { Supervised (plan (J.state jobs.old).work (S.state crew.old).issued window restarts)
        (S.state crew.old) (S.state crew.new) (J.state jobs.new) (J.stands jobs.new) result }
{
    let first = crew.issued();
    let count = jobs.count();
    let Ok(mut core) = Core::new(alloc, first, count, window, restarts) else {
        return Err(Stop::Memory);
    };
    match turn_all(crew, jobs, &mut core) {
        Ok(()) => Ok(()),
        Err(stop) => {
            stop_all(crew, &mut core);
            Err(stop)
        }
    }
}
