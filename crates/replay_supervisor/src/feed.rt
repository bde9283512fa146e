//! The feeding of a ticket that was started.
ghost use Rattle.std.specs.Prelude.{◌≡◌, ◌⊎◌, ◌<◌, ℕ, true, false, List, Some, [], OnErr, OnOk};
ghost use Rattle.crew.specs.Crew.{CrewState};
ghost use Rattle.replay_core.specs.Attempts.{is_out, job_of};
ghost use Rattle.replay_core.specs.Book.{Book, after_bad};
ghost use Rattle.replay_core.specs.Kept.{IsBook};
ghost use Rattle.replay_supervisor.specs.Follows.{Feeds, FedOutcome, Follows, Halts};
ghost use Rattle.replay_supervisor.specs.Steps.{Plan, Moment};

use crate::Jobs;
use crew::{CrewStop, Spawner};
use mon_io::Memory;
use replay_core::{Core, Kind};

/// Feeds all pieces of the job to the ticket, and seals it.
pub(crate) fn feed_pieces<S: Spawner, J: Jobs>(
    crew: &mut S,
    jobs: &mut J,
    ticket: u32,
    job: u32,
) -> Result<(), CrewStop>
    requires numbered { job < (J.state jobs.old).work.count }
    requires out { (S.state crew.old).is_out ticket ≡ true }
    requires open { (S.state crew.old).is_sealed ticket ≡ false }
    ensures follows { (p : Plan) (start : CrewState) (b : Book) → job_of b.outs ticket ≡ Some job
        → Feeds p start (S.state crew.old) (J.state jobs.old) (J.stands jobs.old) b ticket []
        → FedOutcome p start (S.state crew.new) (J.state jobs.new) (J.stands jobs.new) b ticket result }
    ensures outs { (t : ℕ) → (S.state crew.new).is_out t ≡ (S.state crew.old).is_out t }
{
    for index in 0..u32::MAX {
        let Some(piece) = jobs.piece(job, index) else {
            return crew.seal(ticket);
        };
        match crew.feed(ticket, piece) {
            Ok(()) => {}
            Err(stop) => return Err(stop),
        }
    }
    crew.seal(ticket)
}

/// Feeds a ticket that was just started; where a feed or the seal fails, the ticket is stopped.
pub(crate) fn feed_ticket<S: Spawner, J: Jobs>(
    crew: &mut S,
    jobs: &mut J,
    core: &mut Core,
    ticket: u32,
    job: u32,
) -> Result<(), Memory>
    requires numbered { job < (J.state jobs.old).work.count }
    requires out { (S.state crew.old).is_out ticket ≡ true }
    requires open { (S.state crew.old).is_sealed ticket ≡ false }
    requires known { job_of core.old.outs ticket ≡ Some job }
    requires outs { (t : ℕ) → (S.state crew.old).is_out t ≡ is_out core.old.outs t }
    requires book { IsBook core.old }
    ensures follows { OnOk result ((p : Plan) (start : CrewState)
        → Feeds p start (S.state crew.old) (J.state jobs.old) (J.stands jobs.old) core.old ticket []
        → Follows p start (S.state crew.new) (J.state jobs.new) (J.stands jobs.new) core.new Moment.Idle) }
    ensures stopped { OnErr result ((p : Plan) (start : CrewState)
        → Feeds p start (S.state crew.old) (J.state jobs.old) (J.stands jobs.old) core.old ticket []
        → Halts p start (S.state crew.new) (J.state jobs.new) (J.stands jobs.new) core.new) }
    ensures moved { OnOk result ((core.new ≡ core.old) ⊎ (core.new ≡ after_bad core.old ticket job Kind.Feed)) }
    ensures outs { OnErr result ((t : ℕ) → (S.state crew.new).is_out t ≡ is_out core.new.outs t) }
    ensures book { IsBook core.new }
{
    match feed_pieces(crew, jobs, ticket, job) {
        Ok(()) => Ok(()),
        Err(stop) => match stop {
            CrewStop::Fault => {
                core.feed_failed(ticket);
                crew.stop(ticket);
                Ok(())
            }
            CrewStop::Memory => Err(Memory),
        },
    }
}
