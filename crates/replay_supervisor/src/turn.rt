//! One turn: a ticket is started, or an event is taken.
ghost use Rattle.std.specs.Prelude.{◌≡◌, ℕ, false, OnErr, OnOk};
ghost use Rattle.crew.specs.Crew.{CrewState};
ghost use Rattle.replay_core.specs.Attempts.{is_out};
ghost use Rattle.replay_core.specs.Kept.{IsBook};
ghost use Rattle.replay_core.specs.Next.{MayStart, MustWait, Turned, next_of};
ghost use Rattle.replay_supervisor.specs.Agrees.{Agrees};
ghost use Rattle.replay_supervisor.specs.Follows.{Follows, FollowsOn, Halts, HaltsAfter, Replied, Replies};
ghost use Rattle.replay_supervisor.specs.Steps.{Plan, Moment};

use crate::Jobs;
use crate::feed::feed_ticket;
use crew::{CrewStop, Event, Spawner};
use mon_io::Memory;
use replay_core::{Core, Want};

/// Gives a reply to its job where the ticket is out, and stops the job's other ticket if the reply is its first
/// good one.
pub(crate) fn take_reply<S: Spawner, J: Jobs>(
    crew: &mut S,
    jobs: &mut J,
    core: &mut Core,
    ticket: u32,
    bytes: &[u8],
) -> Result<(), Memory>
    requires waits { MustWait core.old }
    requires book { IsBook core.old }
    requires agrees { Replies ticket (S.state crew.old) (J.state jobs.old) core.old }
    ensures follows { OnOk result ((p : Plan) (start : CrewState)
        → Replied p start (S.state crew.old) (J.state jobs.old) (J.stands jobs.old) core.old ticket bytes.now
        → Follows p start (S.state crew.new) (J.state jobs.new) (J.stands jobs.new) core.new Moment.Idle) }
    ensures stopped { OnErr result ((p : Plan) (start : CrewState)
        → Replied p start (S.state crew.old) (J.state jobs.old) (J.stands jobs.old) core.old ticket bytes.now
        → Halts p start (S.state crew.new) (J.state jobs.new) (J.stands jobs.new) core.new) }
    ensures turned { OnOk result (Turned core.old core.new) }
    ensures outs { OnErr result ((t : ℕ) → (S.state crew.new).is_out t ≡ is_out core.new.outs t) }
    ensures book { IsBook core.new }
{
    let Some(job) = core.job_of(ticket) else {
        core.reply(ticket, false);
        return Ok(());
    };
    let Ok(good) = jobs.take(job, bytes) else {
        core.stopped(ticket);
        return Err(Memory);
    };
    match core.reply(ticket, good).rival() {
        Some(rival) => {
            crew.stop(rival);
            Ok(())
        }
        None => Ok(()),
    }
}

/// Waits for an event and gives it to the book.
pub(crate) fn take_event<S: Spawner, J: Jobs>(
    crew: &mut S,
    jobs: &mut J,
    core: &mut Core,
) -> Result<(), Memory>
    requires waits { MustWait core.old }
    requires book { IsBook core.old }
    requires agrees { Agrees (S.state crew.old) (J.state jobs.old) core.old }
    ensures follows { OnOk result (FollowsOn (S.state crew.old) (J.state jobs.old) (J.stands jobs.old) core.old
        (S.state crew.new) (J.state jobs.new) (J.stands jobs.new) core.new) }
    ensures stopped { OnErr result (HaltsAfter (S.state crew.old) (J.state jobs.old) (J.stands jobs.old) core.old
        (S.state crew.new) (J.state jobs.new) (J.stands jobs.new) core.new) }
    ensures turned { OnOk result (Turned core.old core.new) }
    ensures outs { OnErr result ((t : ℕ) → (S.state crew.new).is_out t ≡ is_out core.new.outs t) }
    ensures book { IsBook core.new }
{
    let Ok(event) = crew.wait() else {
        return Err(Memory);
    };
    match event {
        Event::Died { ticket } => {
            core.died(ticket);
            Ok(())
        }
        Event::Reply { ticket, bytes } => take_reply(crew, jobs, core, ticket, &bytes),
    }
}

/// Starts a ticket for the job.
pub(crate) fn start_ticket<S: Spawner, J: Jobs>(
    crew: &mut S,
    jobs: &mut J,
    core: &mut Core,
    job: u32,
) -> Result<(), Memory>
    requires wanted { next_of core.old ≡ Want.Start job }
    requires facts { MayStart core.old job }
    requires running { core.old.is_stopping ≡ false }
    requires agrees { Agrees (S.state crew.old) (J.state jobs.old) core.old }
    ensures follows { OnOk result (FollowsOn (S.state crew.old) (J.state jobs.old) (J.stands jobs.old) core.old
        (S.state crew.new) (J.state jobs.new) (J.stands jobs.new) core.new) }
    ensures stopped { OnErr result (HaltsAfter (S.state crew.old) (J.state jobs.old) (J.stands jobs.old) core.old
        (S.state crew.new) (J.state jobs.new) (J.stands jobs.new) core.new) }
    ensures turned { OnOk result (Turned core.old core.new) }
    ensures outs { OnErr result ((t : ℕ) → (S.state crew.new).is_out t ≡ is_out core.new.outs t) }
    ensures book { IsBook core.new }
{
    let ticket = core.ticket();
    match crew.start(ticket) {
        Ok(()) => {
            core.started(job);
            feed_ticket(crew, jobs, core, ticket, job)
        }
        Err(stop) => match stop {
            CrewStop::Fault => {
                core.start_failed(job);
                Ok(())
            }
            CrewStop::Memory => Err(Memory),
        },
    }
}
