//! The log of a crew over workers that gives no bytes of its own.
ghost use Rattle.std.specs.Prelude.{◌≡◌, All, Decides, IfSome, None, Some};
ghost use Rattle.crew.specs.Crew.{CrewState};
ghost use Rattle.crew.specs.Kept.{log_of};
ghost use Rattle.honest_logs.specs.Honest.{IsHonest};
ghost use Rattle.replay_supervisor.specs.Steps.{Plan};
ghost use Rattle.scripted_crew.specs.Script.{Script, deed_of, deeds_of};
ghost use Rattle.scripted_logs.specs.Answering.{AnswersAlone, FollowsScript, GivesNoBytes};

use child_worker::WorkerAnswer;
use crew::{LogEntry, Spawner};
use scripted_crew::{Act, ScriptedCrew};

// Whether the act gives no bytes of its own.
fn gives_no_bytes(act: &Act) -> bool
    ensures value { Decides result (GivesNoBytes (deed_of act.now)) }
{
    match act {
        Act::Bytes { .. } => false,
        _ => true,
    }
}

// Whether no act gives bytes of its own.
fn give_no_bytes(acts: &[Act]) -> bool
    ensures value { Decides result (All (λ act. GivesNoBytes (deed_of act)) acts.now) }
{
    acts.iter().all(|act| gives_no_bytes(act))
}

/// Whether the acts of the crew are answers and deaths alone.
#[tactic(auto, using(crate::proofs::Acts::deeds_alone, crate::proofs::Acts::acts_alone))]
pub fn answers_alone(crew: &ScriptedCrew<WorkerAnswer>) -> bool
    ensures value { Decides result (AnswersAlone (deeds_of crew.now.acts.items)) }
{
    give_no_bytes(crew.acts())
}

/// The log of the crew, the oldest entry first, where its acts are answers and deaths alone: it is honest by whatever plan
/// it is read. `None` where an act gives bytes of its own. It takes no memory.
pub fn honest_entries(crew: &ScriptedCrew<WorkerAnswer>) -> Option<&[LogEntry]>
    ensures value { IfSome result (λ log. Some (log_of log.now) ≡ (⟦<ScriptedCrew<WorkerAnswer> as Spawner>⟧.state crew.now).log) }
    ensures follows { IfSome result (λ log. (s : Script) × AnswersAlone s.deeds × FollowsScript s (log_of log.now)) }
    ensures honest { IfSome result (λ log. (plan : Plan) → IsHonest plan (log_of log.now)) }
    ensures none { result ≡ None → AnswersAlone (deeds_of crew.now.acts.items) → ⊥ }
{
    if answers_alone(crew) {
        Some(crew.entries())
    } else {
        None
    }
}
