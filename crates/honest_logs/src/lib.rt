//! What a supervised log says of the accepted replies: each is good, and one of an honest child answers the pieces of
//! its job. No code.
//!
//! `specs/Honest.antt` says when a child is honest.
#![tactic(auto)]

ghost use Rattle.std.specs.Prelude.{◌≡◌, ℕ, List, Some, true};
ghost use Rattle.crew.specs.Log.{Entry};
ghost use Rattle.replay_supervisor.specs.Jobs.{Work};
ghost use Rattle.replay_supervisor.specs.Reading.{accepted, read};
ghost use Rattle.replay_supervisor.specs.Steps.{AreSteps, Plan};
ghost use Rattle.solve_phase.specs.Phase.{joined};
ghost use Rattle.honest_logs.specs.Honest.{AnswersHonestly, IsHonest};

/// The accepted reply of a job is good for it.
pub fn accepted_replies()
    ensures good { (work : Work) (log : List Entry) (job : ℕ) (bytes : List ℕ)
        → accepted (read work log) job ≡ Some bytes → work.is_good job bytes ≡ true }
{}

/// In a log that supervising writes, the accepted reply of a job is that of an honest child to the pieces of the job,
/// where each accepted reply is that of an honest child to what its ticket was fed: a ticket that is out when a reply
/// comes was fed all pieces of its job.
pub fn honest_answers()
    ensures answered { (plan : Plan) (log : List Entry) → AreSteps plan log → IsHonest plan log → (job : ℕ)
        (bytes : List ℕ) → accepted (read plan.work log) job ≡ Some bytes
        → AnswersHonestly (joined (plan.work.pieces job)) bytes }
{}
