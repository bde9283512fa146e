//! A search whose children are answered in this process is calm: no event is stale, and no attempt is bad.
//!
//! `specs/Calm.antt` says what a calm part of a log is.
#![tactic(auto)]

ghost use Rattle.std.specs.Prelude.{ℕ, List, ⊤};
ghost use Rattle.bound_certificate.specs.Problem.{Problem};
ghost use Rattle.bound_certificate.specs.declared.outcome.Outcome.{Outcome};
ghost use Rattle.crew.specs.Log.{AreAnswered, Entry};
ghost use Rattle.child_worker.specs.Replies.{AnswersBytes, IsRefused};
ghost use Rattle.inline_crew.specs.InOrder.{InOrder};
ghost use Rattle.replay_supervisor.specs.Jobs.{Work};
ghost use Rattle.solve_phase.specs.Phase.{Finds, GivesUp};
ghost use Rattle.solve_phase.specs.Solving.{IsSolving};
ghost use Rattle.solve_phase.specs.Told.{ReadsSearch};
ghost use Rattle.solve_phase.specs.declared.solving.Solving.{Solving};
ghost use Rattle.calm_logs.specs.Calm.{IsCalm};

/// A search is calm where the log is of a crew in this process whose worker answers: whether an outcome was found, or
/// the search was given up, for whatever reason.
pub fn calm_logs()
    ensures found { (problem : Problem) (solving : Solving) (first : ℕ) (part : List Entry) (outcome : Outcome)
        (work : Work) → IsSolving solving → Finds problem solving first part outcome → InOrder part
        → AreAnswered AnswersBytes IsRefused part → ReadsSearch problem solving.nodes work → IsCalm work part }
    ensures given_up { (problem : Problem) (solving : Solving) (first : ℕ) (part : List Entry) (work : Work)
        → IsSolving solving → GivesUp problem solving first (λ plan log. ⊤) part → InOrder part
        → AreAnswered AnswersBytes IsRefused part → ReadsSearch problem solving.nodes work → IsCalm work part }
{}
