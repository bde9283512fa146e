//! What logs are, and a measure, whose children fail and answer by a script.
ghost use Rattle.std.specs.Prelude.{ℕ, ◌+◌, List, ◌++◌, ⊤};
ghost use Rattle.bound_certificate.specs.Problem.{Problem};
ghost use Rattle.bound_certificate.specs.declared.outcome.Outcome.{Outcome};
ghost use Rattle.child_worker.specs.Replies.{AnswersBytes};
ghost use Rattle.crew.specs.Log.{Entry};
ghost use Rattle.honest_logs.specs.Honest.{IsHonest};
ghost use Rattle.measure_answers.specs.Replayed.{Contents, GivesUpReplays, HasReplies};
ghost use Rattle.mon_call.specs.CrewCall.{CrewCall};
ghost use Rattle.mon_call.specs.declared.setting.Setting.{Setting};
ghost use Rattle.replay_phase.specs.Phase.{Gathers, GivesUp, Replaying};
ghost use Rattle.replay_supervisor.specs.Reading.{drawn_in};
ghost use Rattle.replay_supervisor.specs.Steps.{Plan};
ghost use Rattle.scripted_crew.specs.Script.{Script};
ghost use Rattle.sketch_merge.specs.Merged.{View};
ghost use Rattle.solve_phase.specs.declared.solving.Solving.{Solving};
ghost use Rattle.scripted_logs.specs.Answering.{AnswersAlone, FollowsScript, IsScriptedBehind, IsScriptedRun, RepliesAnswer};

/// In a log that a script allows over workers, where its acts are answers and deaths alone, each reply answers what its
/// ticket was fed; so the log is honest by whatever plan it is read. And replays behind a search that ended are honest
/// where one such script allows both: whether all shares were replayed, or the replays were given up, for whatever reason.
pub fn scripted_replays()
    ensures answers { (s : Script) → AnswersAlone s.deeds → (log : List Entry) → FollowsScript s log
        → ∥ RepliesAnswer AnswersBytes log ∥₁ }
    ensures log { (s : Script) → AnswersAlone s.deeds → (log : List Entry) → FollowsScript s log → (plan : Plan)
        → IsHonest plan log }
    ensures honest { (s : Script) → AnswersAlone s.deeds → (problem : Problem) (solving : Solving) (start : ℕ)
        (outcome : Outcome) (solve replay : List Entry)
        → IsScriptedBehind s problem solving start outcome solve replay → (r : Replaying) (merged : List View)
        → (g : Gathers r (start + drawn_in solve) replay merged) → IsHonest g.plan replay }
    ensures honest_given_up { (s : Script) → AnswersAlone s.deeds → (problem : Problem) (solving : Solving) (start : ℕ)
        (outcome : Outcome) (solve replay : List Entry)
        → IsScriptedBehind s problem solving start outcome solve replay → (r : Replaying)
        → (g : GivesUp r (start + drawn_in solve) (λ plan log. ⊤) replay) → IsHonest g.plan replay }
{}

/// Over a crew whose log begins with the measure and follows such a script, the accepted replies of the shares are those of
/// honest children, whatever was told: also where the replays were given up.
pub fn scripted_measures()
    ensures honest { (s : Script) (contents : Contents) (setting : Setting) (solving : Solving) (c : CrewCall)
        (entries : List Entry) → IsScriptedRun s c entries → AnswersAlone s.deeds
        → (has : HasReplies contents setting solving c) → IsHonest has.gathers.plan has.replay }
    ensures honest_given_up { (s : Script) (contents : Contents) (setting : Setting) (solving : Solving) (c : CrewCall)
        (entries : List Entry) → IsScriptedRun s c entries → AnswersAlone s.deeds
        → (gives : GivesUpReplays contents setting solving c (λ plan log. ⊤))
        → IsHonest gives.gives_up.plan gives.replay }
{}
