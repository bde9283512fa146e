//! What replays, and a measure, are whose children are answered in this process.
ghost use Rattle.std.specs.Prelude.{◌⊎◌, ℕ, ◌+◌, ◌≤◌, List, ⊤};
ghost use Rattle.bound_certificate.specs.Problem.{Problem};
ghost use Rattle.bound_certificate.specs.declared.outcome.Outcome.{Outcome};
ghost use Rattle.calm_logs.specs.Calm.{IsCalm};
ghost use Rattle.change_report.specs.Form.{Form};
ghost use Rattle.crew.specs.Log.{Entry};
ghost use Rattle.honest_logs.specs.Honest.{IsHonest};
ghost use Rattle.measure_answers.specs.Measure.{MeasureAnswers};
ghost use Rattle.measure_answers.specs.Replayed.{Contents, HasReplies};
ghost use Rattle.measure_told.specs.Told.{InPhase, IsToldMeasure, ReadsReplays};
ghost use Rattle.mon_call.specs.CrewCall.{CrewCall, IsIdle};
ghost use Rattle.mon_call.specs.declared.setting.Setting.{Setting};
ghost use Rattle.mon_call.specs.declared.status.Phase.{Phase};
ghost use Rattle.mon_call.specs.declared.status.Status.{Status};
ghost use Rattle.mon_place.specs.Told.{IsEnding};
ghost use Rattle.pcap_reader.specs.Trace.{Record};
ghost use Rattle.pcap_reader.specs.declared.header.Header.{Header};
ghost use Rattle.replay_phase.specs.Phase.{Gathers, GivesUp, Replaying};
ghost use Rattle.replay_supervisor.specs.Jobs.{Work};
ghost use Rattle.replay_supervisor.specs.Reading.{drawn_in};
ghost use Rattle.sketch_merge.specs.Merged.{View};
ghost use Rattle.solve_phase.specs.Solving.{IsSolving};
ghost use Rattle.solve_phase.specs.declared.solving.Solving.{Solving};
ghost use Rattle.topology.specs.Topology.{Topo};
ghost use Rattle.calm_replays.specs.Inline.{IsBehind, IsInline};

/// Replays behind a search that ended are calm and honest where their log is of a crew in this process whose worker answers,
/// and at most 64 children may be out together: whether all shares were replayed, or the replays were given up, for whatever
/// reason. Their log is calm by whatever work it is read.
pub fn calm_replays()
    ensures gathered { (problem : Problem) (solving : Solving) (start : ℕ) (outcome : Outcome) (solve replay : List Entry)
        → IsBehind problem solving start outcome solve replay → (r : Replaying) (merged : List View)
        → Gathers r (start + drawn_in solve) replay merged → (work : Work) → r.window ≤ 64 → ReadsReplays r work
        → IsCalm work replay }
    ensures given_up { (problem : Problem) (solving : Solving) (start : ℕ) (outcome : Outcome) (solve replay : List Entry)
        → IsBehind problem solving start outcome solve replay → (r : Replaying)
        → GivesUp r (start + drawn_in solve) (λ plan log. ⊤) replay → (work : Work) → r.window ≤ 64 → ReadsReplays r work
        → IsCalm work replay }
    ensures honest { (problem : Problem) (solving : Solving) (start : ℕ) (outcome : Outcome) (solve replay : List Entry)
        → IsBehind problem solving start outcome solve replay → (r : Replaying) (merged : List View)
        → (g : Gathers r (start + drawn_in solve) replay merged) → IsHonest g.plan replay }
    ensures honest_given_up { (problem : Problem) (solving : Solving) (start : ℕ) (outcome : Outcome)
        (solve replay : List Entry) → IsBehind problem solving start outcome solve replay → (r : Replaying)
        → (g : GivesUp r (start + drawn_in solve) (λ plan log. ⊤) replay) → IsHonest g.plan replay }
{}

/// Over a crew in this process whose log begins with the measure: each phase of a told measure is calm, by whatever work it
/// is read; so the measure ends with an outcome, unless memory runs out. And whatever was told, the accepted replies of the
/// shares are those of honest children.
pub fn calm_measures()
    ensures calm { (form : Form) (contents : Contents) (setting : Setting) (solving : Solving) (c : CrewCall) (topo : Topo)
        (header : Header) (members : List Record) (part entries : List Entry) → IsInline c entries
        → IsIdle c ⊎ IsSolving solving → IsToldMeasure contents setting solving c topo header members part
        → (status : Status) → MeasureAnswers form contents setting solving c status
        → (phase : Phase) (work : Work) (phase_entries : List Entry)
        → InPhase setting solving topo header members part phase work phase_entries → IsCalm work phase_entries }
    ensures ends { (form : Form) (contents : Contents) (setting : Setting) (solving : Solving) (c : CrewCall) (topo : Topo)
        (header : Header) (members : List Record) (part entries : List Entry) → IsInline c entries
        → IsIdle c ⊎ IsSolving solving → IsToldMeasure contents setting solving c topo header members part
        → (status : Status) → MeasureAnswers form contents setting solving c status
        → IsEnding topo.problem solving.nodes status }
    ensures honest { (contents : Contents) (setting : Setting) (solving : Solving) (c : CrewCall) (entries : List Entry)
        → IsInline c entries → (has : HasReplies contents setting solving c) → IsHonest has.gathers.plan has.replay }
{}
