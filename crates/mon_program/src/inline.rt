//! All commands, with children that are answered in this process.
ghost use Rattle.std.specs.Prelude.{◌≡◌, ◌^◌, ◌<◌, ℕ, List, [], Some, Ok, true, false, map, string_bytes};
ghost use Rattle.calm_logs.specs.Calm.{IsCalm};
ghost use Rattle.crew.specs.Log.{Entry};
ghost use Rattle.honest_logs.specs.Honest.{IsHonest};
ghost use Rattle.measure_answers.specs.Replayed.{Contents, HasReplies};
ghost use Rattle.measure_told.specs.Told.{InPhase, IsToldMeasure};
ghost use Rattle.mon_call.specs.CrewCall.{KeepsCrew, crew_call_of};
ghost use Rattle.mon_call.specs.Told.{HasBytes};
ghost use Rattle.mon_call.specs.declared.setting.Setting.{Setting};
ghost use Rattle.mon_call.specs.declared.status.Phase.{Phase};
ghost use Rattle.mon_command.specs.Asked.{Asked, asked_of};
ghost use Rattle.mon_command.specs.Measures.{Measures, measured_by};
ghost use Rattle.mon_command.specs.Outcome.{CrewOutcome};
ghost use Rattle.mon_io.specs.Inputs.{InputState};
ghost use Rattle.mon_place.specs.Told.{HasLog, IsEnding, IsToldPlace};
ghost use Rattle.pcap_reader.specs.Trace.{Record};
ghost use Rattle.pcap_reader.specs.declared.header.Header.{Header};
ghost use Rattle.replay_supervisor.specs.Jobs.{Work};
ghost use Rattle.solve_phase.specs.Told.{ReadsSearch};
ghost use Rattle.solve_phase.specs.declared.solving.Solving.{Solving};
ghost use Rattle.topology.specs.Topology.{Topo, topology_of};

use child_worker::WorkerAnswer;
use crew::Spawner;
use inline_crew::InlineCrew;
use mon_command::{Status, run};
use mon_io::{Inputs, Sink};
use std::alloc::Global;

/// Does what the words ask for, over any inputs and any sink, with children that are answered in this process. The
/// crew has no ticket out, also on every return, and has issued fewer than 2^30.
pub fn run_inline<I: Inputs, K: Sink>(
    alloc: Global,
    words: &[String],
    inputs: &mut I,
    crew: &mut InlineCrew<WorkerAnswer>,
    sink: &mut K,
) -> Status
    requires few { (⟦<InlineCrew<WorkerAnswer> as Spawner>⟧.state crew.old).issued < 2 ^ 30 }
    requires none_out { (ticket : ℕ) → (⟦<InlineCrew<WorkerAnswer> as Spawner>⟧.state crew.old).is_out ticket ≡ false }
    ensures outcome { let c = crew_call_of (I.state inputs.old) (I.state inputs.new)
        (⟦<InlineCrew<WorkerAnswer> as Spawner>⟧.state crew.old) (⟦<InlineCrew<WorkerAnswer> as Spawner>⟧.state crew.new)
        (K.state sink.old) (K.state sink.new) in
        CrewOutcome (I.picks inputs.old) (I.picks inputs.new) (asked_of true (map string_bytes words.now)) c result }
    ensures keeps { KeepsCrew (crew_call_of (I.state inputs.old) (I.state inputs.new)
        (⟦<InlineCrew<WorkerAnswer> as Spawner>⟧.state crew.old) (⟦<InlineCrew<WorkerAnswer> as Spawner>⟧.state crew.new)
        (K.state sink.old) (K.state sink.new)) }

    // Where the log begins, no event is stale and no attempt is bad.
    ensures calm { (topology : List ℕ) (solving : Solving) (topo : Topo) (work : Work) (part : List Entry) →
        let c = crew_call_of (I.state inputs.old) (I.state inputs.new)
        (⟦<InlineCrew<WorkerAnswer> as Spawner>⟧.state crew.old) (⟦<InlineCrew<WorkerAnswer> as Spawner>⟧.state crew.new)
        (K.state sink.old) (K.state sink.new) in
        c.crew.log ≡ Some [] → asked_of true (map string_bytes words.now) ≡ Ok (Asked.Place topology solving) →
        HasBytes (c.call.inputs.contents topology) (λ bytes. topology_of bytes ≡ Ok topo) → HasLog c part →
        ReadsSearch topo.problem solving.nodes work → IsCalm work part }

    // Without a fault of inputs and sink a search ends with an outcome, unless memory runs out.
    ensures ends { (topology : List ℕ) (solving : Solving) (topo : Topo) (work : Work) (part : List Entry) →
        let c = crew_call_of (I.state inputs.old) (I.state inputs.new)
        (⟦<InlineCrew<WorkerAnswer> as Spawner>⟧.state crew.old) (⟦<InlineCrew<WorkerAnswer> as Spawner>⟧.state crew.new)
        (K.state sink.old) (K.state sink.new) in
        c.crew.log ≡ Some [] → asked_of true (map string_bytes words.now) ≡ Ok (Asked.Place topology solving) →
        IsToldPlace (c.call.inputs.contents topology) solving.nodes c topo work part →
        IsEnding topo.problem solving.nodes result }

    // The same of both phases of a measure.
    ensures measure_calm { (asked : Asked) (m : Measures) (topo : Topo) (header : Header) (members : List Record)
        (part : List Entry) (phase : Phase) (work : Work) (entries : List Entry) →
        let c = crew_call_of (I.state inputs.old) (I.state inputs.new)
        (⟦<InlineCrew<WorkerAnswer> as Spawner>⟧.state crew.old) (⟦<InlineCrew<WorkerAnswer> as Spawner>⟧.state crew.new)
        (K.state sink.old) (K.state sink.new) in
        c.crew.log ≡ Some [] → asked_of true (map string_bytes words.now) ≡ Ok asked → measured_by asked c ≡ Some m →
        IsToldMeasure m.contents m.setting m.solving c topo header members part →
        InPhase m.setting m.solving topo header members part phase work entries → IsCalm work entries }
    ensures measure_ends { (asked : Asked) (m : Measures) (topo : Topo) (header : Header) (members : List Record)
        (part : List Entry) →
        let c = crew_call_of (I.state inputs.old) (I.state inputs.new)
        (⟦<InlineCrew<WorkerAnswer> as Spawner>⟧.state crew.old) (⟦<InlineCrew<WorkerAnswer> as Spawner>⟧.state crew.new)
        (K.state sink.old) (K.state sink.new) in
        c.crew.log ≡ Some [] → asked_of true (map string_bytes words.now) ≡ Ok asked → measured_by asked c ≡ Some m →
        IsToldMeasure m.contents m.setting m.solving c topo header members part →
        IsEnding topo.problem m.solving.nodes result }

    // Whatever a measure reads, the accepted replies of its shares are those of honest children.
    ensures honest { (before after : InputState) (contents : Contents) (setting : Setting) (solving : Solving) →
        let c = crew_call_of before after
        (⟦<InlineCrew<WorkerAnswer> as Spawner>⟧.state crew.old) (⟦<InlineCrew<WorkerAnswer> as Spawner>⟧.state crew.new)
        (K.state sink.old) (K.state sink.new) in
        c.crew.log ≡ Some [] → (has : HasReplies contents setting solving c) → IsHonest has.gathers.plan has.replay }
{
    let status = run(alloc, words, inputs, crew, sink);
    // Its clauses say that the log is in order and answered.
    let _entries = crew.entries();
    status
}
