//! All commands, over any crew of children.
ghost use Rattle.std.specs.Prelude.{◌≡◌, ◌^◌, ◌<◌, ℕ, List, Ok, Some, true, false, map, string_bytes};
ghost use Rattle.certificate_text.specs.declared.fault.CertFault.{CertFault};
ghost use Rattle.crew.specs.Log.{Entry};
ghost use Rattle.job_format.specs.declared.fault.JobFault.{JobFault};
ghost use Rattle.measure_told.specs.Told.{InPhase, IsToldMeasure};
ghost use Rattle.mon_call.specs.Call.{UnlessMemory};
ghost use Rattle.mon_call.specs.CrewCall.{KeepsCrew, crew_call_of};
ghost use Rattle.mon_call.specs.Setting.{setting_in};
ghost use Rattle.mon_call.specs.declared.status.Phase.{Phase};
ghost use Rattle.mon_command.specs.Asked.{AloneCommand, Asked, asked_in, asked_of};
ghost use Rattle.mon_command.specs.Measures.{Measures, measured_by};
ghost use Rattle.mon_command.specs.Outcome.{CrewOutcome, IsCalm, Tells};
ghost use Rattle.mon_drill.specs.Drill.{Drills};
ghost use Rattle.mon_io.specs.Inputs.{InputState, IsOver};
ghost use Rattle.mon_place.specs.Place.{solving_in};
ghost use Rattle.mon_place.specs.Told.{IsEnding, IsToldPlace};
ghost use Rattle.mon_words.specs.Values.{IsInRange};
ghost use Rattle.pcap_reader.specs.Trace.{Record};
ghost use Rattle.pcap_reader.specs.declared.header.Header.{Header};
ghost use Rattle.replay_core.specs.declared.bad.Bad.{Bad};
ghost use Rattle.replay_supervisor.specs.Jobs.{Work};
ghost use Rattle.replay_supervisor.specs.Reading.{stale_in};
ghost use Rattle.routed_trace.specs.declared.fault.TraceFault.{TraceFault};
ghost use Rattle.solve_phase.specs.Solving.{IsSolving};
ghost use Rattle.solve_phase.specs.Told.{IsOverspent, IsWithinLimits};
ghost use Rattle.solve_phase.specs.declared.solving.Solving.{Solving};
ghost use Rattle.topology.specs.Topology.{Topo};
ghost use Rattle.topology.specs.declared.fault.TopologyFault.{TopologyFault};

use crate::alone::perform;
use crew::Spawner;
use mon_call::{Setting, Status};
use mon_drill::drill;
use mon_io::{Inputs, Sink};
use mon_measure::{Measuring, measure};
use mon_place::{place, solving_of};
use mon_words::{Command, Words, WordsFault, read_words};
use std::alloc::Global;

/// Does what the words ask for, over any inputs, any crew and any sink. The crew has no ticket out, also on every
/// return, and has issued fewer than 2^30. `place`, `measure` and `drill` may wait for children.
pub fn run<I: Inputs, S: Spawner, K: Sink>(
    alloc: Global,
    words: &[String],
    inputs: &mut I,
    crew: &mut S,
    sink: &mut K,
) -> Status
    requires few { (S.state crew.old).issued < 2 ^ 30 }
    requires none_out { (ticket : ℕ) → (S.state crew.old).is_out ticket ≡ false }
    ensures outcome { let c = crew_call_of (I.state inputs.old) (I.state inputs.new) (S.state crew.old) (S.state crew.new)
        (K.state sink.old) (K.state sink.new) in
        CrewOutcome (I.picks inputs.old) (I.picks inputs.new) (asked_of true (map string_bytes words.now)) c result }
    ensures keeps { KeepsCrew (crew_call_of (I.state inputs.old) (I.state inputs.new) (S.state crew.old) (S.state crew.new)
        (K.state sink.old) (K.state sink.new)) }

    // Of a command that starts nobody: without a fault the work is done, unless memory runs out.
    ensures complete { (asked : Asked) →
        let c = crew_call_of (I.state inputs.old) (I.state inputs.new) (S.state crew.old) (S.state crew.new)
        (K.state sink.old) (K.state sink.new) in
        IsCalm (asked_of true (map string_bytes words.now)) asked c.call → Tells c.call asked Status.Done →
        UnlessMemory Status.Done result }

    // A fault of the topology is told, unless memory runs out.
    ensures unfit { (asked : Asked) (fault : TopologyFault) →
        let c = crew_call_of (I.state inputs.old) (I.state inputs.new) (S.state crew.old) (S.state crew.new)
        (K.state sink.old) (K.state sink.new) in
        IsCalm (asked_of true (map string_bytes words.now)) asked c.call → Tells c.call asked (Status.Topology fault) →
        UnlessMemory (Status.Topology fault) result }

    // A fault of the trace is told, unless memory runs out.
    ensures refused { (asked : Asked) (fault : TraceFault) →
        let c = crew_call_of (I.state inputs.old) (I.state inputs.new) (S.state crew.old) (S.state crew.new)
        (K.state sink.old) (K.state sink.new) in
        IsCalm (asked_of true (map string_bytes words.now)) asked c.call → Tells c.call asked (Status.Trace fault) →
        UnlessMemory (Status.Trace fault) result }

    // A fault of the certificate is told, unless memory runs out.
    ensures uncertified { (asked : Asked) (fault : CertFault) →
        let c = crew_call_of (I.state inputs.old) (I.state inputs.new) (S.state crew.old) (S.state crew.new)
        (K.state sink.old) (K.state sink.new) in
        IsCalm (asked_of true (map string_bytes words.now)) asked c.call → Tells c.call asked (Status.Certificate fault) →
        UnlessMemory (Status.Certificate fault) result }

    // A breach of the job is told, unless memory runs out.
    ensures misspelled { (asked : Asked) (fault : JobFault) →
        let c = crew_call_of (I.state inputs.old) (I.state inputs.new) (S.state crew.old) (S.state crew.new)
        (K.state sink.old) (K.state sink.new) in
        IsCalm (asked_of true (map string_bytes words.now)) asked c.call → Tells c.call asked (Status.Job fault) →
        UnlessMemory (Status.Job fault) result }

    // A reply is written behind the end of the job's input.
    ensures over { asked_of true (map string_bytes words.now) ≡ Ok (Asked.Alone AloneCommand.Child) → result ≡ Status.Done
        → IsOver (I.state inputs.new).rest }

    // Where no job of a search has too many bad attempts and few events are stale, the search ends with an outcome.
    ensures ends { (topology : List ℕ) (solving : Solving) (topo : Topo) (work : Work) (part : List Entry) →
        let c = crew_call_of (I.state inputs.old) (I.state inputs.new) (S.state crew.old) (S.state crew.new)
        (K.state sink.old) (K.state sink.new) in
        asked_of true (map string_bytes words.now) ≡ Ok (Asked.Place topology solving) →
        IsToldPlace (c.call.inputs.contents topology) solving.nodes c topo work part →
        IsWithinLimits solving.restarts work part → IsEnding topo.problem solving.nodes result }

    // A job with one bad attempt more than restarts are allowed is told, unless memory runs out.
    ensures spent { (topology : List ℕ) (solving : Solving) (topo : Topo) (work : Work) (part : List Entry) (job : ℕ)
        (bad : Bad) →
        let c = crew_call_of (I.state inputs.old) (I.state inputs.new) (S.state crew.old) (S.state crew.new)
        (K.state sink.old) (K.state sink.new) in
        asked_of true (map string_bytes words.now) ≡ Ok (Asked.Place topology solving) →
        IsToldPlace (c.call.inputs.contents topology) solving.nodes c topo work part →
        IsOverspent solving.restarts work part job bad →
        UnlessMemory (Status.RestartsSpent Phase.Solve job bad) result }

    // The 4,096th stale event is told, unless memory runs out.
    ensures stale { (topology : List ℕ) (solving : Solving) (topo : Topo) (work : Work) (part : List Entry) →
        let c = crew_call_of (I.state inputs.old) (I.state inputs.new) (S.state crew.old) (S.state crew.new)
        (K.state sink.old) (K.state sink.new) in
        asked_of true (map string_bytes words.now) ≡ Ok (Asked.Place topology solving) →
        IsToldPlace (c.call.inputs.contents topology) solving.nodes c topo work part →
        stale_in work part ≡ 4096 → UnlessMemory (Status.StaleLimit Phase.Solve) result }

    // Of a measure: where in each phase no job has too many bad attempts and few events are stale, it ends with an
    // outcome.
    ensures measure_ends { (asked : Asked) (m : Measures) (topo : Topo) (header : Header) (members : List Record)
        (part : List Entry) →
        let c = crew_call_of (I.state inputs.old) (I.state inputs.new) (S.state crew.old) (S.state crew.new)
        (K.state sink.old) (K.state sink.new) in
        asked_of true (map string_bytes words.now) ≡ Ok asked → measured_by asked c ≡ Some m →
        IsToldMeasure m.contents m.setting m.solving c topo header members part →
        ((phase : Phase) (work : Work) (entries : List Entry) →
        InPhase m.setting m.solving topo header members part phase work entries →
        IsWithinLimits m.solving.restarts work entries) → IsEnding topo.problem m.solving.nodes result }

    // A job of either phase with one bad attempt more than restarts are allowed is told, unless memory runs out.
    ensures measure_spent { (asked : Asked) (m : Measures) (topo : Topo) (header : Header) (members : List Record)
        (part : List Entry) (phase : Phase) (work : Work) (entries : List Entry) (job : ℕ) (bad : Bad) →
        let c = crew_call_of (I.state inputs.old) (I.state inputs.new) (S.state crew.old) (S.state crew.new)
        (K.state sink.old) (K.state sink.new) in
        asked_of true (map string_bytes words.now) ≡ Ok asked → measured_by asked c ≡ Some m →
        IsToldMeasure m.contents m.setting m.solving c topo header members part →
        InPhase m.setting m.solving topo header members part phase work entries →
        IsOverspent m.solving.restarts work entries job bad →
        UnlessMemory (Status.RestartsSpent phase job bad) result }

    // The 4,096th stale event of either phase is told, unless memory runs out.
    ensures measure_stale { (asked : Asked) (m : Measures) (topo : Topo) (header : Header) (members : List Record)
        (part : List Entry) (phase : Phase) (work : Work) (entries : List Entry) →
        let c = crew_call_of (I.state inputs.old) (I.state inputs.new) (S.state crew.old) (S.state crew.new)
        (K.state sink.old) (K.state sink.new) in
        asked_of true (map string_bytes words.now) ≡ Ok asked → measured_by asked c ≡ Some m →
        IsToldMeasure m.contents m.setting m.solving c topo header members part →
        InPhase m.setting m.solving topo header members part phase work entries → stale_in work entries ≡ 4096 →
        UnlessMemory (Status.StaleLimit phase) result }
{
    answer(alloc, words, inputs, crew, sink)
}

// Reads the words, and does what they ask for.
fn answer<I: Inputs, S: Spawner, K: Sink>(
    alloc: Global,
    words: &[String],
    inputs: &mut I,
    crew: &mut S,
    sink: &mut K,
) -> Status
    requires few { (S.state crew.old).issued < 2 ^ 30 }
    requires none_out { (ticket : ℕ) → (S.state crew.old).is_out ticket ≡ false }
    ensures outcome { let c = crew_call_of (I.state inputs.old) (I.state inputs.new) (S.state crew.old) (S.state crew.new)
        (K.state sink.old) (K.state sink.new) in
        CrewOutcome (I.picks inputs.old) (I.picks inputs.new) (asked_of true (map string_bytes words.now)) c result }
    ensures keeps { KeepsCrew (crew_call_of (I.state inputs.old) (I.state inputs.new) (S.state crew.old) (S.state crew.new)
        (K.state sink.old) (K.state sink.new)) }
    ensures over { asked_of true (map string_bytes words.now) ≡ Ok (Asked.Alone AloneCommand.Child) → result ≡ Status.Done
        → IsOver (I.state inputs.new).rest }
{
    match read_words(alloc, words, true) {
        Ok(read) => perform_with(alloc, &read, inputs, crew, sink),
        Err(WordsFault::Usage(fault)) => Status::Usage(fault),
        Err(WordsFault::Memory) => Status::Memory,
    }
}

// Each command, with children where it starts some.
fn perform_with<I: Inputs, S: Spawner, K: Sink>(
    alloc: Global,
    words: &Words,
    inputs: &mut I,
    crew: &mut S,
    sink: &mut K,
) -> Status
    requires range { IsInRange words.now }
    requires few { (S.state crew.old).issued < 2 ^ 30 }
    requires none_out { (ticket : ℕ) → (S.state crew.old).is_out ticket ≡ false }
    ensures outcome { let c = crew_call_of (I.state inputs.old) (I.state inputs.new) (S.state crew.old) (S.state crew.new)
        (K.state sink.old) (K.state sink.new) in
        CrewOutcome (I.picks inputs.old) (I.picks inputs.new) (Ok (asked_in words.now)) c result }
    ensures keeps { KeepsCrew (crew_call_of (I.state inputs.old) (I.state inputs.new) (S.state crew.old) (S.state crew.new)
        (K.state sink.old) (K.state sink.new)) }
    ensures over { asked_in words.now ≡ Asked.Alone AloneCommand.Child → result ≡ Status.Done
        → IsOver (I.state inputs.new).rest }
{
    match words.command {
        Command::Total => perform(alloc, words, inputs, sink),
        Command::Central => perform(alloc, words, inputs, sink),
        Command::Check => perform(alloc, words, inputs, sink),
        Command::Child => perform(alloc, words, inputs, sink),
        Command::Generate => perform(alloc, words, inputs, sink),
        Command::Place => {
            let topology = words.names[0].as_str();
            place(alloc, topology, solving_of(words), inputs, crew, sink)
        }
        Command::Measure => measure_named(alloc, words, inputs, crew, sink),
        Command::Drill => drill_of(alloc, words, crew, sink),
    }
}

// The measure of the topology and of the trace that the words name.
fn measure_named<I: Inputs, S: Spawner, K: Sink>(
    alloc: Global,
    words: &Words,
    inputs: &mut I,
    crew: &mut S,
    sink: &mut K,
) -> Status
    requires range { IsInRange words.now }
    requires command { words.now.command ≡ Command.Measure }
    requires few { (S.state crew.old).issued < 2 ^ 30 }
    requires none_out { (ticket : ℕ) → (S.state crew.old).is_out ticket ≡ false }
    ensures outcome { let c = crew_call_of (I.state inputs.old) (I.state inputs.new) (S.state crew.old) (S.state crew.new)
        (K.state sink.old) (K.state sink.new) in
        CrewOutcome (I.picks inputs.old) (I.picks inputs.new) (Ok (asked_in words.now)) c result }
    ensures keeps { KeepsCrew (crew_call_of (I.state inputs.old) (I.state inputs.new) (S.state crew.old) (S.state crew.new)
        (K.state sink.old) (K.state sink.new)) }
{
    let (topology, trace) = (words.names[0].as_str(), words.names[1].as_str());
    let measuring = Measuring {
        setting: Setting::of(words),
        solving: solving_of(words),
        brief: false,
    };
    measure(alloc, topology, trace, &measuring, inputs, crew, sink)
}

// The measure of the made topology and trace.
fn drill_of<S: Spawner, K: Sink>(alloc: Global, words: &Words, crew: &mut S, sink: &mut K) -> Status
    requires range { IsInRange words.now }
    requires command { words.now.command ≡ Command.Drill }
    requires few { (S.state crew.old).issued < 2 ^ 30 }
    requires none_out { (ticket : ℕ) → (S.state crew.old).is_out ticket ≡ false }
    ensures limits { IsSolving (solving_in words.now) }
    ensures drills { Drills words.now.packets words.now.flows (setting_in words.now) (solving_in words.now)
        (S.state crew.old) (S.state crew.new) (K.state sink.old) (K.state sink.new) result }
    ensures keeps { (inputs : InputState) → KeepsCrew (crew_call_of inputs inputs (S.state crew.old) (S.state crew.new)
        (K.state sink.old) (K.state sink.new)) }
{
    let (packets, flows) = (words.packets, words.flows);
    let setting = Setting::of(words);
    drill(
        alloc,
        packets,
        flows,
        &setting,
        solving_of(words),
        crew,
        sink,
    )
}
