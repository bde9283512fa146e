//! What a measure answers where what is read is told, and so is the crew's log.
ghost use Rattle.std.specs.Prelude.{◌≡◌, ℕ, List, Ok, Err};
ghost use Rattle.change_report.specs.Form.{Form};
ghost use Rattle.crew.specs.Log.{Entry};
ghost use Rattle.measure_answers.specs.Measure.{MeasureAnswers};
ghost use Rattle.measure_answers.specs.Replayed.{Contents};
ghost use Rattle.measure_told.specs.Told.{InPhase, IsToldMeasure};
ghost use Rattle.mon_call.specs.Call.{UnlessMemory};
ghost use Rattle.mon_call.specs.CrewCall.{CrewCall};
ghost use Rattle.mon_call.specs.Told.{HasBytes, IsSmooth};
ghost use Rattle.mon_call.specs.declared.setting.Setting.{Setting};
ghost use Rattle.mon_call.specs.declared.status.Phase.{Phase};
ghost use Rattle.mon_call.specs.declared.status.Status.{Status};
ghost use Rattle.mon_call.specs.declared.status.Status.TheVariants as statuses;
ghost use Rattle.mon_place.specs.Told.{IsEnding};
ghost use Rattle.pcap_reader.specs.Trace.{Record};
ghost use Rattle.pcap_reader.specs.declared.header.Header.{Header};
ghost use Rattle.replay_core.specs.declared.bad.Bad.{Bad};
ghost use Rattle.replay_supervisor.specs.Jobs.{Work};
ghost use Rattle.replay_supervisor.specs.Reading.{stale_in};
ghost use Rattle.routed_trace.specs.Scan.{HasTraceFault};
ghost use Rattle.routed_trace.specs.declared.fault.TraceFault.{TraceFault};
ghost use Rattle.solve_phase.specs.Told.{IsOverspent, IsWithinLimits};
ghost use Rattle.solve_phase.specs.declared.solving.Solving.{Solving};
ghost use Rattle.topology.specs.Topology.{Topo, topology_of};
ghost use Rattle.topology.specs.declared.fault.TopologyFault.{TopologyFault};

/// Where a measure's inputs and its part of the crew's log are told, and no count of inputs or sink rose: with each phase
/// of the log within the limits, whatever work reads it, it ends with an outcome; a job of a phase with too many bad
/// attempts is told, and so is a phase's 4,096th stale event. Want of memory may come in the place of each.
pub fn told_measures()
    ensures ends { (form : Form) (contents : Contents) (setting : Setting) (solving : Solving) (c : CrewCall) (topo : Topo)
        (header : Header) (members : List Record) (part : List Entry)
        → IsToldMeasure contents setting solving c topo header members part → (status : Status)
        → ((phase : Phase) (work : Work) (entries : List Entry)
        → InPhase setting solving topo header members part phase work entries
        → IsWithinLimits solving.restarts work entries)
        → MeasureAnswers form contents setting solving c status → IsEnding topo.problem solving.nodes status }
    ensures spent { (form : Form) (contents : Contents) (setting : Setting) (solving : Solving) (c : CrewCall)
        (topo : Topo) (header : Header) (members : List Record) (part : List Entry)
        → IsToldMeasure contents setting solving c topo header members part
        → (phase : Phase) (work : Work) (entries : List Entry) (job : ℕ) (bad : Bad) (status : Status)
        → InPhase setting solving topo header members part phase work entries
        → IsOverspent solving.restarts work entries job bad → MeasureAnswers form contents setting solving c status
        → UnlessMemory (statuses.RestartsSpent phase job bad) status }
    ensures stale { (form : Form) (contents : Contents) (setting : Setting) (solving : Solving) (c : CrewCall)
        (topo : Topo) (header : Header) (members : List Record) (part : List Entry)
        → IsToldMeasure contents setting solving c topo header members part
        → (phase : Phase) (work : Work) (entries : List Entry) (status : Status)
        → InPhase setting solving topo header members part phase work entries → stale_in work entries ≡ 4096
        → MeasureAnswers form contents setting solving c status
        → UnlessMemory (statuses.StaleLimit phase) status }
{}

/// Where no count of inputs or sink rose, a fault of a told topology is told, and so is a told trace's first fault behind a
/// topology without one; unless memory ran out.
pub fn told_faults()
    ensures unfit { (form : Form) (contents : Contents) (setting : Setting) (solving : Solving) (c : CrewCall)
        → IsSmooth c.call → (fault : TopologyFault) (status : Status)
        → HasBytes contents.topology (λ bytes. topology_of bytes ≡ Err fault)
        → MeasureAnswers form contents setting solving c status → UnlessMemory (statuses.Topology fault) status }
    ensures refused { (form : Form) (contents : Contents) (setting : Setting) (solving : Solving) (c : CrewCall)
        → IsSmooth c.call → (fault : TraceFault) (status : Status)
        → HasBytes contents.topology (λ bytes. (topo : Topo) × (topology_of bytes ≡ Ok topo))
        → HasBytes contents.trace (λ bytes. HasTraceFault setting.division bytes fault)
        → MeasureAnswers form contents setting solving c status → UnlessMemory (statuses.Trace fault) status }
{}
