//! A law on drills: the made topology is accepted and the made files never fail, so no drill ends with a fault of either. No
//! code.
#![tactic(auto)]

ghost use Rattle.std.specs.Prelude.{ℕ};
ghost use Rattle.crew.specs.Crew.{CrewState};
ghost use Rattle.maker_laws.specs.Topology.{made_topology};
ghost use Rattle.mon_call.specs.Topology.{SpellTopology};
ghost use Rattle.mon_call.specs.declared.setting.Setting.{Setting};
ghost use Rattle.mon_call.specs.declared.status.Input.{Input};
ghost use Rattle.mon_call.specs.declared.status.Status.TheVariants.{ReadFault, Topology};
ghost use Rattle.mon_drill.specs.Drill.{Drills, made_for};
ghost use Rattle.mon_io.specs.Sink.{SinkState};
ghost use Rattle.solve_phase.specs.declared.solving.Solving.{Solving};
ghost use Rattle.topology.specs.declared.fault.TopologyFault.{TopologyFault};

/// What a drill measures spells the made topology. No drill tells a fault of it, and none tells that a file can't be read.
pub fn fit_drills()
    ensures spells { (seed packets flows : ℕ) → SpellTopology (made_for seed packets flows).topology made_topology }
    ensures fit { (packets flows : ℕ) (setting : Setting) (solving : Solving) (crew crew_after : CrewState)
        (sink sink_after : SinkState) (fault : TopologyFault)
        → Drills packets flows setting solving crew crew_after sink sink_after (Topology fault) → ⊥ }
    ensures read { (packets flows : ℕ) (setting : Setting) (solving : Solving) (crew crew_after : CrewState)
        (sink sink_after : SinkState) (input : Input)
        → Drills packets flows setting solving crew crew_after sink sink_after (ReadFault input) → ⊥ }
{}
