//! A made trace is a trace, and each of its packets has the key of its flow. The made topology is accepted.
//!
//! `specs/Members.antt` says of which records it is a trace, and what the key of a flow is; `specs/Topology.antt` says
//! which topology it is.
#![tactic(auto)]

ghost use Rattle.std.specs.Prelude.{◌≡◌, ◌≤◌, ℕ, Ok, Some, length};
ghost use Rattle.flow_keys.specs.Frame.{frame_key};
ghost use Rattle.flow_keys.specs.declared.link.Link.TheVariants.{Ethernet};
ghost use Rattle.maker_laws.specs.Members.{key_of, made_header, members_of};
ghost use Rattle.maker_laws.specs.Topology.{made_topology};
ghost use Rattle.pcap_reader.specs.Trace.{IsTrace};
ghost use Rattle.topology.specs.Topology.{topology_of};
ghost use Rattle.trace_maker.specs.Topology.{generated_topology};
ghost use Rattle.trace_maker.specs.Trace.{frame_bytes, generated_trace};

/// A made trace of at most 1,048,576 packets is a trace of as many records, each with the head and the captured bytes
/// that were made for its packet.
pub fn made_traces()
    ensures trace { (seed packets flows : ℕ) → packets ≤ 1048576
        → IsTrace (generated_trace seed packets flows) made_header (members_of seed packets flows) }
    ensures number { (seed packets flows : ℕ) → length (members_of seed packets flows) ≡ packets }
{}

/// The captured bytes of a made packet have a key, which is that of its flow: no two flows have the same.
pub fn made_keys()
    ensures keyed { (flow original : ℕ) → frame_key Ethernet (frame_bytes flow original) ≡ Some (key_of flow) }
    ensures one_flow { (flow other : ℕ) → key_of flow ≡ key_of other → flow ≡ other }
{}

/// The text of the made topology spells the topology of its numbers, of twelve switches and thirty paths.
pub fn made_topologies()
    ensures accepted { topology_of generated_topology ≡ Ok made_topology }
    ensures switches { length made_topology.switch_names ≡ 12 }
    ensures paths { length made_topology.path_names ≡ 30 }
{}
