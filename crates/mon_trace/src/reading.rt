//! A trace as it is read.
ghost use Rattle.std.specs.Prelude.{◌≡◌, ◌≤◌, [], ◌∷◌, Option, IfSome};
ghost use Rattle.mon_io.specs.Inputs.{Picked};
ghost use Rattle.mon_call.specs.Trace.{ReadsTrace};
ghost use Rattle.mon_trace.specs.Reading.{IsRead, IsRefused};

use flow_keys::{FlowKey, Routed, key_of};
use mon_call::{Status, trace_status};
use mon_io::Inputs;
use pcap_reader::{Packet, PcapReader};
use routed_trace::{Division, TraceCounts};
use std::alloc::Global;
use topology::Topology;

/// The routed packets of a trace in its order, and the numbers of its records.
#[derive(Drop)]
pub struct RoutedTrace {
    pub routed: Vec<Routed>,
    pub counts: TraceCounts,
}

/// Reads a trace to its end, with the routes of a topology where there is one, and gives its routed packets and its
/// numbers. The seconds of an epoch are at least 1. It is `ReadFault(Trace)` where the trace could not be picked or
/// read, `Trace` with the first fault in the order of the file, or `Memory` where a growth was refused. It takes
/// memory: the buffer of the reader, and a list of 52 bytes a routed packet.
pub fn read_trace<I: Inputs>(
    alloc: Global,
    trace: &str,
    topology: &Option<Topology>,
    division: &Division,
    inputs: &mut I,
) -> Result<RoutedTrace, Status>
    requires length { IfSome division.now.seconds (λ length. 1 ≤ length) }
    ensures read { let contents = (I.state inputs.old).contents trace.now in
        ReadsTrace (IsRead contents topology.now division.now) (IsRefused contents division.now) contents
        (I.state inputs.old) (I.state inputs.new) result }
    ensures picks { Picked (I.picks inputs.old) (I.picks inputs.new) (trace.now ∷ []) }
    ensures stays { (I.state inputs.new).contents ≡ (I.state inputs.old).contents }
    ensures later { (I.state inputs.old).faults ≤ (I.state inputs.new).faults }
{
    let mut reader = match PcapReader::begin(alloc, inputs, trace) {
        Ok(reader) => reader,
        Err(stop) => return Err(trace_status(stop)),
    };
    let mut read = RoutedTrace::none(alloc);
    loop {
        let packet = match reader.next(inputs) {
            Ok(Some(packet)) => packet,
            Ok(None) => return Ok(read),
            Err(stop) => return Err(trace_status(stop)),
        };
        let key = key_of(packet.link, reader.captured());
        match read.add(topology, division, &packet, key) {
            Ok(()) => {}
            Err(status) => return Err(status),
        }
    }
}

impl RoutedTrace {
    ghost use Rattle.mon_trace.specs.Listing.{Adds, Lists};
    ghost use Rattle.pcap_reader.specs.declared.header.Header.{Header};
    ghost use Rattle.routed_trace.specs.Counts.{HasCounted};
    ghost use Rattle.topology.specs.Topology.{Topo};

    // No record yet.
    fn none(alloc: Global) -> RoutedTrace
        ensures { (topology : Option Topo) (division : Division) (header : Header) →
            Lists topology division result header [] }
    {
        RoutedTrace {
            routed: Vec::new(alloc),
            counts: TraceCounts::none(),
        }
    }

    // Counts a record, with its key where it has one, and lists its routed packet where it has a path, too. It is
    // `Trace` where the record is late or heavy, or `Memory`.
    fn add(
        &mut self,
        topology: &Option<Topology>,
        division: &Division,
        packet: &Packet,
        key: Option<FlowKey>,
    ) -> Result<(), Status>
        requires length { IfSome division.now.seconds (λ length. 1 ≤ length) }
        requires part { HasCounted division.now topology.now self.old.counts }
        ensures { Adds topology.now division.now self.old self.new packet.now key result }
    {
        let found = match self.counts.add(division, topology, packet, key) {
            Ok(found) => found,
            Err(fault) => return Err(Status::Trace(fault)),
        };
        let Some(routed) = found else {
            return Ok(());
        };
        match self.routed.push(routed) {
            Ok(()) => Ok(()),
            Err(_) => Err(Status::Memory),
        }
    }
}
