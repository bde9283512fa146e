//! A trace as it is read, epoch by epoch.
ghost use Rattle.std.specs.Prelude.{◌≡◌, ◌<◌, ◌≤◌, [], ◌∷◌, Option, IfOk, IsTrue, string_bytes};
ghost use Rattle.mon_io.specs.Inputs.{Picked};
ghost use Rattle.mon_call.specs.Setting.{is_setting};
ghost use Rattle.mon_call.specs.Trace.{ReadsTrace};
ghost use Rattle.mon_central.specs.Duty.{IsRefused};
ghost use Rattle.mon_central.specs.Sketched.{IsSketched};

use crate::blocks::epochs_text;
use crate::dividing::{add_to, reach};
use crate::gathering::Gathered;
use crate::text::text_of;
use flow_keys::{FlowKey, key_of};
use mon_call::{Setting, Status, trace_status};
use mon_io::{Inputs, Memory};
use pcap_reader::{Packet, PcapReader};
use routed_trace::TraceCounts;
use std::alloc::Global;
use topology::Topology;

/// What was gathered of each epoch so far, and the numbers of the records.
#[derive(Drop)]
pub(crate) struct Epochs {
    counts: TraceCounts,
    sketches: Vec<Gathered>,
}

/// Reads a trace to its end.
pub(crate) fn sketch<I: Inputs>(
    alloc: Global,
    trace: &str,
    topology: &Option<Topology>,
    setting: &Setting,
    inputs: &mut I,
) -> Result<Epochs, Status>
    requires range { IsTrue (is_setting setting.now) }
    ensures sketched { let contents = (I.state inputs.old).contents in
        ReadsTrace (IsSketched (contents trace.now) topology.now setting.now) (IsRefused contents trace.now setting.now)
        (contents trace.now) (I.state inputs.old) (I.state inputs.new) result }
    ensures picks { Picked (I.picks inputs.old) (I.picks inputs.new) (trace.now ∷ []) }
    ensures stays { (I.state inputs.new).contents ≡ (I.state inputs.old).contents }
    ensures later { (I.state inputs.old).faults ≤ (I.state inputs.new).faults }
{
    let mut reader = match PcapReader::begin(alloc, inputs, trace) {
        Ok(reader) => reader,
        Err(stop) => return Err(trace_status(stop)),
    };
    let Ok(mut epochs) = Epochs::new(alloc, setting) else {
        return Err(Status::Memory);
    };
    loop {
        let packet = match reader.next(inputs) {
            Ok(Some(packet)) => packet,
            Ok(None) => return Ok(epochs),
            Err(stop) => return Err(trace_status(stop)),
        };
        let key = key_of(packet.link, reader.captured());
        match epochs.add(alloc, setting, topology, &packet, key) {
            Ok(()) => {}
            Err(status) => return Err(status),
        }
    }
}

impl Epochs {
    ghost use Rattle.mon_central.specs.Sketched.{Counts, Divides, IsNext, IsPart};
    ghost use Rattle.mon_central.specs.Central.{central_text};
    ghost use Rattle.pcap_reader.specs.declared.header.Header.{Header};
    ghost use Rattle.pcap_reader.specs.Trace.{Record};
    ghost use Rattle.topology.specs.Topology.{Topo};
    ghost use Rattle.std.specs.Prelude.{List};

    /// One epoch, and nothing in it yet.
    pub(crate) fn new(alloc: Global, setting: &Setting) -> Result<Epochs, Memory>
        requires { IsTrue (is_setting setting.now) }
        ensures { IfOk result (λ epochs. (topology : Option Topo) (header : Header) → Divides setting.now topology epochs header []) }
    {
        let mut sketches = Vec::new(alloc);
        reach(alloc, setting, &mut sketches, 1)?;
        Ok(Epochs {
            counts: TraceCounts::none(),
            sketches,
        })
    }

    /// Counts a packet, with its key where it has one. It is `Trace` where the record is late or heavy, or `Memory`.
    pub(crate) fn add(
        &mut self,
        alloc: Global,
        setting: &Setting,
        topology: &Option<Topology>,
        packet: &Packet,
        key: Option<FlowKey>,
    ) -> Result<(), Status>
        requires range { IsTrue (is_setting setting.now) }
        requires next { IsNext setting.now topology.now self.old packet.now key }
        ensures { Counts setting.now topology.now self.old self.new packet.now key result }
    {
        let found = match self.counts.add(&setting.division, topology, packet, key) {
            Ok(found) => found,
            Err(fault) => return Err(Status::Trace(fault)),
        };
        let number = self.counts.epochs as usize;
        let Ok(()) = reach(alloc, setting, &mut self.sketches, number) else {
            return Err(Status::Memory);
        };
        let Some(routed) = found else {
            return Ok(());
        };
        match add_to(&mut self.sketches, &routed) {
            Ok(()) => Ok(()),
            Err(Memory) => Err(Status::Memory),
        }
    }

    /// The text of what was sketched. Counted keys are given up once they are sketched.
    pub(crate) fn text(&mut self, alloc: Global, setting: &Setting) -> Result<String, Memory>
        requires part { (topology : Option Topo) × IsPart setting.now topology self.old }
        requires range { IsTrue (is_setting setting.now) }
        ensures { IfOk result (λ text. (topology : Option Topo) (header : Header) (members : List Record) →
            Divides setting.now topology self.old header members → string_bytes text ≡ central_text setting.now topology header members) }
    {
        let epochs = epochs_text(alloc, setting, &mut self.sketches)?;
        text_of(alloc, setting, &self.counts, &epochs)
    }
}
