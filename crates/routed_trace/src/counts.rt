//! The numbers of the records of a trace so far.
ghost use Rattle.std.specs.Prelude.{◌≡◌, ◌<◌, ◌≤◌, [], Option, IfOk, IfSome};
ghost use Rattle.pcap_reader.specs.declared.header.Header.{Header};
ghost use Rattle.pcap_reader.specs.Trace.{Record};
ghost use Rattle.topology.specs.Topology.{Topo};

use crate::path::path_of;
use crate::{Division, TraceFault};
use flow_keys::{FlowKey, Routed};
use pcap_reader::Packet;
use topology::Topology;

// The greatest index of an epoch.
const LAST_EPOCH: u32 = 7;
// Original lengths together, in bytes.
const MOST_BYTES: u64 = 17_592_186_044_416;

/// How many records there are so far, how many of them have a key, how many of these a path, how many epochs they
/// are in, and what is kept for the next one: the seconds of the first, and the original lengths together where
/// bytes are counted.
#[derive(Clone, Copy, Debug, PartialEq, Eq)]
pub struct TraceCounts {
    pub packets: u32,
    pub keyed: u32,
    pub routed: u32,
    pub epochs: u32,
    pub first: Option<u32>,
    pub bytes: u64,
}

impl TraceCounts {
    ghost use Rattle.routed_trace.specs.Counts.{Adds, AreCounts, HasCounted};

    /// No record yet, in one epoch.
    pub fn none() -> TraceCounts
        ensures counts { (division : Division) (topology : Option Topo) (header : Header) →
            AreCounts division topology result header [] }
    {
        TraceCounts {
            packets: 0,
            keyed: 0,
            routed: 0,
            epochs: 1,
            first: None,
            bytes: 0,
        }
    }

    /// Counts a record, with its key where it has one, and gives its routed packet where it has a path, too. Else it
    /// is `Epochs` where the record is late, and `Weight` where it is heavy and not late; then nothing is counted.
    #[inline]
    pub fn add(
        &mut self,
        division: &Division,
        topology: &Option<Topology>,
        packet: &Packet,
        key: Option<FlowKey>,
    ) -> Result<Option<Routed>, TraceFault>
        requires length { IfSome division.now.seconds (λ length. 1 ≤ length) }
        requires part { HasCounted division.now topology.now self.old }
        ensures adds { Adds division.now topology.now self.old self.new packet.now key result }
        ensures within { IfOk result (λ found. IfSome found (λ packet. packet.epoch < self.new.epochs)) }
    {
        let first = self.first.unwrap_or(packet.seconds);
        let epoch = division.epoch(first, packet.seconds);
        let number = self.packets;
        if epoch > LAST_EPOCH {
            return Err(TraceFault::Epochs {
                number,
                index: epoch,
            });
        }
        let bytes = division.bytes_with(self.bytes, packet);
        if bytes > MOST_BYTES {
            return Err(TraceFault::Weight { number });
        }
        self.first = Some(first);
        self.bytes = bytes;
        self.packets += 1;
        self.epochs = self.epochs.max(epoch + 1);
        let Some(key) = key else {
            return Ok(None);
        };
        self.keyed += 1;
        let Some(path) = path_of(topology, &key) else {
            return Ok(None);
        };
        self.routed += 1;
        Ok(Some(Routed {
            epoch: epoch as u8,
            path,
            key,
            weight: division.weight(packet),
        }))
    }
}
