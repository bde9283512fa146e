//! The reader of a trace.
ghost use Rattle.std.specs.Prelude.{◌≡◌, ◌≢◌, ◌⊎◌, ◌≤◌, ◌<◌, ◌+◌, ◌*◌, ◌++◌, [], ◌∷◌, List, ℕ, Option, Some, None, Err, length, take, IfOk, IfErr, IfSome, IsErrOf, MatchResult};
ghost use Rattle.mon_io.specs.Faults.{Rose, HasCause};
ghost use Rattle.mon_io.specs.Inputs.{IsRestOf, Picked, PickedNothing};
ghost use Rattle.pcap_reader.specs.Filling.{Filled};
ghost use Rattle.pcap_reader.specs.Numbers.{number_32};
ghost use Rattle.pcap_reader.specs.Trace.{fault_at};

use crate::filling::fill;
use crate::header::{HEADER_LENGTH, Header, read_header};
use crate::{Packet, PcapFault, PcapStop};
use mon_io::{Fault, Inputs};
use std::alloc::{AllocError, Global};

/// The greatest captured length of a record, in bytes.
const MOST_CAPTURED: u32 = 262_144;
/// The greatest number of records in a trace.
const MOST_RECORDS: u32 = 1_048_576;

/// A reader of one trace, at the place of a record.
#[derive(Drop)]
pub struct PcapReader {
    header: Header,
    buffer: Vec<u8>,
    captured_bytes: usize,
    count: u32,
    at: u64,
    stop: Option<PcapStop>,
    ghost whole: { length buffer.items ≡ 262144 },
    ghost fits: { captured_bytes ≤ 262144 },
    ghost few: { count ≤ 1048576 },
    ghost near: { at ≤ 24 + 262160 * count },
}

impl PcapReader {
    ghost use Rattle.pcap_reader.specs.Trace.{Record, packet_of};
    ghost use Rattle.pcap_reader.specs.Reader.{Begun, Advanced, SoFar, GoesPast, KeepsCaptured, captured_of, header_read, stop_of};

    /// Picks the named input and reads its header. It takes the buffer once the name is picked, and is
    /// the one call that can answer `PcapStop::Memory`.
    pub fn begin<I: Inputs>(
        alloc: Global,
        inputs: &mut I,
        name: &str,
    ) -> Result<PcapReader, PcapStop>
        ensures begun { Begun ((I.state inputs.old).contents name.now) (I.state inputs.old).rest
            (I.state inputs.new).rest result }
        ensures picks { Picked (I.picks inputs.old) (I.picks inputs.new) (name.now ∷ []) }
        ensures stays { (I.state inputs.new).contents ≡ (I.state inputs.old).contents }
        ensures later { (I.state inputs.old).faults ≤ (I.state inputs.new).faults }
        ensures cause { IsErrOf result PcapStop.Read → Rose (I.state inputs.old).faults (I.state inputs.new).faults }
        ensures captured { IfOk result (λ reader. captured_of reader ≡ []) }
    {
        let Ok(()) = inputs.pick(name) else {
            return Err(PcapStop::Read);
        };
        let Ok(buffer) = new_buffer(alloc) else {
            return Err(PcapStop::Memory);
        };
        let mut bytes = [0; HEADER_LENGTH];
        let Ok(count) = fill(inputs, &mut bytes) else {
            return Err(PcapStop::Read);
        };
        match read_header(&bytes[..count]) {
            Err(fault) => Err(PcapStop::Bad(fault)),
            Ok(header) => Ok(PcapReader {
                header,
                buffer,
                captured_bytes: 0,
                count: 0,
                at: 24,
                stop: None,
            }),
        }
    }

    /// The next packet, or None exactly at the end of the input at a record's place. It takes no memory.
    /// After a stop every later call answers the same stop, and reads nothing.
    #[inline]
    pub fn next<I: Inputs>(&mut self, inputs: &mut I) -> Result<Option<Packet>, PcapStop>
        ensures advances { (contents : Option (List ℕ)) (members : List Record) →
            SoFar contents (I.state inputs.old).rest self.old members →
            Advanced contents (I.state inputs.new).rest self.new members result }
        ensures stopped { IfSome (stop_of self.old)
            (λ stop. (result ≡ Err stop) × ((I.state inputs.new).rest ≡ (I.state inputs.old).rest)) }
        ensures stops { IfErr result (λ stop. stop_of self.new ≡ Some stop) }
        ensures header { header_read self.new ≡ header_read self.old }
        ensures picks { PickedNothing (I.picks inputs.old) (I.picks inputs.new) }
        ensures stays { (I.state inputs.new).contents ≡ (I.state inputs.old).contents }
        ensures later { (I.state inputs.old).faults ≤ (I.state inputs.new).faults }
        ensures cause { IsErrOf result PcapStop.Read →
            (stop_of self.old ≡ Some PcapStop.Read) ⊎ Rose (I.state inputs.old).faults (I.state inputs.new).faults }
        ensures captured { KeepsCaptured (captured_of self.old) (captured_of self.new) result }
    {
        if let Some(stop) = self.stop {
            return Err(self.stopped(stop));
        }
        match self.step(inputs) {
            Ok(packet) => Ok(packet),
            Err(stop) => Err(self.stopped(stop)),
        }
    }

    // Keeps a stop for every later call, and no captured bytes.
    fn stopped(&mut self, stop: PcapStop) -> PcapStop
        ensures stop { result ≡ stop }
        ensures kept { stop_of self.new ≡ Some stop }
        ensures captured { captured_of self.new ≡ [] }
        ensures header { header_read self.new ≡ header_read self.old }
    {
        self.stop = Some(stop);
        self.captured_bytes = 0;
        stop
    }

    /// The captured bytes of the last packet that `next` gave, also at the end of the trace. There are
    /// none before the first packet and after a stop. It takes no memory.
    #[inline]
    pub fn captured(&self) -> &[u8]
        ensures bytes { result.now ≡ captured_of self.now }
    {
        &self.buffer[..self.captured_bytes]
    }

    // One step of a reader that goes on.
    #[inline]
    fn step<I: Inputs>(&mut self, inputs: &mut I) -> Result<Option<Packet>, PcapStop>
        ensures advances { (contents : Option (List ℕ)) (members : List Record) →
            SoFar contents (I.state inputs.old).rest self.old members →
            Advanced contents (I.state inputs.new).rest self.new members result }
        ensures header { header_read self.new ≡ header_read self.old }
        ensures stop { stop_of self.new ≡ stop_of self.old }
        ensures picks { PickedNothing (I.picks inputs.old) (I.picks inputs.new) }
        ensures stays { (I.state inputs.new).contents ≡ (I.state inputs.old).contents }
        ensures later { (I.state inputs.old).faults ≤ (I.state inputs.new).faults }
        ensures cause { IsErrOf result PcapStop.Read → Rose (I.state inputs.old).faults (I.state inputs.new).faults }
        ensures end { IfOk result (λ packet. packet ≡ None → captured_of self.new ≡ captured_of self.old) }
    {
        let mut head = [0; 16];
        let Ok(count) = fill(inputs, &mut head) else {
            return Err(PcapStop::Read);
        };
        if count == 0 {
            return Ok(None);
        }
        let length = match self.captured_length(&head[..count]) {
            Ok(length) => length,
            Err(fault) => return Err(PcapStop::Bad(fault)),
        };
        let Ok(captured) = fill_front(inputs, &mut self.buffer, length) else {
            return Err(PcapStop::Read);
        };
        if captured < length {
            return Err(PcapStop::Bad(PcapFault::ShortRecord { at: self.at }));
        }
        Ok(Some(self.take(&head, length)))
    }

    // The captured length that a head says, or the fault of what begins with it.
    #[inline]
    fn captured_length(&self, head: &[u8]) -> Result<usize, PcapFault>
        requires { length head.now ≤ 16 }
        ensures ok { IfOk result
            (λ n. (length head.now ≡ 16) × (n ≤ 262144) × (n ≡ number_32 (header_read self.now).order head.now 8)) }
        ensures room { IfOk result (λ n. self.now.count < 1048576) }
        ensures fault { IfErr result (λ fault. (more : List ℕ) → (length head.now < 16 → more ≡ []) →
            fault_at (header_read self.now).order self.now.count self.now.at (head.now ++ more) ≡ Some fault) }
    {
        if self.count == MOST_RECORDS {
            return Err(PcapFault::TooMany);
        }
        if head.len() < 16 {
            return Err(PcapFault::ShortRecord { at: self.at });
        }
        let length = self.header.order.number_32(head, 8);
        if length > MOST_CAPTURED {
            let at = self.at;
            return Err(PcapFault::LongRecord { at, length });
        }
        Ok(length as usize)
    }

    // Goes past the record with this head, whose captured bytes are in the buffer.
    #[inline]
    fn take(&mut self, head: &[u8], captured: usize) -> Packet
        requires head { length head.now ≡ 16 }
        requires fits { captured ≤ 262144 }
        requires room { self.old.count < 1048576 }
        ensures packet { result ≡ record {
          seconds = number_32 (header_read self.old).order head.now 0;
          original = number_32 (header_read self.old).order head.now 12;
          link = (header_read self.old).link;
        } }
        ensures after { GoesPast self.old self.new captured }
    {
        self.captured_bytes = captured;
        self.count += 1;
        self.at += 16 + captured as u64;
        Packet {
            seconds: self.header.order.number_32(head, 0),
            original: self.header.order.number_32(head, 12),
            link: self.header.link,
        }
    }
}

// A buffer for the captured bytes of any record.
fn new_buffer(alloc: Global) -> Result<Vec<u8>, AllocError>
    ensures { IfOk result (λ buffer. length buffer.items ≡ 262144) }
{
    vec![in alloc; 0u8; 262_144]
}

// Fills this many bytes at the front of a buffer.
#[inline]
fn fill_front<I: Inputs>(inputs: &mut I, buffer: &mut [u8], wanted: usize) -> Result<usize, Fault>
    requires { wanted ≤ length buffer.old }
    ensures bytes { MatchResult result
        (λ n. (n ≤ wanted) × Filled (I.state inputs.old).rest (I.state inputs.new).rest (take wanted buffer.new) n)
        (λ _. IsRestOf (I.state inputs.old).rest (I.state inputs.new).rest) }
    ensures size { length (take wanted buffer.new) ≡ wanted }
    ensures picks { PickedNothing (I.picks inputs.old) (I.picks inputs.new) }
    ensures stays { (I.state inputs.new).contents ≡ (I.state inputs.old).contents }
    ensures cause { HasCause (I.state inputs.old).faults (I.state inputs.new).faults result }
{
    fill(inputs, &mut buffer[..wanted])
}
