//! The command `total`: how many packets of a trace there are, and how many have a flow key.
ghost use Rattle.std.specs.Prelude.{◌≡◌, ◌≤◌, [], ◌∷◌, IfOk, string_bytes};
ghost use Rattle.mon_io.specs.Inputs.{Picked};
ghost use Rattle.mon_call.specs.Call.{Answers, Keeps, Picks, call_of};
ghost use Rattle.mon_call.specs.Trace.{ReadsTrace};
ghost use Rattle.mon_command.specs.Total.{IsBroken, IsCount, total_duty, total_lines, total_reads};

use flow_keys::key_of;
use mon_call::{Status, finish, trace_status};
use mon_io::{Inputs, Sink};
use pcap_reader::PcapReader;
use std::alloc::{AllocError, Global};

/// How many packets there are, and how many of them have a key.
#[derive(Clone, Copy, Debug, PartialEq, Eq)]
pub(crate) struct Counts {
    pub(crate) packets: u32,
    pub(crate) keyed: u32,
}

/// Counts the packets of a trace and writes their numbers.
pub(crate) fn total<I: Inputs, K: Sink>(
    alloc: Global,
    trace: &str,
    inputs: &mut I,
    sink: &mut K,
) -> Status
    ensures answers { let call = call_of (I.state inputs.old) (I.state inputs.new) (K.state sink.old) (K.state sink.new) in
        Answers (total_duty (call.inputs.contents trace.now) trace.now) call result }
    ensures picks { Picks (I.picks inputs.old) (I.picks inputs.new) (total_reads trace.now) result }
    ensures keeps { Keeps (call_of (I.state inputs.old) (I.state inputs.new) (K.state sink.old) (K.state sink.new)) }
{
    let counts = match count(alloc, trace, inputs) {
        Ok(counts) => counts,
        Err(status) => return status,
    };
    let Ok(text) = text_of(alloc, counts) else {
        return Status::Memory;
    };
    finish(sink, text.as_str())
}

// Reads the trace to its end.
fn count<I: Inputs>(alloc: Global, trace: &str, inputs: &mut I) -> Result<Counts, Status>
    ensures counted { let contents = (I.state inputs.old).contents trace.now in
        ReadsTrace (IsCount contents) (IsBroken contents) contents (I.state inputs.old) (I.state inputs.new) result }
    ensures picks { Picked (I.picks inputs.old) (I.picks inputs.new) (trace.now ∷ []) }
    ensures stays { (I.state inputs.new).contents ≡ (I.state inputs.old).contents }
    ensures later { (I.state inputs.old).faults ≤ (I.state inputs.new).faults }
{
    let mut reader = match PcapReader::begin(alloc, inputs, trace) {
        Ok(reader) => reader,
        Err(stop) => return Err(trace_status(stop)),
    };
    let mut packets = 0u32;
    let mut keyed = 0u32;
    loop {
        let packet = match reader.next(inputs) {
            Ok(Some(packet)) => packet,
            Ok(None) => return Ok(Counts { packets, keyed }),
            Err(stop) => return Err(trace_status(stop)),
        };
        packets += 1;
        if key_of(packet.link, reader.captured()).is_some() {
            keyed += 1;
        }
    }
}

// The lines of the numbers.
fn text_of(alloc: Global, counts: Counts) -> Result<String, AllocError>
    requires { counts.keyed ≤ counts.packets }
    ensures { IfOk result (λ text. string_bytes text ≡ total_lines counts.packets counts.keyed) }
{
    let packets = counts.packets;
    let keyed = counts.keyed;
    let unkeyed = packets - keyed;
    format!(in alloc; "univmon total 1\npackets {packets}\nkeyed {keyed}\nunkeyed {unkeyed}\nend\n")
}
