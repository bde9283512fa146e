//! The bytes of a trace.
ghost use Rattle.std.specs.Prelude.{◌≡◌, ◌≤◌, ◌++◌, IfOk, OnOk};
ghost use Rattle.trace_maker.specs.Trace.{frame_bytes, generated_trace, head_bytes};

use crate::packet::{Packet, draw, frame_bytes, head_bytes};
use crate::stream::stream_of;
use mon_io::Memory;
use std::alloc::Global;

// Classic pcap with little-endian numbers and times in microseconds, version 2.4, of Ethernet frames.
const HEADER: [u8; 24] = [
    0xd4, 0xc3, 0xb2, 0xa1, 2, 0, 4, 0, 0, 0, 0, 0, 0, 0, 0, 0, 0xff, 0xff, 0, 0, 1, 0, 0, 0,
];

/// A trace of so many packets, 0 to 1,048,576, of so many flows, 1 to 65,536, that the seed draws. It takes memory
/// once, for the whole trace.
pub fn trace_bytes(alloc: Global, seed: u64, packets: u32, flows: u32) -> Result<Vec<u8>, Memory>
    requires packets { packets ≤ 1048576 }
    requires some { 1 ≤ flows }
    requires flows { flows ≤ 65536 }
    ensures bytes { IfOk result (λ trace. trace.items ≡ generated_trace seed packets flows) }
{
    let Ok(mut trace) = Vec::with_capacity(alloc, 24 + 58 * packets as usize) else {
        return Err(Memory);
    };
    put(&HEADER, &mut trace)?;
    let mut stream = stream_of(seed);
    for number in 0..packets {
        let packet = draw(&mut stream, flows);
        put_record(number, packet, &mut trace)?;
    }
    Ok(trace)
}

// Appends the record of a packet by its number.
fn put_record(number: u32, packet: Packet, trace: &mut Vec<u8>) -> Result<(), Memory>
    requires { 14 ≤ packet.original }
    ensures { OnOk result (trace.new.items
        ≡ trace.old.items ++ (head_bytes number packet.original ++ frame_bytes packet.flow packet.original)) }
{
    put(&head_bytes(number, packet.original), trace)?;
    put(&frame_bytes(packet), trace)
}

fn put(bytes: &[u8], trace: &mut Vec<u8>) -> Result<(), Memory>
    ensures { OnOk result (trace.new.items ≡ trace.old.items ++ bytes.now) }
{
    match trace.extend_from_slice(bytes) {
        Ok(()) => Ok(()),
        Err(_) => Err(Memory),
    }
}
