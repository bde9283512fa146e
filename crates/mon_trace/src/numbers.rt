//! The numbers of a trace as a report says them.
ghost use Rattle.std.specs.Prelude.{◌≡◌, ◌<◌, ◌≤◌, ℕ, All, length, slice_index};
ghost use Rattle.routed_trace.specs.Routed.{items_in};

use crate::RoutedTrace;
use flow_keys::Routed;
use measure_report::Counts;

/// The numbers of a trace as a report says them, and whether a packet counts its bytes, or one. The trace has at most
/// 1,048,576 routed packets, in at most eight epochs. It takes no memory.
pub fn counts_of(read: &RoutedTrace, bytes: bool) -> Counts
    requires few { length read.now.routed.items ≤ 1048576 }
    requires epochs { read.now.counts.epochs ≤ 8 }
    requires within { All (λ packet. packet.epoch < 8) read.now.routed.items }
    ensures packets { result.packets ≡ read.now.counts.packets }
    ensures keyed { result.keyed ≡ read.now.counts.keyed }
    ensures routed { result.routed ≡ read.now.counts.routed }
    ensures epochs { result.epochs ≡ read.now.counts.epochs }
    ensures bytes { result.bytes ≡ bytes }
    ensures each { (epoch : ℕ) → epoch < 8 →
        slice_index result.epoch_packets epoch ≡ length (items_in epoch read.now.routed.items) }
{
    Counts {
        packets: read.counts.packets,
        keyed: read.counts.keyed,
        routed: read.counts.routed,
        epoch_packets: epoch_packets(&read.routed),
        epochs: read.counts.epochs as u8,
        bytes,
    }
}

// How many of the packets each of the eight epochs has.
fn epoch_packets(packets: &[Routed]) -> [u32; 8]
    requires few { length packets.now ≤ 1048576 }
    requires within { All (λ packet. packet.epoch < 8) packets.now }
    ensures { (epoch : ℕ) → epoch < 8 → slice_index result epoch ≡ length (items_in epoch packets.now) }
{
    let mut numbers = [0; 8];
    for packet in packets {
        numbers[usize::from(packet.epoch)] += 1;
    }
    numbers
}
