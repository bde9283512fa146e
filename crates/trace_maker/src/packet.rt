//! The packets of a trace.
ghost use Rattle.std.specs.Prelude.{◌≡◌, ◌≤◌, ◌<◌, ◌+◌, ◌*◌, ◌/◌, ◌%◌, ℕ};
ghost use Rattle.trace_maker.specs.Stream.{stream_at};
ghost use Rattle.trace_maker.specs.Trace.{frame_bytes, head_bytes};
ghost use Rattle.trace_maker.specs.Packet.{DrawsOne};

use rand_chacha::ChaCha20Rng;
use rand_core::utils::NextWord;

/// What is drawn for a packet: the flow to which it belongs, and its original length in bytes.
#[derive(Clone, Copy)]
pub(crate) struct Packet {
    pub flow: u16,
    pub original: u16,
}

/// The packet that the next two words give, of so many flows, 1 to 65,536.
#[tactic(auto, unfolding(crate::specs::Stream::word, crate::specs::Stream::stream_at, crate::specs::Trace::flow_of, crate::specs::Trace::original_of))]
pub(crate) fn draw(stream: &mut ChaCha20Rng, flows: u32) -> Packet
    requires some { 1 ≤ flows }
    requires flows { flows ≤ 65536 }
    ensures drawn { (seed n : ℕ) → n < 1048576 → stream.old ≡ stream_at seed (2 * n)
        → DrawsOne seed flows n result stream.new }
    ensures least { 64 ≤ result.original }
{
    let first = stream.next_word();
    let second = stream.next_word();
    Packet {
        flow: flow_of(first, second, flows),
        original: (64 + second % 1437) as u16,
    }
}

// The flow that two words give.
fn flow_of(first: u32, second: u32, flows: u32) -> u16
    requires some { 1 ≤ flows }
    requires flows { flows ≤ 65536 }
    ensures { result ≡ (first % flows) * (second % flows) / flows }
{
    ((first % flows) * (second % flows) / flows) as u16
}

/// The head of a record: when its packet came, and its lengths.
#[tactic(auto, unfolding(crate::specs::Trace::head_bytes))]
pub(crate) fn head_bytes(number: u32, original: u16) -> [u8; 16]
    ensures { result ≡ head_bytes number original }
{
    let [a, b, c, d] = (1_600_000_000 + number / 50_000).to_le_bytes();
    let [e, f, g, h] = (number % 50_000 * 20).to_le_bytes();
    let [i, j] = original.to_le_bytes();
    [a, b, c, d, e, f, g, h, 42, 0, 0, 0, i, j, 0, 0]
}

/// The captured bytes of a packet: its Ethernet and IPv4 headers, its ports, and four zero bytes.
#[tactic(auto, unfolding(crate::specs::Trace::frame_bytes))]
pub(crate) fn frame_bytes(packet: Packet) -> [u8; 42]
    requires { 14 ≤ packet.original }
    ensures { result ≡ frame_bytes packet.flow packet.original }
{
    let flow = packet.flow;
    let [a, b] = (packet.original - 14).to_be_bytes();
    let [c, d] = (1_024 + flow % 50_000).to_be_bytes();
    let protocol = if flow % 2 == 1 { 6 } else { 17 };
    let network = (flow % 30) as u8;
    let far = 100 + network;
    let host = flow / 30;
    let (x, y) = ((host / 256) as u8, (host % 256) as u8);
    [
        2, 0, 0, 0, 0, 2, 2, 0, 0, 0, 0, 1, 8, 0, 0x45, 0, a, b, 0, 0, 0, 0, 0x40, protocol, 0, 0,
        10, network, x, y, 10, far, 0, 1, c, d, 1, 0xbb, 0, 0, 0, 0,
    ]
}
