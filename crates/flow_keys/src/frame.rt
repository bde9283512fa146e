//! The key of a captured frame.
ghost use Rattle.std.specs.Prelude.{◌≡◌, ◌+◌, ◌≤◌, ◌<◌, length, drop, option_and_then};
ghost use Rattle.flow_keys.specs.Numbers.{big_16};
ghost use Rattle.flow_keys.specs.Frame.{network_key, network_of_type, is_tag, type_place, network_behind, ethernet_network, raw_network, network_of, frame_key};

use crate::numbers::{big_16_at, big_16_or_less};
use crate::packet::{ipv4_key, ipv6_key};
use crate::{FlowKey, Link};

/// The key of a frame, None exactly where it has none: where it is no IPv4 (RFC 791, section 3.1) or
/// IPv6 packet (RFC 8200, section 3), lacks a byte of a header, or lacks the ports of TCP (RFC 9293)
/// or UDP (RFC 768). An Ethernet frame has at most two tags (IEEE 802.1Q). It takes no memory.
#[tactic(auto, unfolding(crate::specs::Frame::frame_key, crate::specs::Frame::network_of))]
#[inline]
pub fn key_of(link: Link, bytes: &[u8]) -> Option<FlowKey>
    ensures key { result ≡ frame_key link bytes.now }
{
    match link {
        Link::Ethernet => ethernet_key(bytes),
        Link::Raw => raw_key(bytes),
        Link::Cooked1 => key_behind(bytes, 14, 16),
        Link::Cooked2 => key_behind(bytes, 0, 20),
    }
}

// IEEE 802.3: the header follows the type.
#[tactic(auto, unfolding(crate::specs::Frame::ethernet_network))]
#[inline]
fn ethernet_key(frame: &[u8]) -> Option<FlowKey>
    ensures { result ≡ option_and_then network_key (ethernet_network frame.now) }
{
    let type_at = type_place(frame);
    key_behind(frame, type_at, type_at + 2)
}

// IEEE 802.1Q: the place of the type, past at most two tags.
#[tactic(auto, unfolding(crate::specs::Frame::type_place))]
#[inline]
fn type_place(frame: &[u8]) -> usize
    ensures place { result ≡ type_place frame.now }
    ensures bound { result ≤ 20 }
{
    if !is_tag(big_16_or_less(frame, 12)) {
        return 12;
    }
    let second = is_tag(big_16_or_less(frame, 16));
    if second { 20 } else { 16 }
}

#[inline]
fn is_tag(number: u16) -> bool
    ensures { result ≡ is_tag number }
{
    number == 0x8100 || number == 0x88a8
}

// The key behind a type field, whose header follows at another place.
#[inline]
fn key_behind(frame: &[u8], type_at: usize, header_at: usize) -> Option<FlowKey>
    requires { type_at + 2 ≤ header_at }
    ensures { result ≡ option_and_then network_key (network_behind frame.now type_at header_at) }
{
    if frame.len() < header_at {
        return None;
    }
    key_of_type(big_16_at(frame, type_at), &frame[header_at..])
}

// The key of a packet by its type number.
#[tactic(auto, unfolding(crate::specs::Frame::network_of_type))]
#[inline]
fn key_of_type(number: u16, packet: &[u8]) -> Option<FlowKey>
    ensures { result ≡ option_and_then network_key (network_of_type number packet.now) }
{
    match number {
        0x0800 => ipv4_key(packet),
        0x86dd => ipv6_key(packet),
        _ => None,
    }
}

// Raw IP: the version is the high four bits of the first byte.
#[tactic(auto, unfolding(crate::specs::Frame::raw_network))]
fn raw_key(packet: &[u8]) -> Option<FlowKey>
    ensures { result ≡ option_and_then network_key (raw_network packet.now) }
{
    if packet.is_empty() {
        return None;
    }
    match packet[0] / 16 {
        4 => ipv4_key(packet),
        6 => ipv6_key(packet),
        _ => None,
    }
}
