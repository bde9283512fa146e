//! The key of an IP packet.
ghost use Rattle.std.specs.Prelude.{◌≡◌, ◌+◌, ◌≤◌, [], ◌∷◌, length};
ghost use Rattle.flow_keys.specs.Numbers.{big_32};
ghost use Rattle.flow_keys.specs.Frame.{has_ports, ports_behind, ipv4_ports, ipv4_key, ipv6_key, is_ipv4, is_ipv6};

use crate::FlowKey;
use crate::numbers::{big_16_at, big_32_at};

// RFC 9293, section 3.1, and RFC 768: both ports, where the protocol has them.
#[inline]
fn has_ports(protocol: u8) -> bool
    ensures { result ≡ has_ports protocol }
{
    protocol == 6 || protocol == 17
}

// Both ports behind a header, 0 for a protocol without ports, and None where they are missing.
#[inline]
fn ports_behind(packet: &[u8], protocol: u8, header_length: usize) -> Option<u32>
    requires { header_length ≤ 60 }
    ensures { result ≡ ports_behind packet.now protocol header_length }
{
    if !has_ports(protocol) {
        return Some(0);
    }
    if packet.len() < header_length + 4 {
        return None;
    }
    Some(big_32_at(packet, header_length))
}

// RFC 791, section 3.1: the ports of a first fragment, and 0 of a later one.
#[tactic(auto, unfolding(crate::specs::Frame::ipv4_ports))]
#[inline]
fn ipv4_ports(packet: &[u8]) -> Option<u32>
    requires { 20 ≤ length packet.now }
    ensures { result ≡ ipv4_ports packet.now }
{
    let fragment_offset = big_16_at(packet, 6) % 8192;
    if fragment_offset != 0 {
        return Some(0);
    }
    let header_length = 4 * usize::from(packet[0] % 16);
    ports_behind(packet, packet[9], header_length)
}

// RFC 791, section 3.1: the packet begins with a whole header of version 4.
#[inline]
fn is_ipv4(packet: &[u8]) -> bool
    ensures { result ≡ is_ipv4 packet.now }
{
    packet.len() >= 20 && packet[0] / 16 == 4 && packet[0] % 16 >= 5
}

/// The key of an IPv4 packet (RFC 791, section 3.1), None where it is none or its ports are missing.
#[tactic(auto, unfolding(crate::specs::Frame::ipv4_key))]
#[inline]
pub(crate) fn ipv4_key(packet: &[u8]) -> Option<FlowKey>
    ensures { result ≡ ipv4_key packet.now }
{
    if !is_ipv4(packet) {
        return None;
    }
    let ports = ipv4_ports(packet)?;
    let source = big_32_at(packet, 12);
    let destination = big_32_at(packet, 16);
    Some(FlowKey::ipv4(source, destination, ports, packet[9]))
}

// RFC 8200, section 3: the packet begins with a whole header of version 6.
#[inline]
fn is_ipv6(packet: &[u8]) -> bool
    ensures { result ≡ is_ipv6 packet.now }
{
    packet.len() >= 40 && packet[0] / 16 == 6
}

/// The key of an IPv6 packet (RFC 8200, section 3), None where it is none or its ports are missing.
#[tactic(auto, unfolding(crate::specs::Frame::ipv6_key))]
pub(crate) fn ipv6_key(packet: &[u8]) -> Option<FlowKey>
    ensures { result ≡ ipv6_key packet.now }
{
    if !is_ipv6(packet) {
        return None;
    }
    let protocol = packet[6];
    let ports = ports_behind(packet, protocol, 40)?;
    let source = address_at(packet, 8);
    let destination = address_at(packet, 24);
    Some(FlowKey::ipv6(source, destination, ports, protocol))
}

// An IPv6 address as four words.
fn address_at(packet: &[u8], at: usize) -> [u32; 4]
    requires { at + 16 ≤ length packet.now }
    ensures { result ≡ big_32 packet.now at ∷ big_32 packet.now (at + 4)
        ∷ big_32 packet.now (at + 8) ∷ big_32 packet.now (at + 12) ∷ [] }
{
    [
        big_32_at(packet, at),
        big_32_at(packet, at + 4),
        big_32_at(packet, at + 8),
        big_32_at(packet, at + 12),
    ]
}
