//! The header of a trace.
ghost use Rattle.std.specs.Prelude.{◌≡◌, ◌≤◌, ◌%◌, length};
ghost use Rattle.pcap_reader.specs.Header.{header_in, is_magic, order_of, link_of};

use crate::PcapFault;
use crate::order::Order;
use flow_keys::Link;

/// The length of a trace's header, in bytes.
pub(crate) const HEADER_LENGTH: usize = 24;

/// What a header says of the records behind it.
#[derive(Clone, Copy, Debug, PartialEq, Eq)]
pub(crate) struct Header {
    pub(crate) order: Order,
    pub(crate) link: Link,
}

/// What the bytes of a header say, or the first fault.
#[tactic(auto, unfolding(crate::specs::Header::header_in))]
pub(crate) fn read_header(bytes: &[u8]) -> Result<Header, PcapFault>
    ensures { result ≡ header_in bytes.now }
{
    if bytes.len() < HEADER_LENGTH {
        let at = bytes.len() as u64;
        return Err(PcapFault::ShortHeader { at });
    }
    let Some(order) = read_order(bytes) else {
        let magic = Order::Little.number_32(bytes, 0);
        return Err(PcapFault::NotClassic { magic });
    };
    let major = order.number_16(bytes, 4);
    let minor = order.number_16(bytes, 6);
    if major != 2 || minor != 4 {
        return Err(PcapFault::Version { major, minor });
    }
    let number = low_16(order.number_32(bytes, 20));
    match read_link(number) {
        Some(link) => Ok(Header { order, link }),
        None => Err(PcapFault::Link { number }),
    }
}

fn low_16(number: u32) -> u16
    ensures { result ≡ number % 65536 }
{
    (number % 65536) as u16
}

// The byte order that the magic number tells.
#[tactic(auto, unfolding(crate::specs::Header::order_of))]
fn read_order(bytes: &[u8]) -> Option<Order>
    requires { 4 ≤ length bytes.now }
    ensures { result ≡ order_of bytes.now }
{
    if is_magic(Order::Little.number_32(bytes, 0)) {
        Some(Order::Little)
    } else if is_magic(Order::Big.number_32(bytes, 0)) {
        Some(Order::Big)
    } else {
        None
    }
}

fn is_magic(number: u32) -> bool
    ensures { result ≡ is_magic number }
{
    number == 0xa1b2_c3d4 || number == 0xa1b2_3c4d
}

// The link with this number.
#[tactic(auto, unfolding(crate::specs::Header::link_of))]
fn read_link(number: u16) -> Option<Link>
    ensures { result ≡ link_of number }
{
    match number {
        1 => Some(Link::Ethernet),
        101 => Some(Link::Raw),
        113 => Some(Link::Cooked1),
        276 => Some(Link::Cooked2),
        _ => None,
    }
}
