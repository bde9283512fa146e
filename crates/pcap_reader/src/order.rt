//! Numbers in either byte order.
ghost use Rattle.std.specs.Prelude.{◌≡◌, ◌≤◌, ◌+◌, length};
ghost use Rattle.pcap_reader.specs.Numbers.{number_16, number_32, little_32};
ghost use Rattle.flow_keys.specs.Numbers.{big_32};

use byteorder::{BigEndian, ByteOrder, LittleEndian};

/// The byte order of a trace's numbers.
#[derive(Clone, Copy, Debug, PartialEq, Eq)]
pub(crate) enum Order {
    Little,
    Big,
}

impl Order {
    /// The number of 16 bits at a place.
    pub(crate) fn number_16(self, bytes: &[u8], at: usize) -> u16
        requires { at + 2 ≤ length bytes.now }
        ensures { result ≡ number_16 self bytes.now at }
    {
        match self {
            Order::Little => LittleEndian::read_u16(&bytes[at..]),
            Order::Big => BigEndian::read_u16(&bytes[at..]),
        }
    }

    /// The number of 32 bits at a place.
    #[inline]
    pub(crate) fn number_32(self, bytes: &[u8], at: usize) -> u32
        requires { at + 4 ≤ length bytes.now }
        ensures { result ≡ number_32 self bytes.now at }
    {
        match self {
            Order::Little => LittleEndian::read_u32(&bytes[at..]),
            Order::Big => BigEndian::read_u32(&bytes[at..]),
        }
    }
}
