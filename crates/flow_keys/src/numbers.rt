//! Big-endian numbers by their place in a packet.
ghost use Rattle.std.specs.Prelude.{◌≡◌, ◌+◌, ◌≤◌, length};
ghost use Rattle.flow_keys.specs.Numbers.{big_16, big_32};

#[inline]
pub(crate) fn big_16_at(bytes: &[u8], at: usize) -> u16
    requires { at + 2 ≤ length bytes.now }
    ensures { result ≡ big_16 bytes.now at }
{
    u16::from_be_bytes([bytes[at], bytes[at + 1]])
}

#[inline]
pub(crate) fn big_32_at(bytes: &[u8], at: usize) -> u32
    requires { at + 4 ≤ length bytes.now }
    ensures { result ≡ big_32 bytes.now at }
{
    u32::from_be_bytes([bytes[at], bytes[at + 1], bytes[at + 2], bytes[at + 3]])
}

// A byte past the end counts as 0.
#[inline]
pub(crate) fn big_16_or_less(bytes: &[u8], at: usize) -> u16
    requires { at ≤ 1000 }
    ensures { result ≡ big_16 bytes.now at }
{
    if at + 2 <= bytes.len() {
        big_16_at(bytes, at)
    } else if at < bytes.len() {
        256 * u16::from(bytes[at])
    } else {
        0
    }
}
