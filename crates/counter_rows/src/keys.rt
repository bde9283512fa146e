//! The keys of the rows.

// The IPv4 key 10.0.0.1 1000 10.1.0.2 53 17, and the IPv6 key 2001:db8::1 1000 2001:db8::2 53 17.
pub(crate) const V4: [u32; 11] = [
    4,
    0x0a00_0001,
    0,
    0,
    0,
    0x0a01_0002,
    0,
    0,
    0,
    65_536_053,
    17,
];

pub(crate) const V6: [u32; 11] = [
    6,
    0x2001_0db8,
    0,
    0,
    1,
    0x2001_0db8,
    0,
    0,
    2,
    65_536_053,
    17,
];
