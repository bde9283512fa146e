//! The bytes and the problem that the rows speak of.

use std::alloc::Global;
use std::process::Abort;
use topology::Topology;

/// A replay job of number 0 without items, for one row of 16 counters at level 0, a heap of one key, and seed 1.
pub(crate) const EMPTY_JOB: [u8; 26] = [
    0x55, 0x4d, 0x4a, 0x42, 1, 0, 0, 0, 0, 0, 0, 1, 16, 0, 1, 0, 1, 0, 0, 0, 0, 0, 0, 0, 0, 0,
];

/// The reply to it, version 2: no counter is told, and no key.
pub(crate) const EMPTY_REPLY: [u8; 32] = [
    0x55, 0x4d, 0x52, 0x50, 2, 0, 0, 0, 0, 0, 0, 1, 16, 0, 1, 0, 0, 0, 0, 0, 0, 0, 0, 0, 0, 0, 0,
    0, 0, 0, 0, 0,
];

// To serve both needs costs 5 + 4 + 4 at `a`, 12 at `b`, and 5 + 12 + 4 at the two.
const TWO_SWITCHES: &str = "switch = [
    {name='a',capacity=10,open=5,unit=1},
    {name='b',capacity=10,open=12,unit=0},
]
path = [
    {name='p0',from='10.0.0.0/16',to='10.1.0.0/16',load=4,via=['a','b']},
    {name='p1',from='10.2.0.0/16',to='10.3.0.0/16',load=4,via=['a','b']},
]
";

/// Two paths of load 4, each by one of two switches of capacity 10. It costs least to serve both by the second.
pub(crate) fn two_switches(rt: &impl Abort, alloc: Global) -> Topology {
    Topology::from_toml(alloc, TWO_SWITCHES.as_bytes()).expect(rt, "a topology")
}
