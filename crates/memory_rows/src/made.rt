//! The files that the rows speak of, and their texts.

/// One path by the first of two switches, which costs 10 + 5.
pub(crate) const TOPOLOGY: &str = "switch = [
    {name='s0',capacity=10,open=10,unit=1},
    {name='s1',capacity=10,open=10,unit=1},
]
path = [{name='p0',from='10.0.0.0/16',to='10.1.0.0/16',load=5,via=['s0']}]
";

/// A trace of three packets of the key `10.0.0.1 1000 10.1.0.2 53 17`.
pub(crate) const TRACE: [u8; 198] = [
    212, 195, 178, 161, 2, 0, 4, 0, 0, 0, 0, 0, 0, 0, 0, 0, 255, 255, 0, 0, 1, 0, 0, 0, 100, 0, 0,
    0, 0, 0, 0, 0, 42, 0, 0, 0, 42, 0, 0, 0, 2, 0, 0, 0, 0, 2, 2, 0, 0, 0, 0, 1, 8, 0, 69, 0, 0,
    28, 0, 0, 0, 0, 64, 17, 0, 0, 10, 0, 0, 1, 10, 1, 0, 2, 3, 232, 0, 53, 0, 8, 0, 0, 100, 0, 0,
    0, 0, 0, 0, 0, 42, 0, 0, 0, 42, 0, 0, 0, 2, 0, 0, 0, 0, 2, 2, 0, 0, 0, 0, 1, 8, 0, 69, 0, 0,
    28, 0, 0, 0, 0, 64, 17, 0, 0, 10, 0, 0, 1, 10, 1, 0, 2, 3, 232, 0, 53, 0, 8, 0, 0, 100, 0, 0,
    0, 0, 0, 0, 0, 42, 0, 0, 0, 42, 0, 0, 0, 2, 0, 0, 0, 0, 2, 2, 0, 0, 0, 0, 1, 8, 0, 69, 0, 0,
    28, 0, 0, 0, 0, 64, 17, 0, 0, 10, 0, 0, 1, 10, 1, 0, 2, 3, 232, 0, 53, 0, 8, 0, 0,
];

/// Two paths of load 5 by one switch of capacity 8.
pub(crate) const CROWDED: &str = "switch = [{name='s0',capacity=8,open=0,unit=0}]
path = [
    {name='p0',from='10.0.0.0/16',to='10.1.0.0/16',load=5,via=['s0']},
    {name='p1',from='10.2.0.0/16',to='10.3.0.0/16',load=5,via=['s0']},
]
";

/// A tree which shows that no placement fits `CROWDED`.
pub(crate) const TREE: &str = "univmon tree 1\nhall 2 0 1\nend\n";

/// Job 0, a search of 1,024 nodes in `CROWDED`, and its reply with that tree.
pub(crate) const SEARCH: [u8; 32] = [
    0x55, 0x4d, 0x4a, 0x42, 1, 1, 0, 0, 0, 0, 0, 4, 1, 8, 0, 0, 0, 0, 0, 0, 0, 0, 0, 2, 5, 0, 1, 0,
    5, 0, 1, 0,
];

pub(crate) const SEARCH_REPLY: [u8; 15] = [0x55, 0x4d, 0x52, 0x50, 2, 1, 0, 0, 0, 0, 1, 2, 2, 0, 1];

/// A replay job of number 0 without items, for one row of 16 counters at level 0, a heap of one key, and seed 1; and
/// its reply.
pub(crate) const REPLAY: [u8; 26] = [
    0x55, 0x4d, 0x4a, 0x42, 1, 0, 0, 0, 0, 0, 0, 1, 16, 0, 1, 0, 1, 0, 0, 0, 0, 0, 0, 0, 0, 0,
];

pub(crate) const REPLAY_REPLY: [u8; 32] = [
    0x55, 0x4d, 0x52, 0x50, 2, 0, 0, 0, 0, 0, 0, 1, 16, 0, 1, 0, 0, 0, 0, 0, 0, 0, 0, 0, 0, 0, 0,
    0, 0, 0, 0, 0,
];
