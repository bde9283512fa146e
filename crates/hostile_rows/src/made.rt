//! The topologies and the trace that the rows speak of, and calls over them.
ghost use Rattle.std.specs.Prelude.{◌≡◌, ◌^◌, ◌<◌, ℕ, false};

use crew::Spawner;
use mon_command::{Status, run};
use mon_io::{NeverInputs, NeverSink};
use std::alloc::{AllocError, Global};
use std::test::Fail;

/// One path of load 5 by one switch of capacity 10, which costs 10 + 5.
pub(crate) const ONE_SWITCH: &str = "[[switch]]
name = \"s0\"
capacity = 10
open = 10
unit = 1
[[path]]
name = \"p0\"
from = \"10.0.0.0/16\"
to = \"10.1.0.0/16\"
load = 5
via = [\"s0\"]
";

/// The same with a second switch, which no path goes by.
pub(crate) const IDLE_SWITCH: &str = "switch = [
    {name='s0',capacity=10,open=10,unit=1},
    {name='s1',capacity=10,open=10,unit=1},
]
path = [{name='p0',from='10.0.0.0/16',to='10.1.0.0/16',load=5,via=['s0']}]
";

/// The measure of three packets of one key.
pub(crate) const THREE_PACKETS: &str = "univmon measure 1
packets 3 keyed 3 routed 3
sketch seed 1 levels 12 rows 5 width 1024 heap 64 weight packets
placement optimal cost 15 bound 15
path p0 s0
switch s0 load 5 capacity 10
epoch 0 packets 3 weight 3 heaps kept
cardinality 1
total 3
heavy 10.0.0.1 1000 10.1.0.2 53 17 weight 3
end
";

// The header of a trace.
const HEADER: [u8; 24] = [
    0xd4, 0xc3, 0xb2, 0xa1, 2, 0, 4, 0, 0, 0, 0, 0, 0, 0, 0, 0, 0xff, 0xff, 0, 0, 1, 0, 0, 0,
];

// The head of a record of 42 bytes at second 100.
const HEAD: [u8; 16] = [100, 0, 0, 0, 0, 0, 0, 0, 42, 0, 0, 0, 42, 0, 0, 0];

// Ethernet, IPv4, UDP: a packet of the key `10.0.0.1 1000 10.1.0.2 53 17`.
const FRAME: [u8; 42] = [
    2, 0, 0, 0, 0, 2, 2, 0, 0, 0, 0, 1, 8, 0, 0x45, 0, 0, 0x1c, 0, 0, 0, 0, 0x40, 0x11, 0, 0, 10,
    0, 0, 1, 10, 1, 0, 2, 3, 0xe8, 0, 0x35, 0, 8, 0, 0,
];

/// The trace of three packets of one key.
pub(crate) fn three_packets(alloc: Global) -> Result<Vec<u8>, AllocError> {
    let mut bytes = HEADER.to_vec(alloc)?;
    for _ in 0..3 {
        bytes.extend_from_slice(&HEAD)?;
        bytes.extend_from_slice(&FRAME)?;
    }
    Ok(bytes)
}

/// The words of a line, which spaces divide.
pub(crate) fn words_of(alloc: Global, line: &str) -> Result<Vec<String>, AllocError> {
    let mut words = Vec::new(alloc);
    for word in line.split_whitespace() {
        words.push(String::from_str(alloc, word)?)?;
    }
    Ok(words)
}

/// Files with this topology as `T` and this trace as `A`.
pub(crate) fn files_of(
    alloc: Global,
    topology: &str,
    trace: &[u8],
) -> Result<Vec<(String, Vec<u8>)>, AllocError> {
    let mut files = Vec::new(alloc);
    let bytes = topology.as_bytes().to_vec(alloc)?;
    files.push((String::from_str(alloc, "T")?, bytes))?;
    files.push((String::from_str(alloc, "A")?, trace.to_vec(alloc)?))?;
    Ok(files)
}

/// How the command of a line ends over these files and a crew of which no ticket is out, and what it wrote.
pub(crate) fn run_over<S: Spawner>(
    alloc: Global,
    line: &str,
    topology: &str,
    trace: &[u8],
    crew: &mut S,
) -> Result<(Status, NeverSink), Fail>
    requires few { (S.state crew.old).issued < 2 ^ 30 }
    requires none_out { (ticket : ℕ) → (S.state crew.old).is_out ticket ≡ false }
{
    let words = words_of(alloc, line)?;
    let mut inputs = NeverInputs::new(files_of(alloc, topology, trace)?);
    let mut sink = NeverSink::new(alloc, 4096)?;
    let status = run(alloc, &words, &mut inputs, crew, &mut sink);
    Ok((status, sink))
}
