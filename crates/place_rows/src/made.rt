//! The topologies that the rows speak of, and calls over them.
ghost use Rattle.std.specs.Prelude.{◌≡◌, ◌^◌, ◌<◌, ℕ, false};

use crew::Spawner;
use mon_command::{Status, run};
use mon_io::{MemInputs, MemSink};
use std::alloc::{AllocError, Global};

/// Two paths of load 5 by one switch of capacity 8.
pub(crate) const CROWDED: &str = "switch = [{name='s0',capacity=8,open=0,unit=0}]
path = [
    {name='p0',from='10.0.0.0/16',to='10.1.0.0/16',load=5,via=['s0']},
    {name='p1',from='10.2.0.0/16',to='10.3.0.0/16',load=5,via=['s0']},
]
";

/// Three paths of load 3, each by one of two switches of capacity 5: there is room for the sum of the loads, and no
/// switch carries two.
pub(crate) const COARSE: &str = "switch = [
    {name='s0',capacity=5,open=0,unit=0},
    {name='s1',capacity=5,open=0,unit=0},
]
path = [
    {name='p0',from='10.0.0.0/16',to='10.1.0.0/16',load=3,via=['s0','s1']},
    {name='p1',from='10.2.0.0/16',to='10.3.0.0/16',load=3,via=['s0','s1']},
    {name='p2',from='10.4.0.0/16',to='10.5.0.0/16',load=3,via=['s0','s1']},
]
";

/// Two paths of load 4, each by one of two switches of capacity 10: both cost 5 + 4 + 4 at `a`, 12 at `b`, and
/// 5 + 12 + 4 at the two.
pub(crate) const PRICED: &str = "switch = [
    {name='a',capacity=10,open=5,unit=1},
    {name='b',capacity=10,open=12,unit=0},
]
path = [
    {name='p0',from='10.0.0.0/16',to='10.1.0.0/16',load=4,via=['a','b']},
    {name='p1',from='10.2.0.0/16',to='10.3.0.0/16',load=4,via=['a','b']},
]
";

/// The words of a line, which spaces divide.
pub(crate) fn words_of(alloc: Global, line: &str) -> Result<Vec<String>, AllocError> {
    let mut words = Vec::new(alloc);
    for word in line.split_whitespace() {
        words.push(String::from_str(alloc, word)?)?;
    }
    Ok(words)
}

/// Inputs with these files, of which the calls with these numbers fail.
pub(crate) fn inputs_of(
    alloc: Global,
    files: &[(&str, &[u8])],
    fails: &[u32],
) -> Result<MemInputs, AllocError> {
    let mut shelf = Vec::new(alloc);
    for (name, bytes) in files {
        shelf.push((String::from_str(alloc, name)?, bytes.to_vec(alloc)?))?;
    }
    Ok(MemInputs::new(shelf, fails.to_vec(alloc)?))
}

/// Runs the command of a line over a file `T` with this topology, and a crew of which no ticket is out.
pub(crate) fn run_over<S: Spawner>(
    alloc: Global,
    line: &str,
    topology: &str,
    crew: &mut S,
    sink: &mut MemSink,
) -> Result<Status, AllocError>
    requires few { (S.state crew.old).issued < 2 ^ 30 }
    requires none_out { (ticket : ℕ) → (S.state crew.old).is_out ticket ≡ false }
{
    let words = words_of(alloc, line)?;
    let mut inputs = inputs_of(alloc, &[("T", topology.as_bytes())], &[])?;
    Ok(run(alloc, &words, &mut inputs, crew, sink))
}

/// Whether a text has a line.
pub(crate) fn has_line(text: &[u8], line: &str) -> bool {
    text.split(|byte| *byte == b'\n')
        .any(|other| other == line.as_bytes())
}
