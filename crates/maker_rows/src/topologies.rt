//! The text of the topology.
use std::test::Fail;
use topology::Topology;
use trace_maker::topology_bytes;

const FIRST_LINES: &str = "[[switch]]
name = \"s0\"
capacity = 400
open = 100
unit = 1
[[switch]]
name = \"s1\"
";

const LAST_LINES: &str = "via = [\"s4\", \"s5\", \"s9\"]
[[path]]
name = \"p29\"
from = \"10.29.0.0/16\"
to = \"10.129.0.0/16\"
load = 59
via = [\"s5\", \"s6\", \"s10\"]
";

#[test]
fn the_topology_has_its_lines(rt: HostRuntime) -> Result<(), Fail> {
    let text = topology_bytes(rt.alloc())?;
    assert_eq!(rt; text.len(), 3_691);
    assert!(rt; text.as_slice().starts_with(FIRST_LINES.as_bytes()));
    assert!(rt; text.as_slice().ends_with(LAST_LINES.as_bytes()));
    Ok(())
}

#[test]
fn the_topology_is_read(rt: HostRuntime) -> Result<(), Fail> {
    let text = topology_bytes(rt.alloc())?;
    let topology = Topology::from_toml(rt.alloc(), text.as_slice())?;
    assert_eq!(rt; topology.switches(), 12);
    assert_eq!(rt; topology.paths(), 30);
    Ok(())
}
