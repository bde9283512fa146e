//! The paths that keys take.
use crate::made::{SWITCH, file_of};
use flow_keys::FlowKey;
use std::process::Abort;
use std::test::Fail;
use topology::Topology;

const WIDE: &str = "{name='wide',from='10.0.0.0/8',to='0.0.0.0/0',load=5,via=['s0']}";

const NARROW: &str = "{name='narrow',from='10.0.0.0/16',to='10.1.0.0/16',load=5,via=['s0']}";

// 10.0.0.1 to 10.1.0.2, 10.9.0.1 to 10.1.0.2, 10.1.0.2 to 10.0.0.1, 11.0.0.1 to 10.1.0.2, and the
// first of these in IPv6.
const ENDS: [(u32, u32, u32); 5] = [
    (4, 0x0a00_0001, 0x0a01_0002),
    (4, 0x0a09_0001, 0x0a01_0002),
    (4, 0x0a01_0002, 0x0a00_0001),
    (4, 0x0b00_0001, 0x0a01_0002),
    (6, 0x0a00_0001, 0x0a01_0002),
];

fn route(rt: &impl Abort, topology: &Topology, ends: (u32, u32, u32)) -> Option<usize> {
    let (family, source, destination) = ends;
    let words = [family, source, 0, 0, 0, destination, 0, 0, 0, 0, 17];
    let key = FlowKey::from_words(words).expect(rt, "a valid key");
    topology.route(&key)
}

#[test]
fn the_first_path_that_takes_the_key(rt: HostRuntime) -> Result<(), Fail> {
    let cases = [
        (WIDE, NARROW, [Some(0), Some(0), Some(0), None, None]),
        (NARROW, WIDE, [Some(0), Some(1), Some(1), None, None]),
    ];
    for (first, second, routes) in cases {
        let paths = format!(in rt.alloc(); "{first},{second}")?;
        let file = file_of(rt.alloc(), SWITCH, paths.as_str())?;
        let topology = Topology::from_toml(rt.alloc(), file.as_bytes()).expect(&rt, "a topology");
        for (at, ends) in ENDS.iter().enumerate() {
            assert_eq!(rt; route(&rt, &topology, *ends), routes[at], "{first}");
        }
    }
    Ok(())
}
