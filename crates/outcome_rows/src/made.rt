//! The topologies and the trees that the rows speak of.
use bound_certificate::{Placement, Tree};
use sqlite_items::Items;
use std::alloc::{AllocError, Global};
use std::process::Abort;
use topology::Topology;

const TWO_SWITCHES: &str = "switch = [
    {name='a',capacity=10,open=5,unit=1},
    {name='b',capacity=10,open=12,unit=0},
]
path = [
    {name='p0',from='10.0.0.0/16',to='10.1.0.0/16',load=4,via=['a','b']},
    {name='p1',from='10.2.0.0/16',to='10.3.0.0/16',load=4,via=['a','b']},
]
";

const ONE_SWITCH: &str = "switch = [{name='s0',capacity=8,open=0,unit=0}]
path = [
    {name='p0',from='10.0.0.0/16',to='10.1.0.0/16',load=5,via=['s0']},
    {name='p1',from='10.2.0.0/16',to='10.3.0.0/16',load=5,via=['s0']},
]
";

/// Two paths of load 4, each by one of two switches of capacity 10.
pub(crate) fn two_switches(rt: &impl Abort, alloc: Global) -> Topology {
    Topology::from_toml(alloc, TWO_SWITCHES.as_bytes()).expect(rt, "a topology")
}

/// Two paths of load 5 by one switch of capacity 8.
pub(crate) fn one_switch(rt: &impl Abort, alloc: Global) -> Topology {
    Topology::from_toml(alloc, ONE_SWITCH.as_bytes()).expect(rt, "a topology")
}

pub(crate) fn placement(alloc: Global, sites: &[u8]) -> Result<Placement, AllocError> {
    let sites = Items::from_slice(alloc, sites)?;
    Ok(Placement { sites })
}

pub(crate) fn dual(alloc: Global, lambda: &[u64], mu: &[u64]) -> Result<Tree, AllocError> {
    let lambda = Items::from_slice(alloc, lambda)?;
    let mu = Items::from_slice(alloc, mu)?;
    Ok(Tree::Dual { lambda, mu })
}

/// A Branch with two leaves, which prices the second path of `two_switches`.
pub(crate) fn priced(alloc: Global) -> Result<Tree, AllocError> {
    let mut children = Items::new(alloc);
    children.push(dual(alloc, &[4], &[0, 0])?)?;
    children.push(dual(alloc, &[0], &[0, 0])?)?;
    Ok(Tree::Branch(children))
}
