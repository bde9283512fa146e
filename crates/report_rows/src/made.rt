//! The topologies, the placements and the sketches that the rows speak of.
ghost use Rattle.std.specs.Prelude.{◌≡◌, ◌^◌, All, length};
ghost use Rattle.hash_family.specs.Setting.{setting_of};
ghost use Rattle.count_sketch.specs.Counters.{AllUpTo};
ghost use Rattle.sketch_merge.specs.Merged.{HaveUpTo};
ghost use Rattle.change_report.specs.Change.{key_limit};
ghost use Rattle.measure_report.specs.Run.{IsEpoch};

use bound_certificate::Placement;
use hash_family::Params;
use measure_report::{Counts, Run, write_report};
use sketch_merge::Merged;
use sqlite_items::Items;
use std::alloc::{AllocError, Global};
use std::process::Abort;
use topology::Topology;

const ONE_SWITCH: &str = "[[switch]]
name = 's0'
capacity = 10
open = 10
unit = 1
[[path]]
name = 'p0'
from = '10.0.0.0/16'
to = '10.1.0.0/16'
load = 5
via = ['s0']
";

const TWO_SWITCHES: &str = "switch = [
    {name='a',capacity=10,open=5,unit=1},
    {name='b',capacity=10,open=12,unit=0},
]
path = [
    {name='p0',from='10.0.0.0/16',to='10.1.0.0/16',load=4,via=['a','b']},
    {name='p1',from='10.2.0.0/16',to='10.3.0.0/16',load=4,via=['a','b']},
]
";

/// One path of load 5 by a switch of capacity 10, which costs 10 to open and 1 a unit.
pub(crate) fn one_switch(rt: &impl Abort, alloc: Global) -> Topology {
    Topology::from_toml(alloc, ONE_SWITCH.as_bytes()).expect(rt, "a topology")
}

/// Two paths of load 4, each by one of two switches of capacity 10.
pub(crate) fn two_switches(rt: &impl Abort, alloc: Global) -> Topology {
    Topology::from_toml(alloc, TWO_SWITCHES.as_bytes()).expect(rt, "a topology")
}

pub(crate) fn placement(alloc: Global, sites: &[u8]) -> Result<Placement, AllocError> {
    let sites = Items::from_slice(alloc, sites)?;
    Ok(Placement { sites })
}

/// A trace of no packets, of so many epochs.
pub(crate) fn no_packets(epochs: u8, bytes: bool) -> Counts
    ensures value { result.epochs ≡ epochs }
{
    Counts {
        packets: 0,
        keyed: 0,
        routed: 0,
        epoch_packets: [0; 8],
        epochs,
        bytes,
    }
}

/// The text of a run with so many epochs of no packets.
pub(crate) fn text_of(
    rt: &impl Abort,
    alloc: Global,
    run: &Run,
    params: Params,
    number: u8,
) -> String
    requires setting { run.now.setting ≡ setting_of params }
    requires number { run.now.counts.epochs ≡ number }
{
    let epochs = sketches(rt, alloc, params, number);
    write_report(alloc, run, &epochs).expect(rt, "ample memory")
}

// The sketches of so many epochs of no packets.
fn sketches(rt: &impl Abort, alloc: Global, params: Params, number: u8) -> Vec<Merged>
    ensures number { length result.items ≡ number }
    ensures setting { All (λ merged. merged.setting ≡ setting_of params) result.items }
    ensures small { All (λ merged. All (AllUpTo (2 ^ 44)) merged.counters) result.items }
    ensures few { All (λ merged. HaveUpTo key_limit merged.keys) result.items }
{
    let mut sketches = Vec::new(alloc);
    for _ in 0..number {
        let sketch = nothing(rt, alloc, params);
        sketches.push(sketch).expect(rt, "ample memory");
    }
    sketches
}

// The sketch of no packets.
fn nothing(rt: &impl Abort, alloc: Global, params: Params) -> Merged
    ensures epoch { IsEpoch (setting_of params) result }
{
    Merged::new(alloc, params).expect(rt, "ample memory")
}
