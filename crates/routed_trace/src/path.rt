//! The path of a key.
ghost use Rattle.std.specs.Prelude.{◌≡◌};
ghost use Rattle.routed_trace.specs.Routed.{path_of};

use flow_keys::FlowKey;
use topology::Topology;

/// The number of the path that takes a key, None where none does; where there is no topology path 0 takes each.
#[inline]
pub(crate) fn path_of(topology: &Option<Topology>, key: &FlowKey) -> Option<u8>
    ensures path { result ≡ path_of topology.now key.now }
{
    match topology {
        Some(topology) => routed_by(topology, key),
        None => Some(0),
    }
}

// The number of the path that takes a key, by a topology.
#[inline]
fn routed_by(topology: &Topology, key: &FlowKey) -> Option<u8>
    ensures path { result ≡ path_of (Some topology.now) key.now }
{
    // There are as many paths as needs of a problem, of which there are at most 64.
    let (_paths, _needs) = (topology.paths(), topology.problem().needs());
    let path = topology.route(key)?;
    Some(path as u8)
}
