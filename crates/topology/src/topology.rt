//! A topology, and how it is read.
ghost use Rattle.std.specs.Prelude.{◌≡◌, ◌≢◌, ◌<◌, ◌≤◌, [], None, Some, Ok, Err, IfOk, IfErr, IfSome, OnOk, false, is_none, length, map, string_bytes, slice_index_or};
ghost use Rattle.toml.specs.View.{view};
ghost use Rattle.topology.specs.Topology.{topology_of, topo_of, document_fault, document_of, root_of, route_of};

use crate::TopologyFault;
use crate::ends::{Ends, first_taking};
use crate::names::Names;
use crate::paths::read_paths;
use crate::switches::read_switches;
use bound_certificate::Problem;
use flow_keys::FlowKey;
use std::alloc::Global;
use std::marker::Model;
use toml::Value;

// The most bytes that a file can have.
const MOST_BYTES: usize = 1_048_576;

/// The switches and the paths of a network, by their numbers from 0 in file order.
#[derive(Drop)]
pub struct Topology {
    switch_names: Names,
    path_names: Names,
    ends: Vec<Ends>,
    problem: Problem,
}

impl Model for Topology {
    ghost use Rattle.topology.specs.Topology.{Topo, seen, HasEqualCounts};

    ghost Value = { Topo };

    ghost view = { λ topology. seen topology.switch_names topology.path_names topology.ends.items topology.problem };

    ghost invariant = { λ topology.
        HasEqualCounts (seen topology.switch_names topology.path_names topology.ends.items topology.problem) };
}

impl Topology {
    /// The topology that a TOML file spells: an array of tables `switch`, 1 to 32 with `name`,
    /// `capacity`, `open` and `unit`, and one `path`, 1 to 64 with `name`, `from`, `to`, `load` and
    /// `via`. Other keys are passed over.
    ///
    /// Else the first fault: `TooLong`; `NotToml`; what is wrong with the list `switch`; what is wrong
    /// with a switch, in file order, and in it with a field, in the order above; the same of the list
    /// `path` and the paths. `Memory` comes only where a growth was refused.
    #[tactic(auto, unfolding(crate::specs::Topology::topology_of, crate::specs::Topology::file_fault))]
    pub fn from_toml(alloc: Global, bytes: &[u8]) -> Result<Topology, TopologyFault>
        ensures topology { IfOk result (λ topology. topology_of bytes.now ≡ Ok topology) }
        ensures fault { IfErr result (λ fault. fault ≢ TopologyFault.Memory → topology_of bytes.now ≡ Err fault) }
    {
        if bytes.len() > MOST_BYTES {
            return Err(TopologyFault::TooLong);
        }
        let root = read_root(alloc, bytes)?;
        Self::of_root(alloc, &root)
    }

    // The topology of a document.
    #[tactic(auto, unfolding(crate::specs::Topology::topo_of, crate::specs::Topology::document_fault))]
    fn of_root(alloc: Global, root: &Value) -> Result<Topology, TopologyFault>
        ensures topology { IfOk result (λ topology. topology ≡ topo_of (view root.now)) }
        ensures right { OnOk result (document_fault (view root.now) ≡ None) }
        ensures fault { IfErr result (λ fault. fault ≢ TopologyFault.Memory
            → document_fault (view root.now) ≡ Some fault) }
    {
        let switches = read_switches(alloc, root)?;
        let paths = read_paths(alloc, root, &switches.names)?;
        Ok(Topology {
            switch_names: switches.names,
            path_names: paths.names,
            ends: paths.ends,
            problem: Problem::new(switches.sites, paths.needs),
        })
    }

    /// How many switches there are, 1 to 32. Takes no memory, as no call below does.
    pub fn switches(&self) -> usize
        ensures count { result ≡ length self.now.switch_names }
        ensures sites { result ≡ length self.now.problem.sites }
    {
        self.switch_names.len()
    }

    /// How many paths there are, 1 to 64.
    pub fn paths(&self) -> usize
        ensures count { result ≡ length self.now.path_names }
        ensures needs { result ≡ length self.now.problem.needs }
    {
        self.path_names.len()
    }

    /// The name of a switch.
    pub fn switch_name(&self, switch: usize) -> &str
        requires { switch < length self.now.switch_names }
        ensures name { result.now ≡ slice_index_or self.now.switch_names switch [] }
    {
        self.switch_names.get(switch)
    }

    /// The name of a path.
    pub fn path_name(&self, path: usize) -> &str
        requires { path < length self.now.path_names }
        ensures name { result.now ≡ slice_index_or self.now.path_names path [] }
    {
        self.path_names.get(path)
    }

    /// The problem to place each path on a switch of its via: switches are its sites and paths its
    /// needs, by their numbers.
    pub fn problem(&self) -> &Problem
        ensures problem { result.now ≡ self.now.problem }
    {
        &self.problem
    }

    /// The number of the first path whose `from` holds the key's source and whose `to` holds its
    /// destination, None where no path does.
    #[tactic(auto, unfolding(crate::specs::Topology::route_of))]
    pub fn route(&self, key: &FlowKey) -> Option<usize>
        ensures path { result ≡ route_of self.now key.now }
        ensures within { IfSome result (λ path. path < length self.now.path_names) }
    {
        first_taking(&self.ends, key)
    }
}

// The document that the bytes spell.
#[tactic(auto, unfolding(crate::specs::Topology::root_of))]
fn read_root(alloc: Global, bytes: &[u8]) -> Result<Value, TopologyFault>
    ensures root { IfOk result (λ root. view root ≡ root_of bytes.now) }
    ensures right { OnOk result (is_none (document_of bytes.now) ≡ false) }
    ensures none { IfErr result (λ fault. fault ≢ TopologyFault.Memory → document_of bytes.now ≡ None) }
    ensures fault { IfErr result (λ fault. fault ≢ TopologyFault.Memory → fault ≡ TopologyFault.NotToml) }
{
    match toml::table_from_slice(alloc, bytes) {
        Ok(table) => Ok(Value::Table(table)),
        Err(error) => {
            if error.is_memory() {
                Err(TopologyFault::Memory)
            } else {
                Err(TopologyFault::NotToml)
            }
        }
    }
}
