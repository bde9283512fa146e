//! The files that the rows speak of.
use std::alloc::{AllocError, Global};
use topology::{Topology, TopologyFault};

/// A switch and a path that are taken together.
pub(crate) const SWITCH: &str = "{name='s0',capacity=10,open=10,unit=1}";

pub(crate) const PATH: &str = "{name='p0',from='10.0.0.0/16',to='10.1.0.0/16',load=5,via=['s0']}";

/// A file with these elements in its two lists.
pub(crate) fn file_of(alloc: Global, switches: &str, paths: &str) -> Result<String, AllocError> {
    format!(in alloc; "switch = [{switches}]\npath = [{paths}]")
}

/// The fault of a file, None where it is taken.
pub(crate) fn fault_of(alloc: Global, file: &str) -> Option<TopologyFault> {
    Topology::from_toml(alloc, file.as_bytes()).err()
}
