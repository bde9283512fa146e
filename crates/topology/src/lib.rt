//! Topologies: the switches and the paths of a network, read from a TOML file, and the path that a flow key takes.
//!
//! - `topology`: `Topology`, how it is read and what it tells
//! - `fault`: `TopologyFault`, why a file is refused
//! - `place`: where a value stands in a file, and the faults that tell the place
//! - `fields`, `lists`, `entry_name`: texts and numbers by their keys, the lists of entries, the names of entries
//! - `names`: `Names`, which are numbered
//! - `switches`, `paths`: the two lists
//! - `ends`, `via`: the two prefixes of a path, and the switches that it crosses
//! - `laws`: what holds of every file
//!
//! `specs/Topology.antt` says what a file spells, by its TOML document: each test gives a fault or none, the first
//! fault in the order of the tests is the answer, and where no test gives one, each value is read by its key. The
//! tests of a field are in `specs/Fields.antt`, `specs/Names.antt` and `specs/Via.antt`, those of an entry in
//! `specs/Switches.antt` and `specs/Paths.antt`. Only `Topology::from_toml` takes memory.
#![tactic(auto)]

mod ends;
mod entry_name;
mod fault;
mod fields;
mod laws;
mod lists;
mod names;
mod paths;
mod place;
mod switches;
mod topology;
mod via;

pub use fault::{Entry, TopologyFault, What};
pub use laws::accepted_files;
pub use topology::Topology;
