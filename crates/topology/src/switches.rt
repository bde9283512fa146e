//! The switches of a file.
ghost use Rattle.std.specs.Prelude.{◌≡◌, ◌≢◌, ◌<◌, ◌≤◌, [], ◌∷◌, ◌++◌, None, Some, IfOk, IfErr, OnOk, map, length};
ghost use Rattle.toml.specs.View.{view};
ghost use Rattle.topology.specs.Faults.{first_from};
ghost use Rattle.topology.specs.Fields.{number_fault};
ghost use Rattle.topology.specs.Switches.{name_of, site_of, switch_fault, switch_fault_in, switches_fault, switches_of};

use crate::entry_name::number_name;
use crate::fields::number_at;
use crate::lists::entries_at;
use crate::names::Names;
use crate::place::Place;
use crate::{Entry, TopologyFault, What};
use bound_certificate::Site;
use std::alloc::Global;
use toml::Value;

/// The switches by their numbers: their names and what a placement asks of them.
#[derive(Drop)]
pub(crate) struct Switches {
    pub(crate) names: Names,
    pub(crate) sites: Vec<Site>,
}

/// Reads the list of the switches.
#[tactic(auto, unfolding(crate::specs::Switches::switches_fault))]
pub(crate) fn read_switches(alloc: Global, root: &Value) -> Result<Switches, TopologyFault>
    ensures names { IfOk result (λ switches. switches.names ≡ map name_of (switches_of (view root.now))) }
    ensures sites { IfOk result (λ switches. switches.sites.items ≡ map site_of (switches_of (view root.now))) }
    ensures some { IfOk result (λ switches. 1 ≤ length switches.sites.items) }
    ensures few { IfOk result (λ switches. length switches.sites.items ≤ 32) }
    ensures right { OnOk result (switches_fault (view root.now) ≡ None) }
    ensures fault { IfErr result (λ fault. fault ≢ TopologyFault.Memory → switches_fault (view root.now) ≡ Some fault) }
{
    let entries = entries_at(root, Entry::Switch, 32)?;
    read_each(alloc, entries)
}

// Reads each switch.
fn read_each(alloc: Global, entries: &[Value]) -> Result<Switches, TopologyFault>
    requires { length entries.now ≤ 32 }
    ensures names { IfOk result (λ switches. switches.names ≡ map name_of (map view entries.now)) }
    ensures sites { IfOk result (λ switches. switches.sites.items ≡ map site_of (map view entries.now)) }
    ensures right { OnOk result (first_from (switch_fault_in (map view entries.now)) 0 (length entries.now) ≡ None) }
    ensures fault { IfErr result (λ fault. fault ≢ TopologyFault.Memory
        → first_from (switch_fault_in (map view entries.now)) 0 (length entries.now) ≡ Some fault) }
{
    let mut names = Names::new(alloc);
    let mut sites = Vec::new(alloc);
    for (index, entry) in entries.iter().enumerate() {
        let site = read_switch(alloc, entry, index as u32, &mut names)?;
        let Ok(()) = sites.push(site) else {
            return Err(TopologyFault::Memory);
        };
    }
    Ok(Switches { names, sites })
}

// Reads a switch, and numbers its name next to the names of the switches before it.
#[tactic(auto, unfolding(crate::specs::Switches::name_of, crate::specs::Switches::site_of, crate::specs::Switches::switch_fault))]
fn read_switch(
    alloc: Global,
    entry: &Value,
    index: u32,
    names: &mut Names,
) -> Result<Site, TopologyFault>
    requires room { length names.old < 64 }
    ensures numbered { OnOk result (names.new ≡ names.old ++ (name_of (view entry.now) ∷ [])) }
    ensures site { IfOk result (λ site. site ≡ site_of (view entry.now)) }
    ensures right { OnOk result (switch_fault names.old index (view entry.now) ≡ None) }
    ensures fault { IfErr result (λ fault. fault ≢ TopologyFault.Memory
        → switch_fault names.old index (view entry.now) ≡ Some fault) }
{
    let place = Place {
        entry: Entry::Switch,
        index,
        what: What::Name,
    };
    number_name(alloc, entry, place, names)?;
    let capacity = number_at(entry, place.to(What::Capacity), 0, u32::MAX)?;
    let opening = number_at(entry, place.to(What::Opening), 0, u32::MAX)?;
    let unit = number_at(entry, place.to(What::Unit), 0, 65535)?;
    Ok(Site {
        capacity,
        opening,
        unit: unit as u16,
    })
}
