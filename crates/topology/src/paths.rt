//! The paths of a file.
ghost use Rattle.std.specs.Prelude.{◌≡◌, ◌≢◌, ◌<◌, ◌≤◌, [], ◌∷◌, ◌++◌, None, Some, IfOk, IfErr, OnOk, All, map, length};
ghost use Rattle.bound_certificate.specs.Limits.{IsNeed};
ghost use Rattle.toml.specs.View.{view};
ghost use Rattle.topology.specs.Faults.{first_from};
ghost use Rattle.topology.specs.Paths.{ends_of, need_of, need_fault, path_fault, path_fault_in, paths_fault, paths_of};
ghost use Rattle.topology.specs.Switches.{name_of};

use crate::ends::{Ends, read_ends};
use crate::entry_name::number_name;
use crate::fields::number_at;
use crate::lists::entries_at;
use crate::names::Names;
use crate::place::Place;
use crate::via::read_via;
use crate::{Entry, TopologyFault, What};
use bound_certificate::Need;
use sqlite_items::Items;
use std::alloc::Global;
use toml::Value;

/// The paths by their numbers: their names, what they take, and what they ask of a placement.
#[derive(Drop)]
pub(crate) struct Paths {
    pub(crate) names: Names,
    pub(crate) ends: Vec<Ends>,
    pub(crate) needs: Vec<Need>,
}

/// Reads the list of the paths, which cross switches with these names.
#[tactic(auto, unfolding(crate::specs::Paths::paths_fault))]
pub(crate) fn read_paths(
    alloc: Global,
    root: &Value,
    switches: &Names,
) -> Result<Paths, TopologyFault>
    ensures names { IfOk result (λ paths. paths.names ≡ map name_of (paths_of (view root.now))) }
    ensures ends { IfOk result (λ paths. paths.ends.items ≡ map ends_of (paths_of (view root.now))) }
    ensures needs { IfOk result (λ paths. paths.needs.items ≡ map (need_of switches.now) (paths_of (view root.now))) }
    ensures some { IfOk result (λ paths. 1 ≤ length paths.needs.items) }
    ensures few { IfOk result (λ paths. length paths.needs.items ≤ 64) }
    ensures each { IfOk result (λ paths. All (IsNeed (length switches.now)) paths.needs.items) }
    ensures right { OnOk result (paths_fault switches.now (view root.now) ≡ None) }
    ensures fault { IfErr result (λ fault. fault ≢ TopologyFault.Memory
        → paths_fault switches.now (view root.now) ≡ Some fault) }
{
    let entries = entries_at(root, Entry::Path, 64)?;
    read_each(alloc, entries, switches)
}

// Reads each path.
fn read_each(alloc: Global, entries: &[Value], switches: &Names) -> Result<Paths, TopologyFault>
    requires few { length entries.now ≤ 64 }
    ensures names { IfOk result (λ paths. paths.names ≡ map name_of (map view entries.now)) }
    ensures ends { IfOk result (λ paths. paths.ends.items ≡ map ends_of (map view entries.now)) }
    ensures needs { IfOk result (λ paths. paths.needs.items ≡ map (need_of switches.now) (map view entries.now)) }
    ensures each { IfOk result (λ paths. All (IsNeed (length switches.now)) paths.needs.items) }
    ensures right { OnOk result
        (first_from (path_fault_in switches.now (map view entries.now)) 0 (length entries.now) ≡ None) }
    ensures fault { IfErr result (λ fault. fault ≢ TopologyFault.Memory
        → first_from (path_fault_in switches.now (map view entries.now)) 0 (length entries.now) ≡ Some fault) }
{
    let mut names = Names::new(alloc);
    let mut ends = Vec::new(alloc);
    let mut needs = Vec::new(alloc);
    for (index, entry) in entries.iter().enumerate() {
        let (end, need) = read_path(alloc, entry, index as u32, switches, &mut names)?;
        let Ok(()) = ends.push(end) else {
            return Err(TopologyFault::Memory);
        };
        let Ok(()) = needs.push(need) else {
            return Err(TopologyFault::Memory);
        };
    }
    Ok(Paths { names, ends, needs })
}

// Reads a path, and numbers its name next to the names of the paths before it.
#[tactic(auto, unfolding(crate::specs::Switches::name_of, crate::specs::Paths::path_fault))]
fn read_path(
    alloc: Global,
    entry: &Value,
    index: u32,
    switches: &Names,
    names: &mut Names,
) -> Result<(Ends, Need), TopologyFault>
    requires room { length names.old < 64 }
    ensures numbered { OnOk result (names.new ≡ names.old ++ (name_of (view entry.now) ∷ [])) }
    ensures ends { IfOk result (λ path. path.0 ≡ ends_of (view entry.now)) }
    ensures need { IfOk result (λ path. path.1 ≡ need_of switches.now (view entry.now)) }
    ensures within { IfOk result (λ path. IsNeed (length switches.now) path.1) }
    ensures right { OnOk result
        (path_fault switches.now names.old index (view entry.now) ≡ None) }
    ensures fault { IfErr result (λ fault. fault ≢ TopologyFault.Memory
        → path_fault switches.now names.old index (view entry.now) ≡ Some fault) }
{
    let place = Place {
        entry: Entry::Path,
        index,
        what: What::Name,
    };
    number_name(alloc, entry, place, names)?;
    let ends = read_ends(entry, index)?;
    let need = read_need(alloc, entry, index, switches)?;
    Ok((ends, need))
}

// The load and the via of a path.
#[tactic(auto, unfolding(crate::specs::Paths::need_of, crate::specs::Paths::need_fault))]
fn read_need(
    alloc: Global,
    entry: &Value,
    index: u32,
    switches: &Names,
) -> Result<Need, TopologyFault>
    ensures need { IfOk result (λ need. need ≡ need_of switches.now (view entry.now)) }
    ensures within { IfOk result (IsNeed (length switches.now)) }
    ensures right { OnOk result (need_fault switches.now index (view entry.now) ≡ None) }
    ensures fault { IfErr result (λ fault. fault ≢ TopologyFault.Memory
        → need_fault switches.now index (view entry.now) ≡ Some fault) }
{
    let place = Place {
        entry: Entry::Path,
        index,
        what: What::Load,
    };
    let load = number_at(entry, place, 1, 65535)?;
    let via = read_via(alloc, entry, index, switches)?;
    Ok(Need {
        load: load as u16,
        via: Items::from_vec(via),
    })
}
