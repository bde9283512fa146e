//! The lines of a placement.
ghost use Rattle.std.specs.Prelude.{◌≡◌, ◌≤◌, ◌<◌, ◌++◌, IfOk, IsTrue, length, slice_index, string_bytes};
ghost use Rattle.bound_certificate.specs.Placement.{fits};
ghost use Rattle.bound_certificate.specs.Problem.{need_count, site_count};
ghost use Rattle.outcome_report.specs.Outcome.{path_line, path_lines, switch_line, switch_lines, switch_name};

use crate::loads::given_load;
use bound_certificate::Placement;
use mon_io::Memory;
use std::alloc::{AllocError, Global};
use topology::Topology;

/// A line for each path, with the switch to which it is given, and then one for each switch, with the sum of the loads
/// given to it and its capacity, both in file order. The placement fits the topology's problem. Takes memory for the
/// text.
pub fn placement_lines(
    alloc: Global,
    topology: &Topology,
    placement: &Placement,
) -> Result<String, Memory>
    requires { IsTrue (fits topology.now.problem placement.now.sites) }
    ensures text { IfOk result (λ text. string_bytes text
        ≡ path_lines topology.now placement.now.sites ++ switch_lines topology.now placement.now.sites) }
{
    match lines(alloc, topology, placement.sites.as_slice()) {
        Ok(text) => Ok(text),
        Err(_) => Err(Memory),
    }
}

// The same of the numbers of a placement.
pub(crate) fn lines(alloc: Global, topology: &Topology, sites: &[u8]) -> Result<String, AllocError>
    requires { IsTrue (fits topology.now.problem sites.now) }
    ensures text { IfOk result (λ text.
        string_bytes text ≡ path_lines topology.now sites.now ++ switch_lines topology.now sites.now) }
{
    let paths = paths_text(alloc, topology, sites)?;
    let switches = switches_text(alloc, topology, sites)?;
    format!(in alloc; "{paths}{switches}")
}

// The lines of the paths.
#[tactic(auto, using(crate::proofs::Ranges::one_more_piece))]
fn paths_text(alloc: Global, topology: &Topology, sites: &[u8]) -> Result<String, AllocError>
    requires { IsTrue (fits topology.now.problem sites.now) }
    ensures text { IfOk result (λ text. string_bytes text ≡ path_lines topology.now sites.now) }
{
    // The problem's sites are within their limits, so that each via names one of them.
    let _sites = topology.problem().sites();
    let mut text = String::new(alloc);
    for path in 0..topology.paths() {
        let line = path_text(alloc, topology, sites, path)?;
        text.push_str(&line)?;
    }
    Ok(text)
}

#[tactic(auto, unfolding(crate::specs::Outcome::path_line))]
fn path_text(
    alloc: Global,
    topology: &Topology,
    sites: &[u8],
    path: usize,
) -> Result<String, AllocError>
    requires path { path < length topology.now.path_names }
    requires placed { path < length sites.now }
    requires switch { slice_index sites.now path < site_count topology.now.problem }
    ensures text { IfOk result (λ text. string_bytes text ≡ path_line topology.now sites.now path) }
{
    let name = topology.path_name(path);
    let switch = switch_name(topology, sites[path]);
    format!(in alloc; "path {name} {switch}\n")
}

// The lines of the switches.
#[tactic(auto, using(crate::proofs::Ranges::one_more_piece))]
fn switches_text(alloc: Global, topology: &Topology, sites: &[u8]) -> Result<String, AllocError>
    requires { length sites.now ≤ need_count topology.now.problem }
    ensures text { IfOk result (λ text. string_bytes text ≡ switch_lines topology.now sites.now) }
{
    let mut text = String::new(alloc);
    for switch in 0..topology.problem().site_count() {
        let line = switch_text(alloc, topology, sites, switch)?;
        text.push_str(&line)?;
    }
    Ok(text)
}

#[tactic(auto, unfolding(crate::specs::Outcome::switch_line))]
fn switch_text(
    alloc: Global,
    topology: &Topology,
    sites: &[u8],
    switch: u8,
) -> Result<String, AllocError>
    requires switch { switch < site_count topology.now.problem }
    requires few { length sites.now ≤ need_count topology.now.problem }
    ensures text { IfOk result (λ text. string_bytes text ≡ switch_line topology.now sites.now switch) }
{
    let problem = topology.problem();
    let name = switch_name(topology, switch);
    let load = given_load(problem, sites, switch);
    let capacity = problem.capacity(usize::from(switch));
    format!(in alloc; "switch {name} load {load} capacity {capacity}\n")
}

fn switch_name(topology: &Topology, switch: u8) -> &str
    requires { switch < site_count topology.now.problem }
    ensures name { result.now ≡ switch_name topology.now switch }
{
    // There are as many switches as sites of the problem.
    let _switches = topology.switches();
    topology.switch_name(usize::from(switch))
}
