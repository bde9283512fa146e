//! The text of a topology.
ghost use Rattle.std.specs.Prelude.{◌≡◌, IfOk, string_bytes};
ghost use Rattle.trace_maker.specs.Topology.{generated_topology, network_lines, path_text, paths_text, service_lines, switch_text, switches_text};

use mon_io::Memory;
use std::alloc::{AllocError, Global};

const SWITCHES: u8 = 12;

const PATHS: u8 = 30;

/// The text of a topology of twelve switches and of thirty paths, each of which takes the packets of one network of a
/// made trace. It takes memory for the text.
pub fn topology_bytes(alloc: Global) -> Result<Vec<u8>, Memory>
    ensures bytes { IfOk result (λ text. text.items ≡ generated_topology) }
{
    match topology_text(alloc) {
        Ok(text) => Ok(text.into_bytes()),
        Err(_) => Err(Memory),
    }
}

#[tactic(auto, unfolding(crate::specs::Topology::generated_topology))]
fn topology_text(alloc: Global) -> Result<String, AllocError>
    ensures { IfOk result (λ text. string_bytes text ≡ generated_topology) }
{
    let switches = switches_text(alloc, SWITCHES)?;
    let paths = paths_text(alloc, PATHS)?;
    format!(in alloc; "{switches}{paths}")
}

// The lines of so many switches.
#[tactic(auto, using(crate::proofs::Ranges::one_more_piece))]
fn switches_text(alloc: Global, number: u8) -> Result<String, AllocError>
    ensures { IfOk result (λ text. string_bytes text ≡ switches_text number) }
{
    let mut text = String::new(alloc);
    for switch in 0..number {
        let lines = switch_text(alloc, switch)?;
        text.push_str(&lines)?;
    }
    Ok(text)
}

#[tactic(auto, unfolding(crate::specs::Topology::switch_text))]
fn switch_text(alloc: Global, switch: u8) -> Result<String, AllocError>
    ensures { IfOk result (λ text. string_bytes text ≡ switch_text switch) }
{
    let open = 100 + 10 * u16::from(switch);
    let unit = 1 + switch % 3;
    format!(in alloc;
        "[[switch]]\nname = \"s{switch}\"\ncapacity = 400\nopen = {open}\nunit = {unit}\n"
    )
}

// The lines of so many paths.
#[tactic(auto, using(crate::proofs::Ranges::one_more_piece))]
fn paths_text(alloc: Global, number: u8) -> Result<String, AllocError>
    ensures { IfOk result (λ text. string_bytes text ≡ paths_text number) }
{
    let mut text = String::new(alloc);
    for path in 0..number {
        let lines = path_text(alloc, path)?;
        text.push_str(&lines)?;
    }
    Ok(text)
}

#[tactic(auto, unfolding(crate::specs::Topology::path_text))]
fn path_text(alloc: Global, path: u8) -> Result<String, AllocError>
    ensures { IfOk result (λ text. string_bytes text ≡ path_text path) }
{
    let networks = network_lines(alloc, path)?;
    let service = service_lines(alloc, path)?;
    format!(in alloc; "[[path]]\nname = \"p{path}\"\n{networks}{service}")
}

#[tactic(auto, unfolding(crate::specs::Topology::network_lines))]
fn network_lines(alloc: Global, path: u8) -> Result<String, AllocError>
    ensures { IfOk result (λ text. string_bytes text ≡ network_lines path) }
{
    let far = 100 + u16::from(path);
    format!(in alloc; "from = \"10.{path}.0.0/16\"\nto = \"10.{far}.0.0/16\"\n")
}

#[tactic(auto, unfolding(crate::specs::Topology::service_lines))]
fn service_lines(alloc: Global, path: u8) -> Result<String, AllocError>
    ensures { IfOk result (λ text. string_bytes text ≡ service_lines path) }
{
    let number = u16::from(path);
    let load = 20 + 7 * number % 41;
    let first = number % 12;
    let second = (number + 1) % 12;
    let third = (number + 5) % 12;
    format!(in alloc; "load = {load}\nvia = [\"s{first}\", \"s{second}\", \"s{third}\"]\n")
}
