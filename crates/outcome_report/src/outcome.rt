//! The text of an outcome.
ghost use Rattle.std.specs.Prelude.{◌≡◌, ◌++◌, codes, decimal, IfOk, IsTrue, string_bytes};
ghost use Rattle.bound_certificate.specs.Placement.{cost, fits};
ghost use Rattle.outcome_report.specs.Outcome.{FitsWherePlaced, bound_line, branches_line, found_lines, outcome_text, path_lines, switch_lines};

use crate::placement::lines;
use bound_certificate::{Outcome, Verdict, cost_of};
use certificate_text::tree_text;
use mon_io::Memory;
use std::alloc::{AllocError, Global};
use topology::Topology;

/// The text of what a search with so many nodes found for a topology's problem: a head line, the number of nodes, the
/// outcome with its cost, its bound and its number of Branch nodes as far as it has them, for a placement the lines
/// that `placement_lines` gives, and the text of the tree. A placement fits, and the verdict is the tree's. Takes
/// memory for the text.
#[tactic(auto, unfolding(crate::specs::Outcome::outcome_text))]
pub fn outcome_text(
    alloc: Global,
    topology: &Topology,
    nodes: u32,
    outcome: &Outcome,
    verdict: Verdict,
) -> Result<String, Memory>
    requires fits { FitsWherePlaced topology.now.problem outcome.now }
    ensures text { IfOk result (λ text. string_bytes text ≡ outcome_text topology.now nodes outcome.now verdict) }
{
    let tree = tree_text(alloc, outcome.tree())?;
    let Ok(found) = found_text(alloc, topology, outcome, verdict) else {
        return Err(Memory);
    };
    match format!(in alloc; "univmon place 1\nnodes {nodes}\n{found}{tree}") {
        Ok(text) => Ok(text),
        Err(_) => Err(Memory),
    }
}

// The lines of an outcome with its verdict, without its tree.
fn found_text(
    alloc: Global,
    topology: &Topology,
    outcome: &Outcome,
    verdict: Verdict,
) -> Result<String, AllocError>
    requires fits { FitsWherePlaced topology.now.problem outcome.now }
    ensures text { IfOk result (λ text. string_bytes text ≡ found_lines topology.now outcome.now verdict) }
{
    match outcome {
        Outcome::Placed { placement, tree: _ } => {
            placed_text(alloc, topology, placement.sites.as_slice(), verdict)
        }
        Outcome::Infeasible { tree: _ } => infeasible_text(alloc, verdict.branches),
        Outcome::Spent { tree: _ } => spent_text(alloc, verdict),
    }
}

fn placed_text(
    alloc: Global,
    topology: &Topology,
    sites: &[u8],
    verdict: Verdict,
) -> Result<String, AllocError>
    requires { IsTrue (fits topology.now.problem sites.now) }
    ensures text { IfOk result (λ text. string_bytes text ≡ codes "outcome placed\ncost "
        ++ (decimal (cost topology.now.problem sites.now)
        ++ (codes "\n" ++ (bound_line verdict.bound ++ (branches_line verdict.branches
        ++ (path_lines topology.now sites.now ++ switch_lines topology.now sites.now)))))) }
{
    let cost = cost_of(topology.problem(), sites);
    let bound = bound_text(alloc, verdict.bound)?;
    let branches = branches_text(alloc, verdict.branches)?;
    let lines = lines(alloc, topology, sites)?;
    format!(in alloc; "outcome placed\ncost {cost}\n{bound}{branches}{lines}")
}

fn infeasible_text(alloc: Global, branches: u32) -> Result<String, AllocError>
    ensures text { IfOk result (λ text. string_bytes text ≡ codes "outcome infeasible\n" ++ branches_line branches) }
{
    let branches = branches_text(alloc, branches)?;
    format!(in alloc; "outcome infeasible\n{branches}")
}

fn spent_text(alloc: Global, verdict: Verdict) -> Result<String, AllocError>
    ensures text { IfOk result (λ text. string_bytes text
        ≡ codes "outcome spent\n" ++ (bound_line verdict.bound ++ branches_line verdict.branches)) }
{
    let bound = bound_text(alloc, verdict.bound)?;
    let branches = branches_text(alloc, verdict.branches)?;
    format!(in alloc; "outcome spent\n{bound}{branches}")
}

// The line of a bound, where there is one.
fn bound_text(alloc: Global, bound: Option<i128>) -> Result<String, AllocError>
    ensures text { IfOk result (λ text. string_bytes text ≡ bound_line bound) }
{
    match bound {
        Some(bound) => format!(in alloc; "bound {bound}\n"),
        None => Ok(String::new(alloc)),
    }
}

fn branches_text(alloc: Global, branches: u32) -> Result<String, AllocError>
    ensures text { IfOk result (λ text. string_bytes text ≡ branches_line branches) }
{
    format!(in alloc; "branches {branches}\n")
}
