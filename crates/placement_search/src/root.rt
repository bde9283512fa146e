//! The search, from a problem to its outcome.
ghost use Rattle.std.specs.Prelude.{◌≡◌, ◌<◌, ◌≤◌, [], length, None, IfOk, IsTrue, is_none, if◌then◌else◌};
ghost use Rattle.bound_certificate.specs.Node.{is_crowded, later};
ghost use Rattle.bound_certificate.specs.Tree.{visits, first_fault, bound_of};
ghost use Rattle.bound_certificate.specs.Formed.{is_formed};
ghost use Rattle.bound_certificate.specs.Outcome.{is_right};
ghost use Rattle.bound_certificate.specs.Whole.{whole};
ghost use Rattle.placement_search.specs.Kept.{IsKept};
ghost use Rattle.placement_search.specs.Overload.{is_overloaded};
ghost use Rattle.placement_search.specs.Searched.{IsTreeSearched};
ghost use Rattle.placement_search.specs.Shown.{IsSettled, unplaced, concluded};

use crate::branching::search_at;
use crate::capacity_prices::CapacityPrices;
use crate::dive::dive;
use crate::loads::Loads;
use crate::progress::Progress;
use crate::walk::walk;
use bound_certificate::{Numbers, Outcome, Placement, Problem, Tree, check, is_crowded, later};
use mon_io::Memory;
use sqlite_items::Items;
use std::alloc::Global;

/// A right outcome of a search with up to this many Branch nodes, 1 to 4,096. Takes memory for the tree and the
/// placement; the only error is the want of it.
///
/// With more nodes than a tree of the problem can have, it is a placement of least cost with its bound equal, or
/// says that none fits. Where the loads of all needs together are above the capacities of the sites named in any
/// via, it says so by a tree of one Hall leaf that names all needs.
pub fn search(alloc: Global, problem: &Problem, nodes: u32) -> Result<Outcome, Memory>
    requires some { 1 ≤ nodes }
    requires few { nodes ≤ 4096 }
    ensures right { IfOk result (λ outcome. IsTrue (is_right problem.now nodes outcome)) }
    ensures settled { whole problem.now < nodes → IfOk result (IsSettled problem.now) }
    ensures overloaded { IsTrue (is_overloaded problem.now)
        → IfOk result (λ outcome. outcome ≡ Outcome.Infeasible (Tree.Hall (later problem.now 0))) }
{
    let all = later(problem, 0);
    if is_crowded(problem, &[], all.as_slice()) {
        return crowded_out(alloc, &all);
    }
    let mut progress = begin(alloc, problem, nodes)?;
    let tree = search_at(alloc, problem, &Numbers::new(), &mut progress)?;
    conclude(alloc, problem, tree, &progress)
}

// The outcome whose tree is one Hall leaf of these needs.
fn crowded_out(alloc: Global, names: &Numbers) -> Result<Outcome, Memory>
    ensures value { IfOk result (λ outcome. outcome ≡ Outcome.Infeasible (Tree.Hall names.now)) }
{
    match Items::from_slice(alloc, names.as_slice()) {
        Ok(names) => Ok(Outcome::Infeasible {
            tree: Tree::Hall(names),
        }),
        Err(_) => Err(Memory),
    }
}

// The best placement of first fit's, a dive's and a walk's, if there is one, and all nodes left.
fn begin(alloc: Global, problem: &Problem, nodes: u32) -> Result<Progress, Memory>
    ensures kept { IfOk result (IsKept problem.now) }
    ensures left { IfOk result (λ progress. progress.left ≡ nodes) }
{
    let mut progress = Progress::new(nodes);
    progress.offer(problem, &Numbers::new());
    offer_dive(alloc, problem, &mut progress)?;
    offer_walk(alloc, problem, &mut progress)?;
    progress.capacities = CapacityPrices::guess(problem, unit_cost(problem, &progress));
    Ok(progress)
}

// What a unit of load costs in the best placement, or in one of the first sites where there is none.
fn unit_cost(problem: &Problem, progress: &Progress) -> u64 {
    let loads = Loads::of(problem, progress.sites.as_slice());
    (loads.total(problem).cost / loads.carried().max(1)).max(1)
}

// Offers a dive's placement, if it finds one.
fn offer_dive(alloc: Global, problem: &Problem, progress: &mut Progress) -> Result<(), Memory>
    ensures kept { IsKept problem.now progress.old → IsKept problem.now progress.new }
    ensures left { progress.new.left ≡ progress.old.left }
{
    let Some(sites) = dive(problem) else {
        return Ok(());
    };
    progress.offer_sites(alloc, problem, sites)
}

// Offers the placement of a walk from the best one, if it finds any.
fn offer_walk(alloc: Global, problem: &Problem, progress: &mut Progress) -> Result<(), Memory>
    ensures kept { IsKept problem.now progress.old → IsKept problem.now progress.new }
    ensures left { progress.new.left ≡ progress.old.left }
{
    let Some(sites) = walk(problem, progress.sites.as_slice()) else {
        return Ok(());
    };
    progress.offer_sites(alloc, problem, sites)
}

// What a searched tree shows with the best placement.
fn conclude(
    alloc: Global,
    problem: &Problem,
    tree: Tree,
    progress: &Progress,
) -> Result<Outcome, Memory>
    requires formed { IsTrue (is_formed tree) }
    requires right { first_fault problem.now 0 (visits problem.now tree []) ≡ None }
    ensures value { IfOk result (λ outcome. outcome ≡ concluded problem.now progress.now.cost progress.now.sites tree) }
{
    let Some(_) = progress.cost else {
        return Ok(unplaced(problem, tree));
    };
    match Items::from_slice(alloc, progress.sites.as_slice()) {
        Ok(sites) => Ok(Outcome::Placed {
            placement: Placement { sites },
            tree,
        }),
        Err(_) => Err(Memory),
    }
}

// What a tree shows without a placement: that none fits, or that all nodes were spent.
fn unplaced(problem: &Problem, tree: Tree) -> Outcome
    requires formed { IsTrue (is_formed tree) }
    requires right { first_fault problem.now 0 (visits problem.now tree []) ≡ None }
    ensures value { result ≡ unplaced problem.now tree }
{
    let is_infeasible = match check(problem, &tree) {
        Ok(verdict) => verdict.bound.is_none(),
        Err(_) => unreachable!(),
    };
    if is_infeasible {
        Outcome::Infeasible { tree }
    } else {
        Outcome::Spent { tree }
    }
}
