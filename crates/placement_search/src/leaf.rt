//! The leaf that closes a node, if there is one.
ghost use Rattle.std.specs.Prelude.{◌≡◌, ◌<◌, ◌≤◌, ◌==◌, ◌||◌, length, None, Some, false, IfOk, IfSome, MatchOption, IsTrue};
ghost use Rattle.bound_certificate.specs.Problem.{need_count};
ghost use Rattle.bound_certificate.specs.Placement.{AreChoices};
ghost use Rattle.bound_certificate.specs.Node.{dual_value};
ghost use Rattle.bound_certificate.specs.Outcome.{is_beaten};
ghost use Rattle.bound_certificate.specs.Prices.{ArePrices};
ghost use Rattle.placement_search.specs.Kept.{IsKept, IsRoomy, reaches};
ghost use Rattle.placement_search.specs.Leaf.{IsCrowd, IsDual, IsLeaf, IsOpen};

use crate::crowd::find_crowd;
use crate::prices::{Prices, prices_at};
use crate::progress::Progress;
use bound_certificate::{Numbers, Problem, Tree, dual_value};
use mon_io::Memory;
use sqlite_items::Items;
use std::alloc::Global;

/// The leaf that closes a node whose completion was offered; None where the node has to be branched.
pub fn leaf_at(
    alloc: Global,
    problem: &Problem,
    choices: &Numbers,
    progress: &Progress,
) -> Result<Option<Tree>, Memory>
    requires choices { AreChoices problem.now choices.now }
    requires room { IsRoomy problem.now choices.now }
    requires kept { IsKept problem.now progress.now }
    requires beaten { IsTrue (is_beaten problem.now progress.now.cost choices.now) }
    ensures found { IfOk result (λ found. MatchOption found (IsOpen problem.now choices.now progress.now)
        (IsLeaf problem.now choices.now progress.now)) }
{
    if choices.len() == usize::from(problem.need_count()) {
        return Ok(Some(Tree::Full));
    }
    if let Some(names) = find_crowd(problem, choices) {
        let leaf = hall(alloc, &names)?;
        return Ok(Some(leaf));
    }
    let prices = prices_at(alloc, problem, choices.as_slice(), &progress.capacities)?;
    if !is_closed(problem, choices.as_slice(), &prices, progress) {
        return Ok(None);
    }
    let Prices { lambda, mu } = prices;
    Ok(Some(Tree::Dual { lambda, mu }))
}

// The Hall leaf of these needs.
fn hall(alloc: Global, names: &Numbers) -> Result<Tree, Memory>
    ensures leaf { IfOk result (λ tree. tree ≡ Tree.Hall names.now) }
{
    match Items::from_slice(alloc, names.as_slice()) {
        Ok(names) => Ok(Tree::Hall(names)),
        Err(_) => Err(Memory),
    }
}

// Whether a dual closes its node: no Branch node is left, or the best cost is at most its value.
fn is_closed(problem: &Problem, choices: &[u8], prices: &Prices, progress: &Progress) -> bool
    requires choices { AreChoices problem.now choices.now }
    requires prices { ArePrices problem.now choices.now prices.now.lambda prices.now.mu }
    ensures value { result ≡ (progress.now.left == 0 || reaches progress.now.cost
        (Some (dual_value problem.now choices.now prices.now.lambda prices.now.mu))) }
{
    progress.left == 0 || reaches(problem, choices, prices, progress.cost)
}

// Whether the best cost is at most a dual's value.
fn reaches(problem: &Problem, choices: &[u8], prices: &Prices, best: Option<u64>) -> bool
    requires choices { AreChoices problem.now choices.now }
    requires prices { ArePrices problem.now choices.now prices.now.lambda prices.now.mu }
    ensures value { result ≡ reaches best (Some (dual_value problem.now choices.now prices.now.lambda prices.now.mu)) }
{
    let Some(best) = best else {
        return false;
    };
    let value = dual_value(
        problem,
        choices,
        prices.lambda.as_slice(),
        prices.mu.as_slice(),
    );
    i128::from(best) <= value
}
