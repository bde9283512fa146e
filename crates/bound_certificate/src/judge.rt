//! The judgement of an outcome: its tree, node by node once more, and what it says.
ghost use Rattle.std.specs.Prelude.{◌≡◌, ◌≤◌, ◌<◌, ◌+◌, ◌^◌, ℕ, List, [], None, Some, length, map, IsTrue, IfOk, IfErr, pos, is_some, is_ok, Ok, Err, ◌||◌, ◌&&◌, ◌==◌, if◌then◌else◌};
ghost use Rattle.std.specs.List.{list_all};
ghost use Rattle.bound_certificate.specs.Problem.{need_count, via};
ghost use Rattle.bound_certificate.specs.Placement.{AreChoices, cost, fits};
ghost use Rattle.bound_certificate.specs.Tree.{children_of, visits, below, first_fault, bound_of, branches_of, verdict_of};
ghost use Rattle.bound_certificate.specs.Formed.{is_formed, is_formed_at};
ghost use Rattle.bound_certificate.specs.Meaning.{Shows};
ghost use Rattle.bound_certificate.specs.Outcome.{are_explored, first_fit_cost, is_bound, is_best, is_spent, tree_of, judged, judgement, is_right};

use crate::checker::check;
use crate::choices::cost_of;
use crate::completion::complete;
use crate::explored::{Rule, is_explored};
use crate::numbers::Numbers;
use crate::placement::{Placement, fits};
use crate::{Outcome, OutcomeFault, Problem, Tree, Verdict, children};

/// What an outcome's tree says where the outcome of a search with this many Branch nodes is right, else the
/// first fault. Takes no memory. The tree is within its limits, as for `check`.
///
/// A right placement costs no more than first fit's and is of least cost where the bound is its cost or the
/// search had more nodes than any tree can have; where infeasibility is right, no placement fits.
///
/// - `Tree`: a node of the tree is wrong, as `check` says.
/// - `Branches`: the tree has more Branch nodes than the search had.
/// - `Placement`: a placement does not fit.
/// - `Bound`: all else. Infeasible is right where the tree's bound is None. A placement is right where no node's
///   completion costs less, each Dual leaf's value is at least the leaf's floor, each Branch node's floor is
///   below first fit's cost if there is one, and the bound is the placement's cost or all Branch nodes were
///   spent. Spent is right where there is a bound, no node has a completion, each Dual leaf's value is at least
///   its floor, and all Branch nodes were spent.
pub fn check_outcome(
    problem: &Problem,
    nodes: u32,
    outcome: &Outcome,
) -> Result<Verdict, OutcomeFault>
    requires { IsTrue (is_formed (tree_of outcome.now)) }
    ensures judged { result ≡ judgement problem.now nodes outcome.now }
    ensures right { is_ok result ≡ is_right problem.now nodes outcome.now }
    ensures shows { IfOk result (Shows problem.now nodes outcome.now) }
{
    judgement(problem, nodes, outcome)
}

// The judgement of an outcome.
#[tactic(auto, unfolding(crate::specs::Outcome::judgement, crate::specs::Tree::verdict_of))]
fn judgement(problem: &Problem, nodes: u32, outcome: &Outcome) -> Result<Verdict, OutcomeFault>
    requires { IsTrue (is_formed (tree_of outcome.now)) }
    ensures judged { result ≡ judgement problem.now nodes outcome.now }
    ensures shows { IfOk result (Shows problem.now nodes outcome.now) }
{
    // Its sites are within their limits, so that each via names one of them.
    let _sites = problem.sites();
    let verdict = match check(problem, outcome.tree()) {
        Ok(verdict) => verdict,
        Err(fault) => return Err(OutcomeFault::Tree(fault)),
    };
    if verdict.branches > nodes {
        return Err(OutcomeFault::Branches);
    }
    judged(problem, nodes, outcome, verdict)
}

// What a checked tree's verdict makes of an outcome.
#[tactic(auto, unfolding(crate::specs::Outcome::judged, crate::specs::Tree::verdict_of))]
fn judged(
    problem: &Problem,
    nodes: u32,
    outcome: &Outcome,
    verdict: Verdict,
) -> Result<Verdict, OutcomeFault>
    requires formed { IsTrue (is_formed (tree_of outcome.now)) }
    requires right { first_fault problem.now 0 (visits problem.now (tree_of outcome.now) []) ≡ None }
    requires verdict { verdict ≡ verdict_of problem.now (visits problem.now (tree_of outcome.now) []) }
    ensures { result ≡ judged problem.now nodes (visits problem.now (tree_of outcome.now) []) outcome.now }
{
    match outcome {
        Outcome::Placed { placement, tree } => {
            if !fits(problem, placement) {
                return Err(OutcomeFault::Placement);
            }
            bounded(is_best(problem, nodes, placement, tree, verdict), verdict)
        }
        Outcome::Infeasible { tree: _ } => bounded(verdict.bound.is_none(), verdict),
        Outcome::Spent { tree } => bounded(is_spent(problem, nodes, tree, verdict), verdict),
    }
}

// The verdict where the bound is right.
fn bounded(is_right: bool, verdict: Verdict) -> Result<Verdict, OutcomeFault>
    ensures { result ≡ (if is_right then Ok verdict else Err OutcomeFault.Bound) }
{
    if is_right {
        Ok(verdict)
    } else {
        Err(OutcomeFault::Bound)
    }
}

// Whether a placement that fits is what the tree says.
#[tactic(auto, unfolding(crate::specs::Outcome::is_best, crate::specs::Tree::verdict_of))]
fn is_best(
    problem: &Problem,
    nodes: u32,
    placement: &Placement,
    tree: &Tree,
    verdict: Verdict,
) -> bool
    requires fits { IsTrue (fits problem.now placement.now.sites) }
    requires formed { IsTrue (is_formed tree.now) }
    requires right { first_fault problem.now 0 (visits problem.now tree.now []) ≡ None }
    requires verdict { verdict ≡ verdict_of problem.now (visits problem.now tree.now []) }
    ensures { result ≡ is_best problem.now nodes (visits problem.now tree.now [])
        (cost problem.now placement.now.sites) }
{
    let cost = cost_of(problem, placement.sites.as_slice());
    let rule = Rule {
        best: Some(cost),
        ceiling: first_fit_cost(problem),
    };
    let explored = are_explored(problem, tree, &Numbers::new(), rule);
    explored && is_closed(verdict, cost, nodes)
}

// Whether a bound is this cost, or all Branch nodes were spent.
fn is_closed(verdict: Verdict, cost: u64, nodes: u32) -> bool
    ensures { result ≡ (is_bound verdict.bound cost || verdict.branches == nodes) }
{
    is_bound(verdict.bound, cost) || verdict.branches == nodes
}

// Whether a tree without a placement is what a search leaves that spent all its nodes.
#[tactic(auto, unfolding(crate::specs::Outcome::is_spent, crate::specs::Tree::verdict_of))]
fn is_spent(problem: &Problem, nodes: u32, tree: &Tree, verdict: Verdict) -> bool
    requires formed { IsTrue (is_formed tree.now) }
    requires right { first_fault problem.now 0 (visits problem.now tree.now []) ≡ None }
    requires verdict { verdict ≡ verdict_of problem.now (visits problem.now tree.now []) }
    ensures { result ≡ is_spent problem.now nodes (visits problem.now tree.now []) }
{
    let rule = Rule {
        best: None,
        ceiling: None,
    };
    let explored = are_explored(problem, tree, &Numbers::new(), rule);
    explored && is_left_open(verdict, nodes)
}

// Whether there is a bound, and all Branch nodes were spent.
fn is_left_open(verdict: Verdict, nodes: u32) -> bool
    ensures { result ≡ (is_some verdict.bound && verdict.branches == nodes) }
{
    verdict.bound.is_some() && verdict.branches == nodes
}

// The cost of first fit's placement, where there is one.
#[tactic(auto, unfolding(crate::specs::Outcome::first_fit_cost, crate::specs::Placement::first_fit))]
fn first_fit_cost(problem: &Problem) -> Option<u64>
    ensures { result ≡ first_fit_cost problem.now }
{
    match complete(problem, &Numbers::new()) {
        Some(choices) => Some(cost_of(problem, choices.as_slice())),
        None => None,
    }
}

// Whether a bound is this cost.
fn is_bound(bound: Option<i128>, cost: u64) -> bool
    ensures { result ≡ is_bound bound cost }
{
    match bound {
        Some(bound) => bound == i128::from(cost),
        None => false,
    }
}

// Whether each node of a tree that these choices lead to is explored. No node of it is wrong.
#[cycle(explored)]
fn are_explored(problem: &Problem, tree: &Tree, choices: &Numbers, rule: Rule) -> bool
    requires choices { AreChoices problem.now choices.now }
    requires formed { IsTrue (is_formed_at tree.now (length choices.now)) }
    requires right { first_fault problem.now 0 (visits problem.now tree.now choices.now) ≡ None }
    ensures { result ≡ are_explored problem.now rule.best rule.ceiling (visits problem.now tree.now choices.now) }
{
    if !is_explored(problem, choices, tree, rule) {
        return false;
    }
    are_children_explored(problem, children(tree), choices, rule)
}

// The same of a node's children.
#[cycle(explored)]
fn are_children_explored(
    problem: &Problem,
    children: &[Tree],
    choices: &Numbers,
    rule: Rule,
) -> bool
    requires choices { AreChoices problem.now choices.now }
    requires depth { 0 < length children.now → length choices.now < need_count problem.now }
    requires fan { length children.now ≤ length (via problem.now (length choices.now)) }
    requires formed { IsTrue (list_all (λ child. child (length choices.now + 1)) (map is_formed_at children.now)) }
    requires right { first_fault problem.now 0
        (below problem.now choices.now 0 (map (visits problem.now) children.now)) ≡ None }
    ensures { result ≡ are_explored problem.now rule.best rule.ceiling
        (below problem.now choices.now 0 (map (visits problem.now) children.now)) }
{
    for (n, child) in children.iter().enumerate() {
        let site = problem.via(choices.len())[n];
        if !are_explored(problem, child, &choices.with(site), rule) {
            return false;
        }
    }
    true
}
