//! The test of a node that a search went through.
ghost use Rattle.std.specs.Prelude.{◌≡◌, ◌≤◌, ◌<◌, length, None, IsTrue, IfSome, pos, int_le};
ghost use Rattle.std.specs.Option.{option_map};
ghost use Rattle.bound_certificate.specs.Placement.{AreChoices, cost};
ghost use Rattle.bound_certificate.specs.Node.{node_fault, dual_value};
ghost use Rattle.bound_certificate.specs.Prices.{ArePrices};
ghost use Rattle.bound_certificate.specs.Floor.{floor};
ghost use Rattle.bound_certificate.specs.Tree.{part_of};
ghost use Rattle.bound_certificate.specs.Formed.{is_formed_part};
ghost use Rattle.bound_certificate.specs.Outcome.{completion, is_no_better, is_beaten, is_under, is_tight, is_explored};

use crate::choices::cost_of;
use crate::completion::complete;
use crate::dual::dual_value;
use crate::floors::floor_of;
use crate::node::is_over;
use crate::numbers::Numbers;
use crate::{Problem, Tree};

/// What the nodes of a search are tested by: the best cost that it found, and first fit's. None is above each
/// number.
#[derive(Clone, Copy, Debug)]
pub struct Rule {
    pub best: Option<u64>,
    pub ceiling: Option<u64>,
}

/// Whether a node's completion is no better than the best cost, and its floor is what it has to be.
#[tactic(auto, unfolding(crate::specs::Outcome::is_explored))]
pub(crate) fn is_explored(problem: &Problem, choices: &Numbers, tree: &Tree, rule: Rule) -> bool
    requires choices { AreChoices problem.now choices.now }
    requires formed { IsTrue (is_formed_part (length choices.now) (part_of tree.now)) }
    requires right { node_fault problem.now choices.now (part_of tree.now) ≡ None }
    ensures value { result ≡ is_explored problem.now rule.best rule.ceiling
        (record { choices = choices.now; part = part_of tree.now }) }
{
    is_beaten(problem, choices, rule.best)
        && is_tight(problem, choices.as_slice(), tree, rule.ceiling)
}

// Whether a node's completion is no better than the best cost.
#[tactic(auto, unfolding(crate::specs::Outcome::is_beaten))]
fn is_beaten(problem: &Problem, choices: &Numbers, best: Option<u64>) -> bool
    requires { AreChoices problem.now choices.now }
    ensures { result ≡ is_beaten problem.now best choices.now }
{
    let Some(completion) = completion(problem, choices) else {
        return true;
    };
    let cost = cost_of(problem, completion.as_slice());
    match best {
        Some(best) => best <= cost,
        None => false,
    }
}

// The choices with a site for each later need, where no site is over and each need finds room.
#[tactic(auto, unfolding(crate::specs::Outcome::completion))]
fn completion(problem: &Problem, choices: &Numbers) -> Option<Numbers>
    requires { AreChoices problem.now choices.now }
    ensures value { result ≡ completion problem.now choices.now }
    ensures choices { IfSome result (λ completed. AreChoices problem.now completed) }
{
    if is_over(problem, choices.as_slice()) {
        return None;
    }
    complete(problem, choices)
}

// Whether a Dual leaf's value is at least its floor, and a Branch node's floor below the ceiling.
fn is_tight(problem: &Problem, choices: &[u8], tree: &Tree, ceiling: Option<u64>) -> bool
    requires choices { AreChoices problem.now choices.now }
    requires formed { IsTrue (is_formed_part (length choices.now) (part_of tree.now)) }
    requires right { node_fault problem.now choices.now (part_of tree.now) ≡ None }
    ensures { result ≡ is_tight problem.now ceiling choices.now (part_of tree.now) }
{
    match tree {
        Tree::Branch(_) => is_under(ceiling, floor_of(problem, choices)),
        Tree::Over => true,
        Tree::Hall(_) => true,
        Tree::Dual { lambda, mu } => {
            reaches_floor(problem, choices, lambda.as_slice(), mu.as_slice())
        }
        Tree::Full => true,
    }
}

// Whether a dual's value is at least the node's floor.
fn reaches_floor(problem: &Problem, choices: &[u8], lambda: &[u64], mu: &[u64]) -> bool
    requires choices { AreChoices problem.now choices.now }
    requires prices { ArePrices problem.now choices.now lambda.now mu.now }
    ensures { result ≡ int_le (pos (floor problem.now choices.now))
        (dual_value problem.now choices.now lambda.now mu.now) }
{
    i128::from(floor_of(problem, choices)) <= dual_value(problem, choices, lambda, mu)
}

// Whether a number is below a ceiling, where there is one.
fn is_under(ceiling: Option<u64>, number: u64) -> bool
    ensures { result ≡ is_under ceiling number }
{
    match ceiling {
        Some(ceiling) => number < ceiling,
        None => true,
    }
}
