//! The test of one node of a tree.
ghost use Rattle.std.specs.Prelude.{◌≡◌, ◌≤◌, ◌<◌, length, IsTrue, if◌then◌else◌};
ghost use Rattle.bound_certificate.specs.Problem.{need_count};
ghost use Rattle.bound_certificate.specs.Placement.{AreChoices};
ghost use Rattle.bound_certificate.specs.Node.{is_over, branch_fault, hall_fault, dual_fault, full_fault, node_fault};
ghost use Rattle.bound_certificate.specs.Tree.{part_of};
ghost use Rattle.bound_certificate.specs.Formed.{are_prices, is_formed_part};

use crate::choices::is_within_capacity;
use crate::dual::{dual_breach, is_dual_shape};
use crate::hall::{is_crowded, is_hall_set, later};
use crate::verdict::TreeWhy;
use crate::{Problem, Tree};

/// Why a node with these choices is wrong: the first reason, or None where it is right.
pub(crate) fn node_fault(problem: &Problem, choices: &[u8], tree: &Tree) -> Option<TreeWhy>
    requires choices { AreChoices problem.now choices.now }
    requires formed { IsTrue (is_formed_part (length choices.now) (part_of tree.now)) }
    ensures value { result ≡ node_fault problem.now choices.now (part_of tree.now) }
{
    let is_over = is_over(problem, choices);
    match tree {
        Tree::Over => over_fault(is_over),
        Tree::Branch(children) => unless_over(
            is_over,
            branch_fault(problem, choices, children.len()),
        ),
        Tree::Hall(names) => unless_over(is_over, hall_fault(problem, choices, names.as_slice())),
        Tree::Dual { lambda, mu } => unless_over(
            is_over,
            dual_fault(problem, choices, lambda.as_slice(), mu.as_slice()),
        ),
        Tree::Full => unless_over(is_over, full_fault(problem, choices)),
    }
}

// An Over node is wrong where its site is not over.
fn over_fault(is_over: bool) -> Option<TreeWhy>
    ensures { result ≡ (if is_over then None else Some TreeWhy.NotOver) }
{
    if is_over {
        None
    } else {
        Some(TreeWhy::NotOver)
    }
}

// Another node is wrong where its site is over, and else for its own reason.
fn unless_over(is_over: bool, fault: Option<TreeWhy>) -> Option<TreeWhy>
    ensures { result ≡ (if is_over then Some TreeWhy.IsOver else fault) }
{
    if is_over {
        Some(TreeWhy::IsOver)
    } else {
        fault
    }
}

/// Whether the site of the last choice carries more than its capacity.
#[tactic(auto, unfolding(crate::specs::Node::is_over))]
pub fn is_over(problem: &Problem, choices: &[u8]) -> bool
    requires { AreChoices problem.now choices.now }
    ensures value { result ≡ is_over problem.now choices.now }
{
    if choices.is_empty() {
        return false;
    }
    let last = choices.len() - 1;
    // Its sites are numbers of sites, and so is the choice.
    let _via = problem.via(last);
    !is_within_capacity(problem, choices, choices[last])
}

#[tactic(auto, unfolding(crate::specs::Node::branch_fault))]
fn branch_fault(problem: &Problem, choices: &[u8], children: usize) -> Option<TreeWhy>
    requires { AreChoices problem.now choices.now }
    ensures { result ≡ branch_fault problem.now choices.now children }
{
    let depth = choices.len();
    if depth == usize::from(problem.need_count()) {
        return Some(TreeWhy::Depth);
    }
    if children != problem.via(depth).len() {
        return Some(TreeWhy::Children);
    }
    let later = later(problem, depth as u8);
    if is_crowded(problem, choices, later.as_slice()) {
        return Some(TreeWhy::Idle);
    }
    None
}

#[tactic(auto, unfolding(crate::specs::Node::hall_fault))]
fn hall_fault(problem: &Problem, choices: &[u8], names: &[u8]) -> Option<TreeWhy>
    requires { AreChoices problem.now choices.now }
    ensures { result ≡ hall_fault problem.now choices.now names.now }
{
    if choices.len() == usize::from(problem.need_count()) {
        return Some(TreeWhy::Depth);
    }
    if !is_hall_set(problem, choices.len(), names) {
        return Some(TreeWhy::HallSet);
    }
    if !is_crowded(problem, choices, names) {
        return Some(TreeWhy::HallLoad);
    }
    None
}

#[tactic(auto, unfolding(crate::specs::Node::dual_fault))]
fn dual_fault(problem: &Problem, choices: &[u8], lambda: &[u64], mu: &[u64]) -> Option<TreeWhy>
    requires choices { AreChoices problem.now choices.now }
    requires lambda { IsTrue (are_prices lambda.now) }
    requires mu { IsTrue (are_prices mu.now) }
    ensures { result ≡ dual_fault problem.now choices.now lambda.now mu.now }
{
    if choices.len() == usize::from(problem.need_count()) {
        return Some(TreeWhy::Depth);
    }
    if !is_dual_shape(problem, choices, lambda, mu) {
        return Some(TreeWhy::DualShape);
    }
    match dual_breach(problem, choices, lambda, mu) {
        Some(site) => Some(TreeWhy::DualSum {
            switch: u32::from(site),
        }),
        None => None,
    }
}

#[tactic(auto, unfolding(crate::specs::Node::full_fault))]
fn full_fault(problem: &Problem, choices: &[u8]) -> Option<TreeWhy>
    ensures { result ≡ full_fault problem.now choices.now }
{
    if choices.len() < usize::from(problem.need_count()) {
        Some(TreeWhy::Depth)
    } else {
        None
    }
}
