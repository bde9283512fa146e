//! The judgement of outcomes.

use crate::made::{
    all_over, bound, dual, fork, no_bound, too_coarse, too_small, two_duals, two_prices,
};
use bound_certificate::{
    Outcome, OutcomeFault, Placement, Problem, Tree, TreeFault, TreeWhy, Verdict, check_outcome,
    is_formed,
};
use sqlite_items::Items;
use std::alloc::{AllocError, Global};
use std::process::Abort;
use std::test::Fail;

// What the judgement of an outcome answers.
fn judges(
    rt: &impl Abort,
    problem: &Problem,
    nodes: u32,
    outcome: &Outcome,
    expected: Result<Verdict, OutcomeFault>,
) {
    assert!(rt; is_formed(outcome.tree()), "a tree within its limits");
    assert_eq!(rt; check_outcome(problem, nodes, outcome), expected);
}

// The same of a placement.
fn judges_placed(
    rt: &impl Abort,
    alloc: Global,
    sites: &[u8],
    tree: Tree,
    nodes: u32,
    expected: Result<Verdict, OutcomeFault>,
) -> Result<(), AllocError> {
    let problem = two_prices(rt, alloc, 0)?;
    let sites = Items::from_slice(alloc, sites)?;
    let placement = Placement { sites };
    let outcome = Outcome::Placed { placement, tree };
    judges(rt, &problem, nodes, &outcome, expected);
    Ok(())
}

// The two needs on the cheap site cost 13, and on the dear one 12, which first fit does not find.
#[test]
fn a_placement_of_cost_13(rt: HostRuntime) -> Result<(), Fail> {
    let table = [
        (1, Ok(bound(12, 1))),
        (2, Err(OutcomeFault::Bound)),
        (0, Err(OutcomeFault::Branches)),
    ];
    for (nodes, expected) in table {
        let tree = two_duals(rt.alloc(), 4, 0)?;
        judges_placed(&rt, rt.alloc(), &[0, 0], tree, nodes, expected)?;
    }
    Ok(())
}

#[test]
fn a_short_and_a_dear_placement(rt: HostRuntime) -> Result<(), Fail> {
    let tree = two_duals(rt.alloc(), 4, 0)?;
    judges_placed(&rt, rt.alloc(), &[1], tree, 1, Err(OutcomeFault::Placement))?;
    let tree = two_duals(rt.alloc(), 4, 0)?;
    judges_placed(&rt, rt.alloc(), &[0, 1], tree, 1, Err(OutcomeFault::Bound))?;
    Ok(())
}

#[test]
fn a_dual_below_its_floor(rt: HostRuntime) -> Result<(), Fail> {
    let problem = two_prices(&rt, rt.alloc(), 1)?;
    let sites = Items::from_slice(rt.alloc(), &[0, 0])?;
    let placement = Placement { sites };
    let tree = two_duals(rt.alloc(), 0, 0)?;
    let outcome = Outcome::Placed { placement, tree };
    judges(&rt, &problem, 1, &outcome, Err(OutcomeFault::Bound));
    Ok(())
}

#[test]
fn a_better_completion(rt: HostRuntime) -> Result<(), Fail> {
    let leaf = dual(rt.alloc(), &[4], &[0, 0])?;
    let full = fork(rt.alloc(), Tree::Full, Tree::Full)?;
    let tree = fork(rt.alloc(), leaf, full)?;
    judges_placed(&rt, rt.alloc(), &[0, 0], tree, 2, Err(OutcomeFault::Bound))?;
    Ok(())
}

#[test]
fn a_branch_at_first_fits_cost(rt: HostRuntime) -> Result<(), Fail> {
    let full = fork(rt.alloc(), Tree::Full, Tree::Full)?;
    let leaf = dual(rt.alloc(), &[0], &[0, 0])?;
    let tree = fork(rt.alloc(), full, leaf)?;
    judges_placed(&rt, rt.alloc(), &[0, 0], tree, 2, Err(OutcomeFault::Bound))?;
    Ok(())
}

#[test]
fn a_wrong_tree(rt: HostRuntime) -> Result<(), Fail> {
    let tree = dual(rt.alloc(), &[13, 0], &[0, 0])?;
    let why = TreeWhy::DualSum { switch: 0 };
    let fault = Err(OutcomeFault::Tree(TreeFault { node: 0, why }));
    judges_placed(&rt, rt.alloc(), &[0, 0], tree, 1, fault)?;
    Ok(())
}

#[test]
fn none_fits(rt: HostRuntime) -> Result<(), Fail> {
    let problem = too_small(&rt, rt.alloc())?;
    let tree = Tree::Hall(Items::from_slice(rt.alloc(), &[0, 1])?);
    judges(
        &rt,
        &problem,
        1024,
        &Outcome::Infeasible { tree },
        Ok(no_bound(0)),
    );
    Ok(())
}

#[test]
fn none_fits_by_five_branches(rt: HostRuntime) -> Result<(), Fail> {
    let problem = too_coarse(&rt, rt.alloc())?;
    let tree = all_over(rt.alloc())?;
    let outcome = Outcome::Infeasible { tree };
    judges(&rt, &problem, 5, &outcome, Ok(no_bound(5)));
    judges(&rt, &problem, 4, &outcome, Err(OutcomeFault::Branches));
    Ok(())
}

#[test]
fn two_branches_spent(rt: HostRuntime) -> Result<(), Fail> {
    let problem = too_coarse(&rt, rt.alloc())?;
    let leaf = dual(rt.alloc(), &[0], &[0, 0])?;
    let left = fork(rt.alloc(), Tree::Over, leaf)?;
    let right = dual(rt.alloc(), &[0, 0], &[0, 0])?;
    let tree = fork(rt.alloc(), left, right)?;
    let outcome = Outcome::Spent { tree };
    judges(&rt, &problem, 2, &outcome, Ok(bound(0, 2)));
    judges(&rt, &problem, 3, &outcome, Err(OutcomeFault::Bound));
    Ok(())
}
