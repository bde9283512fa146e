//! What the check of a tree answers.

use crate::made::{all_over, bound, no_bound, too_coarse, two_duals, two_prices};
use bound_certificate::{Problem, Tree, TreeFault, Verdict, check, is_formed};
use std::process::Abort;
use std::test::Fail;

// What the check of a tree answers.
fn checks(rt: &impl Abort, problem: &Problem, tree: &Tree, expected: Result<Verdict, TreeFault>) {
    assert!(rt; is_formed(tree), "a tree within its limits");
    assert_eq!(rt; check(problem, tree), expected);
}

#[test]
fn a_tree_of_two_duals(rt: HostRuntime) -> Result<(), Fail> {
    let problem = two_prices(&rt, rt.alloc(), 0)?;
    let tree = two_duals(rt.alloc(), 4, 0)?;
    checks(&rt, &problem, &tree, Ok(bound(12, 1)));
    Ok(())
}

#[test]
fn all_leaves_over(rt: HostRuntime) -> Result<(), Fail> {
    let problem = too_coarse(&rt, rt.alloc())?;
    let tree = all_over(rt.alloc())?;
    checks(&rt, &problem, &tree, Ok(no_bound(5)));
    Ok(())
}
