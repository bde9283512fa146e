//! The problems and the trees that the rows speak of.

use bound_certificate::{Need, Problem, Site, Tree, Verdict, is_within};
use sqlite_items::Items;
use std::alloc::{AllocError, Global};
use std::process::Abort;

/// So many needs of this load, each with this via.
pub fn problem(
    rt: &impl Abort,
    alloc: Global,
    sites: &[Site],
    load: u16,
    via: &[u8],
    count: usize,
) -> Result<Problem, AllocError> {
    let mut needs = Vec::new(alloc);
    for _ in 0..count {
        let via = Items::from_slice(alloc, via)?;
        needs.push(Need { load, via })?;
    }
    let sites = Vec::from_slice(alloc, sites)?;
    assert!(rt; is_within(&sites, &needs), "a problem within the limits");
    Ok(Problem::new(sites, needs))
}

pub fn site(capacity: u32, opening: u32, unit: u16) -> Site {
    Site {
        capacity,
        opening,
        unit,
    }
}

/// One site of capacity 8 for two needs of 5.
pub fn too_small(rt: &impl Abort, alloc: Global) -> Result<Problem, AllocError> {
    problem(rt, alloc, &[site(8, 0, 0)], 5, &[0], 2)
}

/// Two sites of capacity 5 for three needs of 3.
pub fn too_coarse(rt: &impl Abort, alloc: Global) -> Result<Problem, AllocError> {
    problem(rt, alloc, &[site(5, 0, 0), site(5, 0, 0)], 3, &[0, 1], 3)
}

/// A cheap site with a price for each unit, and a dear one, for two needs of 4.
pub fn two_prices(rt: &impl Abort, alloc: Global, unit: u16) -> Result<Problem, AllocError> {
    let sites = [site(10, 5, 1), site(10, 12, unit)];
    problem(rt, alloc, &sites, 4, &[0, 1], 2)
}

pub fn dual(alloc: Global, lambda: &[u64], mu: &[u64]) -> Result<Tree, AllocError> {
    Ok(Tree::Dual {
        lambda: Items::from_slice(alloc, lambda)?,
        mu: Items::from_slice(alloc, mu)?,
    })
}

pub fn fork(alloc: Global, one: Tree, other: Tree) -> Result<Tree, AllocError> {
    let mut children = Items::new(alloc);
    children.push(one)?;
    children.push(other)?;
    Ok(Tree::Branch(children))
}

/// A Branch with two Dual leaves of one lambda each.
pub fn two_duals(alloc: Global, one: u64, other: u64) -> Result<Tree, AllocError> {
    let one = dual(alloc, &[one], &[0, 0])?;
    let other = dual(alloc, &[other], &[0, 0])?;
    fork(alloc, one, other)
}

/// The tree of five Branch nodes whose leaves are all over.
pub fn all_over(alloc: Global) -> Result<Tree, AllocError> {
    let overs = fork(alloc, Tree::Over, Tree::Over)?;
    let left = fork(alloc, Tree::Over, overs)?;
    let overs = fork(alloc, Tree::Over, Tree::Over)?;
    let right = fork(alloc, overs, Tree::Over)?;
    fork(alloc, left, right)
}

/// What a tree of this bound says, which has no Full leaf.
pub fn bound(bound: i128, branches: u32) -> Verdict {
    Verdict {
        bound: Some(bound),
        branches,
        full: false,
    }
}

/// What a tree without a bound says, which has no Full leaf.
pub fn no_bound(branches: u32) -> Verdict {
    Verdict {
        bound: None,
        branches,
        full: false,
    }
}
