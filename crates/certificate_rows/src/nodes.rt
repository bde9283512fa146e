//! Each reason why a node is wrong, at the first and the last node where it can stand.

use crate::made::{problem, site, too_small, two_prices};
use bound_certificate::{Need, Problem, TreeFault, TreeWhy, check, is_formed, is_within};
use certificate_text::read_tree_text;
use sqlite_items::Items;
use std::alloc::{AllocError, Global};
use std::process::Abort;
use std::test::Fail;

// The tree of these lines is wrong at this node.
fn refuses(
    rt: &impl Abort,
    alloc: Global,
    problem: &Problem,
    lines: &str,
    node: u32,
    why: TreeWhy,
) -> Result<(), Fail> {
    let text = format!(in alloc; "univmon tree 1\n{lines}\nend\n")?;
    let tree = read_tree_text(alloc, text.as_bytes()).map_err(|_| "a tree's text")?;
    assert!(rt; is_formed(&tree), "a tree within its limits");
    assert_eq!(rt;
        check(problem, &tree),
        Err(TreeFault { node, why }),
        "{lines}"
    );
    Ok(())
}

// The first need has two sites, and the second one the last site alone.
fn one_choice(rt: &impl Abort, alloc: Global) -> Result<Problem, AllocError> {
    let sites = Vec::from_slice(alloc, &[site(5, 0, 0), site(5, 0, 0)])?;
    let mut needs = Vec::new(alloc);
    let via = Items::from_slice(alloc, &[0, 1])?;
    needs.push(Need { load: 3, via })?;
    let via = Items::from_slice(alloc, &[1])?;
    needs.push(Need { load: 3, via })?;
    assert!(rt; is_within(&sites, &needs), "a problem within the limits");
    Ok(Problem::new(sites, needs))
}

#[test]
fn wrong_leaves_without_a_choice(rt: HostRuntime) -> Result<(), Fail> {
    let problem = two_prices(&rt, rt.alloc(), 0)?;
    let table = [
        ("over", TreeWhy::NotOver),
        ("full", TreeWhy::Depth),
        ("hall 0", TreeWhy::HallSet),
        ("hall 2 0 1", TreeWhy::HallLoad),
        ("dual 1 0 2 0 0", TreeWhy::DualShape),
        ("dual 2 13 0 2 0 0", TreeWhy::DualSum { switch: 0 }),
    ];
    for (lines, why) in table {
        refuses(&rt, rt.alloc(), &problem, lines, 0, why)?;
    }
    Ok(())
}

#[test]
fn wrong_last_leaves(rt: HostRuntime) -> Result<(), Fail> {
    let problem = two_prices(&rt, rt.alloc(), 0)?;
    let table = [
        ("branch 2\nfull\nover", 6, TreeWhy::NotOver),
        ("branch 2\nfull\ndual 0 2 0 0", 6, TreeWhy::Depth),
        ("hall 1 0", 4, TreeWhy::HallSet),
        ("hall 1 1", 4, TreeWhy::HallLoad),
        ("dual 1 0 1 0", 4, TreeWhy::DualShape),
        ("dual 1 5 2 0 0", 4, TreeWhy::DualSum { switch: 1 }),
    ];
    for (lines, node, why) in table {
        let lines = format!(in rt.alloc(); "branch 2\nbranch 2\nfull\nfull\n{lines}")?;
        refuses(&rt, rt.alloc(), &problem, lines.as_str(), node, why)?;
    }
    Ok(())
}

#[test]
fn branches_with_other_numbers_of_children(rt: HostRuntime) -> Result<(), Fail> {
    let problem = two_prices(&rt, rt.alloc(), 0)?;
    let last = "branch 2\nbranch 2\nfull\nfull\nbranch 1\nfull";
    refuses(
        &rt,
        rt.alloc(),
        &problem,
        "branch 1\nfull",
        0,
        TreeWhy::Children,
    )?;
    refuses(&rt, rt.alloc(), &problem, last, 4, TreeWhy::Children)
}

// A load of 5 is above a capacity of 4.
#[test]
fn leaves_over_a_capacity(rt: HostRuntime) -> Result<(), Fail> {
    let lines = "branch 2\nfull\nfull";
    let sites = [site(4, 0, 0), site(5, 0, 0)];
    let first = problem(&rt, rt.alloc(), &sites, 5, &[0, 1], 1)?;
    refuses(&rt, rt.alloc(), &first, lines, 1, TreeWhy::IsOver)?;
    let last = problem(&rt, rt.alloc(), &sites, 5, &[1, 0], 1)?;
    refuses(&rt, rt.alloc(), &last, lines, 2, TreeWhy::IsOver)
}

#[test]
fn branches_over_crowded_needs(rt: HostRuntime) -> Result<(), Fail> {
    let first = too_small(&rt, rt.alloc())?;
    let lines = "branch 1\nbranch 1\nover";
    refuses(&rt, rt.alloc(), &first, lines, 0, TreeWhy::Idle)?;
    let last = one_choice(&rt, rt.alloc())?;
    let lines = "branch 2\nbranch 1\nfull\nbranch 1\nover";
    refuses(&rt, rt.alloc(), &last, lines, 3, TreeWhy::Idle)
}
