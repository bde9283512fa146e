//! Small problems worked by hand, and what the search finds.

use bound_certificate::{
    Need, Outcome, OutcomeFault, Problem, Site, Tree, Verdict, check_outcome, is_formed, is_within,
};
use certificate_text::{read_tree_text, tree_text};
use placement_search::search;
use sqlite_items::Items;
use std::alloc::{AllocError, Global};
use std::process::Abort;
use std::test::Fail;

fn site(capacity: u32, opening: u32, unit: u16) -> Site {
    Site {
        capacity,
        opening,
        unit,
    }
}

// So many needs of this load, each with this via.
fn problem(
    rt: &impl Abort,
    alloc: Global,
    sites: &[Site],
    load: u16,
    via: &[u8],
    count: usize,
) -> Result<Problem, AllocError> {
    let mut needs = Vec::new(alloc);
    for _ in 0..count {
        let via = Items::from_slice(alloc, via)?;
        needs.push(Need { load, via })?;
    }
    let sites = Vec::from_slice(alloc, sites)?;
    assert!(rt; is_within(&sites, &needs), "a problem within the limits");
    Ok(Problem::new(sites, needs))
}

// Two sites of capacity 5 for three needs of 3.
fn too_coarse(rt: &impl Abort, alloc: Global) -> Result<Problem, AllocError> {
    problem(rt, alloc, &[site(5, 0, 0), site(5, 0, 0)], 3, &[0, 1], 3)
}

// The judgement of an outcome, which is right.
fn verdict(
    rt: &impl Abort,
    problem: &Problem,
    nodes: u32,
    outcome: &Outcome,
) -> Result<Verdict, OutcomeFault> {
    assert!(rt; is_formed(outcome.tree()), "a tree within its limits");
    check_outcome(problem, nodes, outcome)
}

// A letter for each node in preorder: b for a Branch, o for Over, and x for another one.
fn letters(tree: &Tree, text: &mut Items<u8>) -> Result<(), AllocError> {
    match tree {
        Tree::Branch(children) => {
            text.push(b'b')?;
            for child in children.as_slice() {
                letters(child, text)?;
            }
            Ok(())
        }
        Tree::Over => text.push(b'o'),
        _ => text.push(b'x'),
    }
}

#[test]
fn two_needs_of_five_are_above_eight(rt: HostRuntime) -> Result<(), Fail> {
    let problem = problem(&rt, rt.alloc(), &[site(8, 0, 0)], 5, &[0], 2)?;
    let outcome = search(rt.alloc(), &problem, 1024).expect(&rt, "ample memory");
    let Outcome::Infeasible {
        tree: Tree::Hall(names),
    } = outcome
    else {
        return Err("one Hall leaf".into());
    };
    assert_eq!(rt; names.as_slice(), [0, 1].as_slice());
    Ok(())
}

#[test]
fn five_branches_show_that_none_fits(rt: HostRuntime) -> Result<(), Fail> {
    let problem = too_coarse(&rt, rt.alloc())?;
    let outcome = search(rt.alloc(), &problem, 1024).expect(&rt, "ample memory");
    let Outcome::Infeasible { tree } = outcome else {
        return Err("none fits".into());
    };
    let mut text = Items::new(rt.alloc());
    letters(&tree, &mut text)?;
    assert_eq!(rt; text.as_slice(), b"bboboobbooo".as_slice());
    Ok(())
}

#[test]
fn two_branches_are_spent(rt: HostRuntime) -> Result<(), Fail> {
    let problem = too_coarse(&rt, rt.alloc())?;
    let outcome = search(rt.alloc(), &problem, 2).expect(&rt, "ample memory");
    let found = verdict(&rt, &problem, 2, &outcome).map_err(|_| "a right outcome")?;
    assert_eq!(rt; found.branches, 2);
    assert!(rt;
        matches!(outcome, Outcome::Spent { .. }),
        "no placement was found"
    );
    Ok(())
}

#[test]
fn the_dear_site_is_cheaper_for_both(rt: HostRuntime) -> Result<(), Fail> {
    let sites = [site(10, 5, 1), site(10, 12, 0)];
    let problem = problem(&rt, rt.alloc(), &sites, 4, &[0, 1], 2)?;
    let outcome = search(rt.alloc(), &problem, 1024).expect(&rt, "ample memory");
    let found = verdict(&rt, &problem, 1024, &outcome).map_err(|_| "a right outcome")?;
    assert_eq!(rt; found.bound, Some(12));
    let Outcome::Placed { placement, tree: _ } = &outcome else {
        return Err("a placement".into());
    };
    assert_eq!(rt; placement.sites.as_slice(), [1, 1].as_slice());
    Ok(())
}

// Twelve sites and thirty needs with three sites each.
fn generated(rt: &impl Abort, alloc: Global) -> Result<Problem, AllocError> {
    let mut sites = Vec::new(alloc);
    for s in 0..12u16 {
        sites.push(site(400, 100 + 10 * u32::from(s), 1 + s % 3))?;
    }
    let mut needs = Vec::new(alloc);
    for p in 0..30u16 {
        let via = [(p % 12) as u8, ((p + 1) % 12) as u8, ((p + 5) % 12) as u8];
        let via = Items::from_slice(alloc, &via)?;
        needs.push(Need {
            load: 20 + (7 * p) % 41,
            via,
        })?;
    }
    assert!(rt; is_within(&sites, &needs), "a problem within the limits");
    Ok(Problem::new(sites, needs))
}

#[test]
fn a_generated_problem(rt: HostRuntime) -> Result<(), Fail> {
    let problem = generated(&rt, rt.alloc())?;
    let outcome = search(rt.alloc(), &problem, 64).expect(&rt, "ample memory");
    let found = verdict(&rt, &problem, 64, &outcome).map_err(|_| "a right outcome")?;
    assert_eq!(rt; found.bound, Some(1765));
    assert_eq!(rt; found.branches, 0);
    Ok(())
}

// The text of a search's tree, behind other lines, is read as a tree with the same text.
fn reads_back(rt: &impl Abort, alloc: Global, problem: &Problem) -> Result<(), Fail> {
    let outcome = search(alloc, problem, 1024).expect(rt, "ample memory");
    let text = tree_text(alloc, outcome.tree()).expect(rt, "ample memory");
    let page = format!(in alloc; "univmon place 1\nnodes 1024\n{text}")?;
    let tree = read_tree_text(alloc, page.as_bytes()).map_err(|_| "a tree's text")?;
    let again = tree_text(alloc, &tree).expect(rt, "ample memory");
    assert_eq!(rt; again, text);
    Ok(())
}

#[test]
fn trees_are_read_back(rt: HostRuntime) -> Result<(), Fail> {
    reads_back(&rt, rt.alloc(), &too_coarse(&rt, rt.alloc())?)?;
    reads_back(&rt, rt.alloc(), &generated(&rt, rt.alloc())?)
}

// The first need has a site of its own, the second a via of eight sites, of which the first and the last have room, and
// the third the first of these alone.
fn long_via(rt: &impl Abort, alloc: Global) -> Result<Problem, AllocError> {
    let full = site(0, 0, 0);
    let sites = [
        site(3, 0, 0),
        full,
        full,
        full,
        full,
        full,
        full,
        site(3, 0, 1),
        site(1, 0, 0),
    ];
    let mut needs = Vec::new(alloc);
    let via = Items::from_slice(alloc, &[8])?;
    needs.push(Need { load: 1, via })?;
    let via = Items::from_slice(alloc, &[0, 1, 2, 3, 4, 5, 6, 7])?;
    needs.push(Need { load: 3, via })?;
    let via = Items::from_slice(alloc, &[0])?;
    needs.push(Need { load: 3, via })?;
    let sites = Vec::from_slice(alloc, &sites)?;
    assert!(rt; is_within(&sites, &needs), "a problem within the limits");
    Ok(Problem::new(sites, needs))
}

// One Branch node fixes the first need alone, and first fit fills the third need's site with the second.
#[test]
fn the_last_site_of_a_long_via_is_found(rt: HostRuntime) -> Result<(), Fail> {
    let problem = long_via(&rt, rt.alloc())?;
    let outcome = search(rt.alloc(), &problem, 1).expect(&rt, "ample memory");
    let Outcome::Placed { placement, tree: _ } = &outcome else {
        return Err("a placement".into());
    };
    assert_eq!(rt; placement.sites.as_slice(), [8, 7, 0].as_slice());
    Ok(())
}
