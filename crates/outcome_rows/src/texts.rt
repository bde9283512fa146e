//! The texts of outcomes.
use crate::made::{dual, one_switch, placement, priced, two_switches};
use bound_certificate::{Outcome, Tree, Verdict, fits};
use outcome_report::{outcome_text, placement_lines};
use sqlite_items::Items;
use std::test::Fail;

const PLACED: &str = "univmon place 1
nodes 1
outcome placed
cost 13
bound 12
branches 1
path p0 a
path p1 a
switch a load 8 capacity 10
switch b load 0 capacity 10
univmon tree 1
branch 2
dual 1 4 2 0 0
dual 1 0 2 0 0
end
";

const INFEASIBLE: &str = "univmon place 1
nodes 1024
outcome infeasible
branches 0
univmon tree 1
hall 2 0 1
end
";

const SPENT: &str = "univmon place 1
nodes 0
outcome spent
bound -8
branches 0
univmon tree 1
dual 2 0 0 1 1
end
";

const LINES: &str = "path p0 b
path p1 a
switch a load 4 capacity 10
switch b load 4 capacity 10
";

fn verdict(bound: Option<i128>, branches: u32) -> Verdict {
    Verdict {
        bound,
        branches,
        full: false,
    }
}

#[test]
fn a_placement_with_its_tree(rt: HostRuntime) -> Result<(), Fail> {
    let topology = two_switches(&rt, rt.alloc());
    let placement = placement(rt.alloc(), &[0, 0])?;
    assert!(rt;
        fits(topology.problem(), &placement),
        "a placement that fits"
    );
    let tree = priced(rt.alloc())?;
    let outcome = Outcome::Placed { placement, tree };
    let text = outcome_text(rt.alloc(), &topology, 1, &outcome, verdict(Some(12), 1)).expect(
        &rt,
        "ample memory",
    );
    assert_eq!(rt; text.as_str(), PLACED);
    Ok(())
}

#[test]
fn none_fits(rt: HostRuntime) -> Result<(), Fail> {
    let topology = one_switch(&rt, rt.alloc());
    let tree = Tree::Hall(Items::from_slice(rt.alloc(), &[0, 1])?);
    let outcome = Outcome::Infeasible { tree };
    let text = outcome_text(rt.alloc(), &topology, 1024, &outcome, verdict(None, 0)).expect(
        &rt,
        "ample memory",
    );
    assert_eq!(rt; text.as_str(), INFEASIBLE);
    Ok(())
}

#[test]
fn a_bound_below_nothing(rt: HostRuntime) -> Result<(), Fail> {
    let topology = one_switch(&rt, rt.alloc());
    let tree = dual(rt.alloc(), &[0, 0], &[1])?;
    let outcome = Outcome::Spent { tree };
    let text = outcome_text(rt.alloc(), &topology, 0, &outcome, verdict(Some(-8), 0)).expect(
        &rt,
        "ample memory",
    );
    assert_eq!(rt; text.as_str(), SPENT);
    Ok(())
}

#[test]
fn a_path_at_each_switch(rt: HostRuntime) -> Result<(), Fail> {
    let topology = two_switches(&rt, rt.alloc());
    let placement = placement(rt.alloc(), &[1, 0])?;
    assert!(rt;
        fits(topology.problem(), &placement),
        "a placement that fits"
    );
    let lines = placement_lines(rt.alloc(), &topology, &placement).expect(&rt, "ample memory");
    assert_eq!(rt; lines.as_str(), LINES);
    Ok(())
}
