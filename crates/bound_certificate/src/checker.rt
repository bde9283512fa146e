//! The check of a tree, node by node in preorder.
ghost use Rattle.std.specs.Prelude.{◌≡◌, ◌≤◌, ◌<◌, ◌+◌, ◌^◌, ℕ, List, [], None, Some, length, map, sum, IsTrue, IfOk, IfErr, pos};
ghost use Rattle.std.specs.List.{list_all};
ghost use Rattle.bound_certificate.specs.Problem.{need_count, via};
ghost use Rattle.bound_certificate.specs.Placement.{AreChoices, fits, cost};
ghost use Rattle.bound_certificate.specs.Node.{node_fault};
ghost use Rattle.bound_certificate.specs.Tree.{part_of, children_of, part_verdict, visits, below, first_fault, verdict_of};
ghost use Rattle.bound_certificate.specs.Formed.{is_formed, is_formed_at, is_formed_part, nodes};
ghost use Rattle.bound_certificate.specs.Bound.{IsBelow};
ghost use Rattle.bound_certificate.specs.Checked.{Adds, IsTallied};

use crate::choices::cost_of;
use crate::dual::dual_value;
use crate::node::node_fault;
use crate::numbers::Numbers;
use crate::tally::Tally;
use crate::{Problem, Tree, TreeFault, Verdict, children};

/// What a tree says, or its first wrong node in preorder with the first reason. Where it says a bound, every
/// placement that fits costs at least that; where the bound is None, none fits. Takes no memory.
///
/// The tree is within its limits: up to 4,096 Branch nodes of 1 to 8 children at depths below 64, Halls of up
/// to 64 needs, each below 64, Duals of up to 64 lambdas and 32 mus, all below 2^56.
pub fn check(problem: &Problem, tree: &Tree) -> Result<Verdict, TreeFault>
    requires { IsTrue (is_formed tree.now) }
    ensures ok { IfOk result (λ verdict. (first_fault problem.now 0 (visits problem.now tree.now []) ≡ None)
        × (verdict ≡ verdict_of problem.now (visits problem.now tree.now []))) }
    ensures err { IfErr result (λ fault. first_fault problem.now 0 (visits problem.now tree.now []) ≡ Some fault) }
    ensures below { IfOk result (λ verdict. (placement : List ℕ) → IsTrue (fits problem.now placement)
        → IsBelow verdict.bound (cost problem.now placement)) }
{
    // Its sites are within their limits, so that each via names one of them.
    let _sites = problem.sites();
    match check_at(problem, tree, &Numbers::new(), 0) {
        Ok(tally) => Ok(tally.verdict),
        Err(fault) => Err(fault),
    }
}

// The check of a tree that these choices lead to, whose root has this number.
#[cycle(certificate)]
fn check_at(
    problem: &Problem,
    tree: &Tree,
    choices: &Numbers,
    number: u32,
) -> Result<Tally, TreeFault>
    requires choices { AreChoices problem.now choices.now }
    requires formed { IsTrue (is_formed_at tree.now (length choices.now)) }
    requires count { number + nodes tree.now < 2 ^ 32 }
    ensures ok { IfOk result (IsTallied problem.now number (visits problem.now tree.now choices.now)) }
    ensures err { IfErr result (λ fault. first_fault problem.now number (visits problem.now tree.now choices.now)
        ≡ Some fault) }
{
    if let Some(why) = node_fault(problem, choices.as_slice(), tree) {
        return Err(TreeFault { node: number, why });
    }
    let own = Tally {
        verdict: own_verdict(problem, choices.as_slice(), tree),
        nodes: 1,
    };
    check_children(problem, children(tree), choices, number, own)
}

// The check of a node's children, added to what the node says by itself.
#[cycle(certificate)]
fn check_children(
    problem: &Problem,
    children: &[Tree],
    choices: &Numbers,
    number: u32,
    own: Tally,
) -> Result<Tally, TreeFault>
    requires choices { AreChoices problem.now choices.now }
    requires depth { 0 < length children.now → length choices.now < need_count problem.now }
    requires fan { length children.now ≤ length (via problem.now (length choices.now)) }
    requires formed { IsTrue (list_all (λ child. child (length choices.now + 1)) (map is_formed_at children.now)) }
    requires count { number + own.nodes + sum (map nodes children.now) < 2 ^ 32 }
    requires few { own.verdict.branches ≤ own.nodes }
    ensures ok { IfOk result (Adds problem.now number own
        (below problem.now choices.now 0 (map (visits problem.now) children.now))) }
    ensures err { IfErr result (λ fault. first_fault problem.now (number + own.nodes)
        (below problem.now choices.now 0 (map (visits problem.now) children.now)) ≡ Some fault) }
{
    let mut tally = own;
    for (n, child) in children.iter().enumerate() {
        let site = problem.via(choices.len())[n];
        match check_at(problem, child, &choices.with(site), number + tally.nodes) {
            Ok(more) => tally = tally.joined(more),
            Err(fault) => return Err(fault),
        }
    }
    Ok(tally)
}

// What a node says by itself.
fn own_verdict(problem: &Problem, choices: &[u8], tree: &Tree) -> Verdict
    requires choices { AreChoices problem.now choices.now }
    requires formed { IsTrue (is_formed_part (length choices.now) (part_of tree.now)) }
    requires right { node_fault problem.now choices.now (part_of tree.now) ≡ None }
    ensures { result ≡ part_verdict problem.now choices.now (part_of tree.now) }
{
    let (bound, branches, full) = match tree {
        Tree::Branch(_) => (None, 1, false),
        Tree::Over => (None, 0, false),
        Tree::Hall(_) => (None, 0, false),
        Tree::Dual { lambda, mu } => {
            let value = dual_value(problem, choices, lambda.as_slice(), mu.as_slice());
            (Some(value), 0, false)
        }
        Tree::Full => (Some(i128::from(cost_of(problem, choices))), 0, true),
    };
    Verdict {
        bound,
        branches,
        full,
    }
}
