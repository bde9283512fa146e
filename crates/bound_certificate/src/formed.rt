//! The limits of a tree, as a test.
ghost use Rattle.std.specs.Prelude.{◌≡◌, ◌≤◌, ◌<◌, ◌+◌, ◌&&◌, nat_le, nat_lt, min, length, map, sum, ◌^◌, if◌then◌else◌};
ghost use Rattle.std.specs.List.{list_all};
ghost use Rattle.bound_certificate.specs.Node.{Part};
ghost use Rattle.bound_certificate.specs.Tree.{part_of, is_branch};
ghost use Rattle.bound_certificate.specs.Formed.{branches, are_prices, is_formed_part, is_formed_at, is_formed};

use crate::{Tree, children};

/// Whether a tree is within the limits: up to 4,096 Branch nodes of 1 to 8 children at depths below 64, Halls of
/// up to 64 needs, each below 64, Duals of up to 64 lambdas and 32 mus, all below 2^56. Takes no memory.
#[tactic(auto, unfolding(crate::specs::Formed::is_formed))]
pub fn is_formed(tree: &Tree) -> bool
    ensures value { result ≡ is_formed tree.now }
{
    is_formed_at(tree, 0) && branches_up_to(tree, 4097) <= 4096
}

// Whether a tree whose root has this depth is within the limits of each node.
#[cycle(formed)]
fn is_formed_at(tree: &Tree, depth: u8) -> bool
    requires { depth ≤ 64 }
    ensures { result ≡ is_formed_at tree.now depth }
{
    is_formed_part(tree, depth) && are_formed_at(children(tree), depth + 1)
}

#[cycle(formed)]
fn are_formed_at(trees: &[Tree], depth: u8) -> bool
    requires { 0 < length trees.now → depth ≤ 64 }
    ensures { result ≡ list_all (λ child. child depth) (map is_formed_at trees.now) }
{
    for tree in trees {
        if !is_formed_at(tree, depth) {
            return false;
        }
    }
    true
}

// Whether one node of this depth is.
fn is_formed_part(tree: &Tree, depth: u8) -> bool
    ensures { result ≡ is_formed_part depth (part_of tree.now) }
{
    match tree {
        Tree::Branch(children) => is_formed_branch(depth, children.len()),
        Tree::Over => true,
        Tree::Hall(names) => is_formed_hall(names.as_slice()),
        Tree::Dual { lambda, mu } => is_formed_dual(lambda.as_slice(), mu.as_slice()),
        Tree::Full => true,
    }
}

fn is_formed_branch(depth: u8, children: usize) -> bool
    ensures { result ≡ (nat_lt depth 64 && nat_le 1 children && nat_le children 8) }
{
    depth < 64 && children >= 1 && children <= 8
}

fn is_formed_hall(names: &[u8]) -> bool
    ensures { result ≡ (nat_le (length names.now) 64 && list_all (λ x. nat_lt x 64) names.now) }
{
    names.len() <= 64 && are_names(names)
}

/// Whether all of these numbers are below 64, as those of a Hall have to be.
pub fn are_names(names: &[u8]) -> bool
    ensures { result ≡ list_all (λ x. nat_lt x 64) names.now }
{
    names.iter().all(|name| *name < 64)
}

fn is_formed_dual(lambda: &[u64], mu: &[u64]) -> bool
    ensures { result ≡ (nat_le (length lambda.now) 64 && nat_le (length mu.now) 32
        && are_prices lambda.now && are_prices mu.now) }
{
    lambda.len() <= 64 && mu.len() <= 32 && are_prices(lambda) && are_prices(mu)
}

// Whether all of these numbers are below 2^56.
fn are_prices(numbers: &[u64]) -> bool
    ensures { result ≡ are_prices numbers.now }
{
    numbers.iter().all(|number| *number < 1 << 56)
}

// How many Branch nodes a tree has, or the limit where they are more.
#[cycle(counted)]
fn branches_up_to(tree: &Tree, limit: u32) -> u32
    requires { limit < 2 ^ 16 }
    ensures { result ≡ min (branches tree.now) limit }
{
    (own_branches(tree) + all_branches_up_to(children(tree), limit)).min(limit)
}

// Whether a node is a Branch, as a number.
fn own_branches(tree: &Tree) -> u32
    ensures value { result ≡ (if is_branch (part_of tree.now) then 1 else 0) }
    ensures few { result ≤ 1 }
{
    match tree {
        Tree::Branch(_) => 1,
        Tree::Over => 0,
        Tree::Hall(_) => 0,
        Tree::Dual { lambda: _, mu: _ } => 0,
        Tree::Full => 0,
    }
}

#[cycle(counted)]
fn all_branches_up_to(trees: &[Tree], limit: u32) -> u32
    requires { limit < 2 ^ 16 }
    ensures { result ≡ min (sum (map branches trees.now)) limit }
{
    let mut count = 0;
    for tree in trees {
        count = (count + branches_up_to(tree, limit)).min(limit);
    }
    count
}
