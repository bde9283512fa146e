//! Trees from bytes.
ghost use Rattle.std.specs.Prelude.{◌≡◌, ◌≤◌, ◌<◌, ◌+◌, ◌⊎◌, ℕ, Result, Err, IfOk, sum, map};
ghost use Rattle.std.specs.List.{flat_map};
ghost use Rattle.certificate_text.specs.Bytes.{bytes_of};
ghost use Rattle.bound_certificate.specs.Formed.{branches};
ghost use Rattle.certificate_text.specs.NodeHead.{head_part};
ghost use Rattle.certificate_text.specs.ReadBytes.{ReadsBytes};
ghost use Rattle.certificate_text.specs.ReadNode.{own_branches};
ghost use Rattle.certificate_text.specs.Reading.{Reads, One, Several};
ghost use Rattle.certificate_text.specs.ReadTree.{IsFormedAt, followers, grown};
ghost use Rattle.certificate_text.specs.declared.fault.TreeBytesFault.{TreeBytesFault};
ghost use Rattle.certificate_text.specs.declared.fault.TreeBytesFault.TheVariants.{Memory};
ghost use Rattle.bound_certificate.specs.declared.tree.Tree.{Tree};

use crate::fault::TreeBytesFault;
use crate::node_bytes::{read_head, rest_of};
use crate::node_head::NodeHead;
use bound_certificate::Tree;
use sqlite_items::Items;
use std::alloc::Global;

/// The tree whose bytes stand at the front, whatever follows them, and how many bytes it takes.
///
/// `Short` where the bytes end inside a tree, `Shape` where no tree within the limits has such bytes at its front.
/// Takes memory.
pub fn read_tree_bytes(alloc: Global, bytes: &[u8]) -> Result<(Tree, usize), TreeBytesFault>
    ensures reads { (result ≡ Err Memory) ⊎ ReadsBytes bytes.now result }

    // No other answer would do.
    ensures alone { (other : Result (Tree × ℕ) TreeBytesFault) → ReadsBytes bytes.now other →
        (result ≡ Err Memory) ⊎ (result ≡ other) }
{
    let mut left = 4096;
    read_tree(alloc, bytes, 0, &mut left)
}

// A tree whose root has this depth, where so many Branch nodes are left.
#[cycle(reading)]
fn read_tree(
    alloc: Global,
    bytes: &[u8],
    depth: u8,
    left: &mut u16,
) -> Result<(Tree, usize), TreeBytesFault>
    requires { depth ≤ 64 }
    ensures reads { Reads (One (IsFormedAt depth) branches left.old) bytes_of bytes.now result }
    ensures left { IfOk result (λ read. left.new + branches read.0 ≡ left.old) }
{
    let (head, start) = match read_head(alloc, bytes, depth, *left) {
        Ok(read) => read,
        Err(fault) => return Err(fault),
    };
    let count = followers(&head);
    *left -= own_branches(&head);
    match read_trees(alloc, rest_of(bytes, start), depth + 1, count, left) {
        Ok((children, taken)) => Ok((grown(head, children), start + taken)),
        Err(fault) => Err(fault),
    }
}

// So many trees of this depth.
#[cycle(reading)]
fn read_trees(
    alloc: Global,
    bytes: &[u8],
    depth: u8,
    count: u8,
    left: &mut u16,
) -> Result<(Items<Tree>, usize), TreeBytesFault>
    requires { 0 < count → depth ≤ 64 }
    ensures reads { Reads (Several (IsFormedAt depth) branches count left.old) (λ trees. flat_map bytes_of trees)
        bytes.now result }
    ensures left { IfOk result (λ read. left.new + sum (map branches read.0) ≡ left.old) }
{
    let mut trees = Items::new(alloc);
    let mut at = 0;
    for _ in 0..count {
        let (tree, taken) = match read_tree(alloc, rest_of(bytes, at), depth, left) {
            Ok(read) => read,
            Err(fault) => return Err(fault),
        };
        let Ok(()) = trees.push(tree) else {
            return Err(TreeBytesFault::Memory);
        };
        at += taken;
    }
    Ok((trees, at))
}

// How many children follow a node.
fn followers(head: &NodeHead) -> u8
    ensures { result ≡ followers head.now }
{
    match head {
        NodeHead::Branch(count) => *count,
        NodeHead::Over => 0,
        NodeHead::Hall(_) => 0,
        NodeHead::Dual { lambda: _, mu: _ } => 0,
        NodeHead::Full => 0,
    }
}

// Whether a node is a Branch, as a number.
fn own_branches(head: &NodeHead) -> u16
    ensures { result ≡ own_branches (head_part head.now) }
{
    match head {
        NodeHead::Branch(_) => 1,
        NodeHead::Over => 0,
        NodeHead::Hall(_) => 0,
        NodeHead::Dual { lambda: _, mu: _ } => 0,
        NodeHead::Full => 0,
    }
}

// A node with its children.
fn grown(head: NodeHead, children: Items<Tree>) -> Tree
    ensures { result ≡ grown head children }
{
    match head {
        NodeHead::Branch(_) => Tree::Branch(children),
        NodeHead::Over => Tree::Over,
        NodeHead::Hall(names) => Tree::Hall(names),
        NodeHead::Dual { lambda, mu } => Tree::Dual { lambda, mu },
        NodeHead::Full => Tree::Full,
    }
}
