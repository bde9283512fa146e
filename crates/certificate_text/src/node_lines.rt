//! The nodes of a tree, a line for each in preorder.
ghost use Rattle.std.specs.Prelude.{◌≡◌, ◌<◌, ◌≤◌, ◌+◌, ◌^◌, length, IfOk, IfErr, IsTrue, MatchOption, if◌then◌else◌};
ghost use Rattle.certificate_text.specs.Cursor.{HasPassed};
ghost use Rattle.bound_certificate.specs.Formed.{is_formed_part};
ghost use Rattle.certificate_text.specs.NodeHead.{head_part, IsSound};
ghost use Rattle.certificate_text.specs.Parts.{CanStand};
ghost use Rattle.certificate_text.specs.NodeLines.{ReadsNode, IsHeadRead, IsTreeRead, AreTreesRead, IsStopped, AreStopped};
ghost use Rattle.bound_certificate.specs.Tree.{is_branch};

use crate::cursor::Cursor;
use crate::fault::CertFault;
use crate::line::read_line;
use crate::node_head::NodeHead;
use bound_certificate::Tree;
use mon_io::Memory;
use sqlite_items::Items;
use std::alloc::Global;

/// The tree whose root stands on the next line, at this depth; the cursor moves behind its lines. An error of a
/// line has the first one on which no such tree goes on.
#[cycle(node_lines)]
pub(crate) fn read_tree(alloc: Global, cursor: &mut Cursor, depth: u8) -> Result<Tree, CertFault>
    requires depth { depth ≤ 64 }
    requires room { cursor.old.number + length cursor.old.rest.now < 2 ^ 32 }
    ensures ok { IfOk result (IsTreeRead depth cursor.old cursor.new) }
    ensures err { IfErr result (IsStopped depth cursor.old) }
{
    match read_head(alloc, cursor, depth)? {
        NodeHead::Branch(count) => {
            let children = read_trees(alloc, cursor, depth + 1, count)?;
            Ok(Tree::Branch(children))
        }
        NodeHead::Over => Ok(Tree::Over),
        NodeHead::Hall(names) => Ok(Tree::Hall(names)),
        NodeHead::Dual { lambda, mu } => Ok(Tree::Dual { lambda, mu }),
        NodeHead::Full => Ok(Tree::Full),
    }
}

// So many trees of this depth, one behind the other.
#[cycle(node_lines)]
fn read_trees(
    alloc: Global,
    cursor: &mut Cursor,
    depth: u8,
    count: u8,
) -> Result<Items<Tree>, CertFault>
    requires depth { depth ≤ 64 }
    requires room { cursor.old.number + length cursor.old.rest.now < 2 ^ 32 }
    ensures size { IfOk result (λ trees. length trees ≡ count) }
    ensures ok { IfOk result (AreTreesRead depth cursor.old cursor.new) }
    ensures err { IfErr result (AreStopped depth count cursor.old) }
{
    let mut trees = Items::new(alloc);
    for _ in 0..count {
        let tree = read_tree(alloc, cursor, depth)?;
        if trees.push(tree).is_err() {
            return Err(CertFault::Memory);
        }
    }
    Ok(trees)
}

// The node of the next line, if it can stand at this depth.
fn read_head(alloc: Global, cursor: &mut Cursor, depth: u8) -> Result<NodeHead, CertFault>
    requires { cursor.old.number + length cursor.old.rest.now < 2 ^ 32 }
    ensures ok { IfOk result (IsHeadRead depth cursor.old cursor.new) }
    ensures err { IfErr result (IsStopped depth cursor.old) }
{
    let line = cursor.number;
    let Ok(read) = read_node(alloc, cursor) else {
        return Err(CertFault::Memory);
    };
    let Some(head) = read else {
        return Err(CertFault::Line { line });
    };
    let Some(left) = branches_behind(&head, depth, cursor.branches) else {
        return Err(CertFault::Line { line });
    };
    cursor.branches = left;
    Ok(head)
}

// The node of the next line, if that is a node's.
fn read_node(alloc: Global, cursor: &mut Cursor) -> Result<Option<NodeHead>, Memory>
    requires { cursor.old.number + length cursor.old.rest.now < 2 ^ 32 }
    ensures { IfOk result (ReadsNode cursor.old cursor.new) }
{
    match cursor.next() {
        None => Ok(None),
        Some(line) => read_line(alloc, line),
    }
}

// How many more Branch nodes there may be behind a node; None where it can't stand at this depth, or is one Branch
// too many.
fn branches_behind(head: &NodeHead, depth: u8, branches: u32) -> Option<u32>
    requires { IsSound (head_part head.now) }
    ensures { MatchOption result (CanStand depth branches (head_part head.now) → ⊥) (λ left.
        IsTrue (is_formed_part depth (head_part head.now))
        × (branches ≡ (if is_branch (head_part head.now) then 1 else 0) + left)) }
{
    match head {
        NodeHead::Branch(_) if depth < 64 => branches.checked_sub(1),
        NodeHead::Branch(_) => None,
        NodeHead::Over => Some(branches),
        NodeHead::Hall(_) => Some(branches),
        NodeHead::Dual { lambda: _, mu: _ } => Some(branches),
        NodeHead::Full => Some(branches),
    }
}
