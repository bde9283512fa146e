//! The nodes of a certificate.
ghost use Rattle.std.specs.Prelude.{◌≡◌};
ghost use Rattle.bound_certificate.specs.Tree.{children_of};

use sqlite_items::Items;

/// A tree that proves a bound below the cost of every placement that fits. A node of depth d fixes the sites
/// of the first d needs, and each path from the root chooses them.
#[derive(Debug, Drop)]
pub enum Tree {
    /// Child n fixes the next need to the n-th site of its via.
    Branch(Items<Tree>),
    /// The site of the last choice is above its capacity.
    Over,
    /// The loads of these needs together are above what the sites of their vias have left.
    Hall(Items<u8>),
    /// A price for each later need and for each unit of a site's capacity, which bound the cost from below.
    Dual { lambda: Items<u64>, mu: Items<u64> },
    /// The choices are a placement.
    Full,
}

/// The children of a node: none where it is no Branch.
pub fn children(tree: &Tree) -> &[Tree]
    ensures value { result.now ≡ children_of tree.now }
{
    match tree {
        Tree::Branch(children) => children.as_slice(),
        _ => &[],
    }
}
