//! What a search found.
ghost use Rattle.std.specs.Prelude.{◌≡◌};
ghost use Rattle.bound_certificate.specs.Outcome.{tree_of};

use crate::placement::Placement;
use crate::tree::Tree;
use crate::verdict::TreeFault;

/// What a search with a limit on its Branch nodes found, and the tree that shows it.
#[derive(Debug, Drop)]
pub enum Outcome {
    /// A placement. It is of least cost where the tree's bound is its cost.
    Placed { placement: Placement, tree: Tree },
    /// No placement fits.
    Infeasible { tree: Tree },
    /// All nodes were spent, and no placement was found.
    Spent { tree: Tree },
}

/// Why an outcome isn't right.
#[derive(Clone, Copy, Debug, PartialEq, Eq)]
pub enum OutcomeFault {
    /// A node of the tree is wrong.
    Tree(TreeFault),
    /// The tree has more Branch nodes than the search had.
    Branches,
    /// The placement does not fit.
    Placement,
    /// The bound, or what goes with it, isn't what the outcome says.
    Bound,
}

impl Outcome {
    /// The tree that shows it.
    pub fn tree(&self) -> &Tree
        ensures value { result.now ≡ tree_of self.now }
    {
        match self {
            Outcome::Placed { placement: _, tree } => tree,
            Outcome::Infeasible { tree } => tree,
            Outcome::Spent { tree } => tree,
        }
    }
}
