//! What a certificate says, or why it is none.

/// What a tree without a fault says.
#[derive(Clone, Copy, Debug, PartialEq, Eq)]
pub struct Verdict {
    /// A number that no placement that fits costs less than; None where none fits.
    pub bound: Option<i128>,
    /// How many Branch nodes the tree has.
    pub branches: u32,
    /// Whether it has a Full leaf.
    pub full: bool,
}

/// The first wrong node of a tree.
#[derive(Clone, Copy, Debug, PartialEq, Eq)]
pub struct TreeFault {
    /// The node's number in preorder, from 0.
    pub node: u32,
    /// The first reason, in the order of the variants.
    pub why: TreeWhy,
}

/// Why a node is wrong.
#[derive(Clone, Copy, Debug, PartialEq, Eq)]
pub enum TreeWhy {
    /// An Over node at the root, or whose last choice's site is within its capacity.
    NotOver,
    /// Another node whose last choice's site is above its capacity.
    IsOver,
    /// A Branch, Hall or Dual below the last need, or a Full before it.
    Depth,
    /// A Branch that has not one child for each site of the next need's via.
    Children,
    /// A Hall that names no need, a need that has its site or is unknown, or needs that do not ascend.
    HallSet,
    /// A Hall whose needs have no more load than the sites of their vias have left.
    HallLoad,
    /// A Dual that has not one lambda for each later need and one mu for each site.
    DualShape,
    /// A Dual whose sum at a site, the least such one, is above the site's limit.
    DualSum {
        /// The number of the site.
        switch: u32,
    },
    /// A Branch all of whose later needs together are above what the sites of their vias have left.
    Idle,
}
