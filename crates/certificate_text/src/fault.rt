//! Why a text or bytes are no tree.

use bound_certificate::TreeWhy;

/// Why a text is no certificate. Lines are numbered from 1 over the whole text, nodes from 0 in preorder.
#[derive(Clone, Copy, Debug, PartialEq, Eq)]
pub enum CertFault {
    /// The text is above 67,108,864 bytes.
    TooLong,
    /// No line is exactly `univmon tree 1`.
    NoTree,
    /// From the head line on, the first line that no tree's text can have there, that is missing, that lacks its
    /// line feed, or that follows the end line.
    Line { line: u32 },
    /// The tree is wrong at this node.
    Node { node: u32, why: TreeWhy },
    /// Memory ran out.
    Memory,
}

/// Why bytes do not begin with a tree.
#[derive(Clone, Copy, Debug, PartialEq, Eq)]
pub enum TreeBytesFault {
    /// They end inside a tree.
    Short,
    /// No tree has these bytes at its front.
    Shape,
    /// Memory ran out.
    Memory,
}
