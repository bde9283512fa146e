//! The numbers of a search and of its children.

/// How many nodes the search has, 1 to 4,096; how many children may be out together, 1 to 32; and how many attempts at
/// a job may be bad before it is given up, 0 to 16.
#[derive(Clone, Copy, Debug, PartialEq, Eq)]
pub struct Solving {
    pub nodes: u32,
    pub window: u32,
    pub restarts: u32,
}
