//! A need that takes no memory.

use crate::Via;

/// A need of a solve job as it was read: its load, and the numbers of the sites that can serve it.
#[derive(Debug, Drop)]
pub struct HeldNeed {
    /// The load that it puts on the site that serves it.
    pub load: u16,
    /// The sites that can serve it, by their places in the problem.
    pub via: Via,
}
