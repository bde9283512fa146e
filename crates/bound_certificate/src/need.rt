//! A need that some site has to serve.

use sqlite_items::Items;

/// A need: its load, and the numbers of the sites that can serve it, in the order of preference.
#[derive(Debug, Drop)]
pub struct Need {
    /// The load that it puts on the site that serves it.
    pub load: u16,
    /// The sites that can serve it, by their places in the problem.
    pub via: Items<u8>,
}
