//! Laws on what a finished measure tells where its children are honest. No code.
//!
//! `laws` are three: that two such measures of one input and one accepted outcome have one text, however their children
//! failed, were restarted and repeated themselves; that a sketch with every live key has the lines of `central`; and that
//! a measure has them where no heap dropped a key. `specs/Central.antt` says which lines of `central` these are.
#![tactic(auto)]

mod laws;

pub use laws::{as_central, central_blocks, equal_texts};
