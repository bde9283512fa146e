//! Which lists of replies the shares of all epochs stand for, and what is merged of them.
//!
//! - `laws`: what taking a reply does to such a list
//!
//! `specs/Epochs.antt` says the shares of epochs, the places of their replies, and what was merged epoch by epoch.
#![tactic(auto)]

mod laws;

pub use laws::taken_places;
