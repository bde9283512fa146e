//! The text of what a search for a placement found.
//!
//! - `outcome`: `outcome_text`, the whole text: the numbers of the search, the placement where there is one, and the
//!   tree that shows it
//! - `placement`: `placement_lines`, a line for each path and for each switch
//! - `loads`: the load that a placement gives to a switch
//!
//! `specs/Outcome.antt` says the lines. Both calls take memory for the text.
#![tactic(auto)]

mod loads;
mod outcome;
mod placement;

pub use outcome::outcome_text;
pub use placement::placement_lines;
