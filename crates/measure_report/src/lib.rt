//! The text of a finished measure: what the switches of a topology have sketched together, epoch by epoch.
//!
//! - `counts`: `Counts`, the numbers of the trace
//! - `run`: `Run`, what is reported beside the sketches of the epochs
//! - `report`: `write_report`, the whole text
//! - `head`: the lines ahead of those of the epochs; `placement`: those of the placement
//! - `epochs`: the lines of the epochs
//! - `laws`: that the text is one function of the packets and the sketches of its epochs
//!
//! `specs/Report.antt` says the text, and `specs/Run.antt` what clauses see of a run. A brief run has the few lines
//! that name no path, no switch and no key.
#![tactic(auto)]

mod counts;
mod epochs;
mod head;
mod laws;
mod placement;
mod report;
mod run;

pub use counts::Counts;
pub use laws::one_report;
pub use report::write_report;
pub use run::Run;
