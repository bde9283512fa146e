//! A crew that fails and answers by a script, and tells its log.
//!
//! - `act`: `Act`, what a wait is to give; the next act of a script
//! - `scripted_crew`: `ScriptedCrew`, which meets the trait `Spawner` over any `Answerer`
//!
//! Exactly the calls whose tickets are listed fail, and a start where 64 tickets are out. The acts come in order, and
//! one of a ticket that was never started is passed over. `specs/Script.antt` says which logs a script allows.
#![tactic(auto)]

mod act;
mod scripted_crew;

pub use act::Act;
pub use scripted_crew::ScriptedCrew;
