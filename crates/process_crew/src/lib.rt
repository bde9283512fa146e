//! Children as processes: the edge at which a crew meets the system.
//!
//! - `process_crew`: `ProcessCrew`, which meets the trait `Spawner` and tells no log
//! - `running`: a child that was started, and what was read of its output
//!
//! What a child does is not known; what the crew answers of it is counted and named as the trait demands. A child is
//! fed through a pipe, so `feed` waits where the child does not read; `wait` waits for the child's end, and `stop`
//! kills the child before it waits.
#![tactic(auto)]

mod process_crew;
mod running;
#[cfg(test)]
mod tests;

pub use process_crew::ProcessCrew;
