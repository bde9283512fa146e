//! A crew that answers nothing before two of its children were out together.
//!
//! - `pair_crew`: `PairCrew`, which meets the trait `Spawner` over any other crew
//!
//! A body that runs one child after another never gets a reply of it.
#![tactic(auto)]

mod pair_crew;

pub use pair_crew::PairCrew;
