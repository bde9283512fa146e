//! A crew of children that answer jobs: what its calls give, and the log that they write.
//!
//! - `event`: `Event`, what a wait gives; `CrewStop`, why a call stopped
//! - `spawner`: the trait `Spawner`, what every crew does
//! - `answerer`: the trait `Answerer`, which answers a job; `AnswerStop`, why it didn't
//! - `log`: `LogEntry` and `Log`, the log as a crew keeps it that tells it
//!
//! A child is known by its ticket, which is drawn in order. It is fed the pieces of its job, its job is sealed, and
//! it replies or dies. Each return of a call that did not want for memory is one entry of the log, in the order of
//! the returns. Clauses see the newest entry first (`specs/Log.antt`); `specs/Crew.antt` says what each call does
//! to a crew.
#![tactic(auto)]

mod answerer;
mod event;
mod log;
mod spawner;

pub use answerer::{AnswerStop, Answerer};
pub use event::{CrewStop, Event};
pub use log::{Log, LogEntry};
pub use spawner::Spawner;
