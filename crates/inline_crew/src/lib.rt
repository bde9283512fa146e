//! A crew that answers in this process, and tells its log.
//!
//! - `inline_crew`: `InlineCrew`, which meets the trait `Spawner` over any `Answerer`
//!
//! It keeps what is fed and answers the oldest ticket when it is waited for. Where its answerer tells what the answers
//! are, each reply of the log answers what was fed to its ticket.
#![tactic(auto)]

mod inline_crew;

pub use inline_crew::InlineCrew;
