//! The commands of univmon over any inputs, any crew of children and any sink.
//!
//! - `alone`: `run_alone`, the commands that start nobody
//! - `crewed`: `run`, all commands
//! - `total`: the command `total`; `central`, `check`, `child`, `generate`, `place`, `measure` and `drill` stand in crates
//!   of their own
//! - `statuses`: the number and the line of a status; `topology_line`, `certificate_line`: the lines of the faults of
//!   a topology and of a certificate; `laws`: what the eight digits of a magic number are
//!
//! `specs/Outcome.antt` says how a call is answered: by what its words ask for, each status with its cause, and which
//! inputs were picked. `specs/Measures.antt` says what a call has measured, where `run` tells how a measure ends.
//! `specs/Status.antt` is the table of numbers and lines.
#![tactic(auto)]

mod alone;
mod certificate_line;
mod crewed;
mod laws;
mod statuses;
mod topology_line;
mod total;

pub use alone::run_alone;
pub use crewed::run;
pub use laws::digits_of_a_magic_number;
pub use mon_call::{Input, Phase, Status};
pub use mon_words::{Opt, UsageFault};
pub use routed_trace::TraceFault;
pub use statuses::{status_line, status_number};
