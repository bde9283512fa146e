//! A child: it reads one job and writes its reply.
//!
//! - `status`: `ChildStatus`, how a child ends
//! - `child`: `answer`, which reads the job from standard input, whatever its pieces, and writes the reply
//! - `worker`: `WorkerAnswer`, which answers jobs in memory
//! - `work`: `Work`, a job that is read, with the sketch of its items so far; `reply`: the reply to
//!   it; `stop`: `WorkStop`, why it isn't answered
//!
//! `specs/Replies.antt` says which bytes answer a job: a spelling of the reply that holds the sketch of its items, or
//! of a right outcome for its problem. `specs/Child.antt` says what each way to end shows; `specs/Work.antt` what was
//! taken and sketched of a job so far, and `specs/Reading.antt` how reading it from an input ends.
#![tactic(auto)]

mod child;
mod reply;
mod status;
mod stop;
mod work;
mod worker;

pub use child::answer;
pub use status::ChildStatus;
pub(crate) use stop::WorkStop;
pub use worker::WorkerAnswer;
