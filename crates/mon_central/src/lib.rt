//! The command `central`: one sketch of each epoch of a trace, its levels and its measures.
//!
//! - `central`: `central` and `central_routed`, the command without and with a topology
//! - `epochs`: a trace as it is read; `dividing`: what is gathered of the epochs; `gathering`: the packets of an epoch
//!   as they are read; `sketching`, `live`: their sketch; `blocks`, `text`: the text
//!
//! `specs/Central.antt` says the text as a function of the setting, the topology and the records of the trace;
//! `specs/Duty.antt` says what the command owes.
#![tactic(auto)]

mod blocks;
mod central;
mod dividing;
mod epochs;
mod gathering;
mod live;
mod sketching;
mod text;

pub use central::{central_alone, central_routed};
