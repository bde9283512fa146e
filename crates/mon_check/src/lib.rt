//! The command `check`: a tree against a topology, and the bound that it proves.
//!
//! - `checking`: `check_tree`, the command; `certificate_file`: its tree
//!
//! `specs/Checked.antt` says the text, and why a certificate is refused; `specs/Duty.antt` says what the command owes.
#![tactic(auto)]

mod certificate_file;
mod checking;

pub use checking::check_tree;
