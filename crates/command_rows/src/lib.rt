//! Worked calls of the commands, with their statuses and texts.
//!
//! - `rows`: `total`, `central` and words, and the number and the line of each status; `rows/epochs`: epochs and
//!   topologies; `rows/weights`: weights in original bytes; `rows/check`: `check`; `rows/child`: `child`; `rows/made`:
//!   `generate`, and commands that are unknown; `rows/lines`: the lines of faults and of the ends of a search
//!
//! There is no code here but these tests: each stands on the public calls of `mon_command`.
#![tactic(auto)]

#[cfg(test)]
mod rows;
