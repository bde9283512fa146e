//! Rows of replays worked by hand, over children that are answered in this process.
//!
//! - `shares`: what the shares of two switches are merged to
//! - `pair`: replays by a crew that answers only once two of its children were out together
#![tactic(auto)]

#[cfg(test)]
mod pair;
#[cfg(test)]
mod shares;
