//! Rows of sums, differences and scans from outside, over the public calls of `lane_kernels`.
//!
//! - `sums`: at each length to 17 and at 2,048, and at the greatest numbers
//! - `scans`: counts, and the place of a single number, at the same lengths
#![tactic(auto)]

#[cfg(test)]
mod scans;
#[cfg(test)]
mod sums;
