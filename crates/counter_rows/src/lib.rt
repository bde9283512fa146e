//! Rows of hashes and counters from outside, over the public calls of `hash_family` and `count_sketch`.
//!
//! - `keys`: the keys of the rows
//! - `hash`: samples, buckets and signs by several seeds, and the edges of the limits
//! - `counters`: counters and estimates of two keys and of a crowd, and sums and differences of sketches
#![tactic(auto)]

#[cfg(test)]
mod counters;
#[cfg(test)]
mod hash;
#[cfg(test)]
mod keys;
