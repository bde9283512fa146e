//! The bytes and the numbers that the rows speak of.

use hash_family::Params;
use std::alloc::{AllocError, Global};
use std::process::Abort;

/// Job 0 without items, for one row of 16 counters at level 0, a heap of one key, and seed 1.
pub(crate) const EMPTY_JOB: [u8; 26] = [
    0x55, 0x4d, 0x4a, 0x42, 1, 0, 0, 0, 0, 0, 0, 1, 16, 0, 1, 0, 1, 0, 0, 0, 0, 0, 0, 0, 0, 0,
];

/// Job 0, a search of 1,024 nodes: one site of capacity 8, and two needs of load 5 that it alone can serve.
pub(crate) const SOLVE_JOB: [u8; 32] = [
    0x55, 0x4d, 0x4a, 0x42, 1, 1, 0, 0, 0, 0, 0, 4, 1, 8, 0, 0, 0, 0, 0, 0, 0, 0, 0, 2, 5, 0, 1, 0,
    5, 0, 1, 0,
];

/// The reply to the search, version 2: none fits, by a Hall of needs 0 and 1.
pub(crate) const SOLVE_REPLY: [u8; 15] = [0x55, 0x4d, 0x52, 0x50, 2, 1, 0, 0, 0, 0, 1, 2, 2, 0, 1];

/// The numbers of the sketch.
pub(crate) fn params(rt: &impl Abort) -> Params {
    Params::new(0, 1, 16, 1, 1).expect(rt, "numbers within the limits")
}

/// The pieces, one behind the other.
pub(crate) fn joined(alloc: Global, pieces: &[&[u8]]) -> Result<Vec<u8>, AllocError> {
    let mut bytes = Vec::new(alloc);
    for piece in pieces {
        bytes.extend_from_slice(piece)?;
    }
    Ok(bytes)
}

/// The bytes with another one at a place.
pub(crate) fn changed(
    alloc: Global,
    bytes: &[u8],
    at: usize,
    byte: u8,
) -> Result<Vec<u8>, AllocError> {
    let mut copy = bytes.to_vec(alloc)?;
    if let Some(place) = copy.get_mut(at) {
        *place = byte;
    }
    Ok(copy)
}
