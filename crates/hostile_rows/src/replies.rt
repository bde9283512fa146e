//! Replies to the first replay of three packets that are well formed, and untrue.

use std::alloc::{AllocError, Global};

const MAGIC: [u8; 4] = [0x55, 0x4d, 0x52, 0x50];

// A replay, and job 0; 12 levels, 5 rows of 1,024 counters and 64 keys; 3 items that weigh 3.
const NUMBERS: [u8; 23] = [
    0, 0, 0, 0, 0, 12, 5, 0, 4, 64, 0, 3, 0, 0, 0, 3, 0, 0, 0, 0, 0, 0, 0,
];

// Two counters of the first row, in version 2: 1 in bucket 0, and -1 in bucket 1.
const ROW: [u8; 22] = [
    2, 0, 0, 0, 1, 0, 0, 0, 0, 0, 0, 0, 1, 0, 255, 255, 255, 255, 255, 255, 255, 255,
];

// The key `10.0.0.1 1000 10.1.0.2 53 17`.
const KEY: [u8; 44] = [
    4, 0, 0, 0, 1, 0, 0, 10, 0, 0, 0, 0, 0, 0, 0, 0, 0, 0, 0, 0, 2, 0, 1, 10, 0, 0, 0, 0, 0, 0, 0,
    0, 0, 0, 0, 0, 53, 0, 232, 3, 17, 0, 0, 0,
];

/// Where the heaps stand in version 1, behind 28 bytes and 5 * 1,024 counters of each of 13 levels.
pub(crate) const HEAPS_OF_FIRST: usize = 532_508;

/// Where they stand in version 2, behind 28 bytes, the counts of 65 rows, and two counters.
pub(crate) const HEAPS_OF_SECOND: usize = 178;

/// The reply of this version that names the key so many times at level 0, and no other one: twice breaks the rule.
/// Version 1 has all counters 0, and version 2 the two of `ROW`.
pub(crate) fn reply_of(alloc: Global, version: u8, keys: u8) -> Result<Vec<u8>, AllocError> {
    let mut bytes = MAGIC.to_vec(alloc)?;
    bytes.push(version)?;
    bytes.extend_from_slice(&NUMBERS)?;
    if version == 1 {
        bytes.resize(HEAPS_OF_FIRST, 0)?;
    } else {
        bytes.extend_from_slice(&ROW)?;
        bytes.resize(HEAPS_OF_SECOND, 0)?;
    }
    bytes.push(keys)?;
    bytes.push(0)?;
    for _ in 0..keys {
        bytes.extend_from_slice(&KEY)?;
    }
    bytes.extend_from_slice(&[0; 24])?;
    Ok(bytes)
}

/// The reply of this version to a search of job 0, which tells that no placement fits.
pub(crate) fn search_reply(alloc: Global, version: u8) -> Result<Vec<u8>, AllocError> {
    let mut bytes = MAGIC.to_vec(alloc)?;
    bytes.push(version)?;
    bytes.extend_from_slice(&[1, 0, 0, 0, 0, 1, 2, 2, 0, 1])?;
    Ok(bytes)
}

/// The bytes with others in a place of them.
pub(crate) fn changed(
    alloc: Global,
    bytes: &[u8],
    at: usize,
    new: &[u8],
) -> Result<Vec<u8>, AllocError> {
    let mut other = Vec::new(alloc);
    for (place, byte) in bytes.iter().enumerate() {
        let byte = if place >= at && place - at < new.len() {
            new[place - at]
        } else {
            *byte
        };
        other.push(byte)?;
    }
    Ok(other)
}
