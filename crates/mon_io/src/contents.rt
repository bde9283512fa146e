//! The whole contents of an input.
ghost use Rattle.std.specs.Prelude.{◌≡◌, ◌≤◌, ◌<◌, ◌+◌, [], ◌∷◌, IfOk, IfSome, OnErr, IsErrOf, MatchResult, is_some, length, take};
ghost use Rattle.mon_io.specs.Faults.{Rose, HasCause};
ghost use Rattle.mon_io.specs.Inputs.{Picked, PickedNothing, ReadsContents, Reads, Took, IsOver};

use crate::read_ahead::AHEAD;
use crate::{Fault, Inputs};
use std::alloc::{AllocError, Global};

/// Why the contents were not given.
#[derive(Clone, Copy, Debug, PartialEq, Eq)]
pub enum ReadStop {
    /// The input could not be picked, or a read failed.
    Fault,
    /// There are more bytes than the limit.
    TooLong,
    /// A growth was refused.
    Memory,
}

/// The contents of the named input, of at most `limit` bytes. `TooLong` comes exactly where one byte
/// more than `limit` was read, and `Fault` only where the count of faults rose.
pub fn read_all<I: Inputs>(
    alloc: Global,
    inputs: &mut I,
    name: &str,
    limit: usize,
) -> Result<Vec<u8>, ReadStop>
    ensures contents { IfOk result (λ bytes.
        IfSome ((I.state inputs.old).contents name.now) (λ told. bytes.items ≡ told)) }
    ensures reads { ReadsContents (λ bytes. bytes.items) limit
        ((I.state inputs.old).contents name.now) (I.state inputs.old).rest (I.state inputs.new).rest result }
    ensures told { is_some (I.state inputs.new).rest ≡ is_some (I.state inputs.old).rest }
    ensures picks { Picked (I.picks inputs.old) (I.picks inputs.new) (name.now ∷ []) }
    ensures stays { (I.state inputs.new).contents ≡ (I.state inputs.old).contents }
    ensures later { (I.state inputs.old).faults ≤ (I.state inputs.new).faults }
    ensures cause { IsErrOf result ReadStop.Fault → Rose (I.state inputs.old).faults (I.state inputs.new).faults }
{
    let Ok(()) = inputs.pick(name) else {
        return Err(ReadStop::Fault);
    };
    let Ok(mut chunk) = chunk_of(alloc) else {
        return Err(ReadStop::Memory);
    };
    read_rest(alloc, inputs, &mut chunk, limit)
}

// A buffer of AHEAD bytes.
fn chunk_of(alloc: Global) -> Result<Vec<u8>, AllocError>
    ensures size { IfOk result (λ chunk. length chunk.items ≡ AHEAD) }
{
    vec![in alloc; 0u8; AHEAD]
}

// All that is left of the picked input, through a buffer.
fn read_rest<I: Inputs>(
    alloc: Global,
    inputs: &mut I,
    chunk: &mut [u8],
    limit: usize,
) -> Result<Vec<u8>, ReadStop>
    requires room { 0 < length chunk.old }
    ensures reads { ReadsContents (λ bytes. bytes.items) limit
        (I.state inputs.old).rest (I.state inputs.old).rest (I.state inputs.new).rest result }
    ensures told { is_some (I.state inputs.new).rest ≡ is_some (I.state inputs.old).rest }
    ensures picks { PickedNothing (I.picks inputs.old) (I.picks inputs.new) }
    ensures stays { (I.state inputs.new).contents ≡ (I.state inputs.old).contents }
    ensures later { (I.state inputs.old).faults ≤ (I.state inputs.new).faults }
    ensures cause { IsErrOf result ReadStop.Fault → Rose (I.state inputs.old).faults (I.state inputs.new).faults }
{
    let mut bytes = Vec::new(alloc);
    loop {
        let room = limit - bytes.len();
        let Ok(count) = read_piece(inputs, chunk, room) else {
            return Err(ReadStop::Fault);
        };
        if count == 0 {
            return Ok(bytes);
        }
        if count > room {
            return Err(ReadStop::TooLong);
        }
        let Ok(()) = bytes.extend_from_slice(&chunk[..count]) else {
            return Err(ReadStop::Memory);
        };
    }
}

// Reads into the front of a buffer, at most one byte more than there is room for.
fn read_piece<I: Inputs>(inputs: &mut I, chunk: &mut [u8], room: usize) -> Result<usize, Fault>
    requires room { 0 < length chunk.old }
    ensures bytes { MatchResult result
        (λ n. Took (I.state inputs.old).rest (I.state inputs.new).rest (take n chunk.new)
        × (n ≡ 0 → IsOver (I.state inputs.new).rest))
        (λ _. (I.state inputs.new).rest ≡ (I.state inputs.old).rest) }
    ensures bound { IfOk result (λ n. (n ≤ length chunk.new) × (n ≤ room + 1)) }
    ensures picks { PickedNothing (I.picks inputs.old) (I.picks inputs.new) }
    ensures stays { (I.state inputs.new).contents ≡ (I.state inputs.old).contents }
    ensures cause { HasCause (I.state inputs.old).faults (I.state inputs.new).faults result }
{
    let most = chunk.len().min(room.saturating_add(1));
    inputs.read(&mut chunk[..most])
}
