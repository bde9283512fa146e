//! One field of the counters of a replay reply.
ghost use Rattle.std.specs.Prelude.{◌≡◌, ◌≤◌, ◌<◌, ◌+◌, ◌-◌, ◌∷◌, [], ◌++◌, ℕ, ℤ, List, length, IfOk, IfErr};
ghost use Rattle.byteorder.specs.Endian.{twos_complement};
ghost use Rattle.child_replies.specs.Heads.{head_of_job};
ghost use Rattle.child_replies.specs.Steps.{Moves, Stops};
ghost use Rattle.reply_format.specs.Places.{Bucket, Counter, RowCount, Value, behind_counter, behind_value, magnitude, zeros};

use crate::cursor::next_field;
use crate::replay_job::ReplayJob;
use byteorder::{ByteOrder, LittleEndian};
use reply_format::ReplyFault;

/// The next counter of version 1, and what stands behind it.
pub(crate) fn read_counter<'a>(
    job: &ReplayJob,
    rest: &'a [u8],
) -> Result<(i64, &'a [u8]), ReplyFault>
    ensures on { IfOk result (λ read. (counters : List ℤ) → Moves (head_of_job job.now) (Counter counters) rest.now
        (behind_counter (head_of_job job.now) (counters ++ read.0 ∷ [])) read.1.now) }
    ensures stop { IfErr result (λ fault. (counters : List ℤ) →
        Stops (head_of_job job.now) (Counter counters) rest.now fault) }
{
    let Some((field, after)) = next_field(rest, 8) else {
        return Err(ReplyFault::Short);
    };
    let number = LittleEndian::read_u64(field);
    if magnitude(number) > job.weight {
        return Err(ReplyFault::CounterRange);
    }
    Ok((signed(number), after))
}

/// How many counters of the next row of version 2 are written, and what stands behind that.
pub(crate) fn read_row_count<'a>(
    job: &ReplayJob,
    rest: &'a [u8],
) -> Result<(u16, &'a [u8]), ReplyFault>
    ensures on { IfOk result (λ read. (counters : List ℤ) → Moves (head_of_job job.now) (RowCount counters) rest.now
        (behind_value (head_of_job job.now) counters 0 read.0) read.1.now) }
    ensures stop { IfErr result (λ fault. (counters : List ℤ) →
        Stops (head_of_job job.now) (RowCount counters) rest.now fault) }
{
    let Some((field, after)) = next_field(rest, 2) else {
        return Err(ReplyFault::Short);
    };
    let count = LittleEndian::read_u16(field);
    if count > job.params.width {
        return Err(ReplyFault::CounterPlace);
    }
    Ok((count, after))
}

/// The bucket of the next written counter, which is at least `from`, and what stands behind it.
pub(crate) fn read_bucket<'a>(
    job: &ReplayJob,
    from: u16,
    rest: &'a [u8],
) -> Result<(u16, &'a [u8]), ReplyFault>
    ensures on { IfOk result (λ read. (counters : List ℤ) (left : ℕ) →
        Moves (head_of_job job.now) (Bucket counters from left) rest.now
        (Value (counters ++ zeros (read.0 - from)) (read.0 + 1) (left - 1)) read.1.now) }
    ensures above { IfOk result (λ read. from ≤ read.0) }
    ensures below { IfOk result (λ read. read.0 < job.now.params.width) }
    ensures stop { IfErr result (λ fault. (counters : List ℤ) (left : ℕ) →
        Stops (head_of_job job.now) (Bucket counters from left) rest.now fault) }
{
    let Some((field, after)) = next_field(rest, 2) else {
        return Err(ReplyFault::Short);
    };
    let bucket = LittleEndian::read_u16(field);
    if bucket < from {
        return Err(ReplyFault::CounterPlace);
    }
    if bucket >= job.params.width {
        return Err(ReplyFault::CounterPlace);
    }
    Ok((bucket, after))
}

/// The value of a written counter, and what stands behind it.
pub(crate) fn read_value<'a>(job: &ReplayJob, rest: &'a [u8]) -> Result<(i64, &'a [u8]), ReplyFault>
    ensures on { IfOk result (λ read. (counters : List ℤ) (from left : ℕ) →
        Moves (head_of_job job.now) (Value counters from left) rest.now
        (behind_value (head_of_job job.now) (counters ++ read.0 ∷ []) from left) read.1.now) }
    ensures stop { IfErr result (λ fault. (counters : List ℤ) (from left : ℕ) →
        Stops (head_of_job job.now) (Value counters from left) rest.now fault) }
{
    let Some((field, after)) = next_field(rest, 8) else {
        return Err(ReplyFault::Short);
    };
    let number = LittleEndian::read_u64(field);
    if number == 0 {
        return Err(ReplyFault::CounterRange);
    }
    if magnitude(number) > job.weight {
        return Err(ReplyFault::CounterRange);
    }
    Ok((signed(number), after))
}

// The absolute value of a number in two's complement.
fn magnitude(number: u64) -> u64
    ensures { result ≡ magnitude number }
{
    if number < 1 << 63 {
        number
    } else {
        u64::MAX - number + 1
    }
}

// A number in two's complement.
fn signed(number: u64) -> i64
    ensures { result ≡ twos_complement 8 number }
{
    number.cast_signed()
}
