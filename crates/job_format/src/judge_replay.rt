//! What a field of a replay job behind its head is judged as.
ghost use Rattle.std.specs.Prelude.{◌≡◌, length};
ghost use Rattle.byte_format.specs.Keys.{key_size};
ghost use Rattle.job_format.specs.Places.{judge_count, judge_key, judge_weight};

use crate::{HeadNumbers, JobFault, Place, Tally};
use byte_format::key_at;
use byteorder::{ByteOrder, LittleEndian};

/// The most items of a frame.
const MOST_IN_FRAME: u16 = 4_096;

/// The most items of a job.
const MOST_ITEMS: u32 = 1_048_576;

/// The most that the items of a job weigh together.
const MOST_WEIGHT: u64 = 1 << 44;

/// What the count of a frame is judged as.
#[inline]
pub(crate) fn judge_count(
    numbers: HeadNumbers,
    tally: Tally,
    field: &[u8],
) -> Result<Place, JobFault>
    requires { length field.now ≡ 2 }
    ensures { result ≡ judge_count numbers tally field.now }
{
    let count = LittleEndian::read_u16(field);
    if count == 0 {
        return Ok(Place::ReplayEnd { numbers, tally });
    }
    if count > MOST_IN_FRAME || tally.items % 4096 != 0 {
        return Err(JobFault::Shape);
    }
    if tally.items >= MOST_ITEMS {
        return Err(JobFault::Shape);
    }
    let items = tally.items + u32::from(count);
    Ok(Place::Key {
        numbers,
        tally: Tally { items, ..tally },
        left: count,
    })
}

/// What the key of an item is judged as.
#[inline]
pub(crate) fn judge_key(
    numbers: HeadNumbers,
    tally: Tally,
    left: u16,
    field: &[u8],
) -> Result<Place, JobFault>
    requires { length field.now ≡ key_size }
    ensures { result ≡ judge_key numbers tally left field.now }
{
    match key_at(field) {
        Some(key) => Ok(Place::Weight {
            numbers,
            tally,
            left,
            key,
        }),
        None => Err(JobFault::Shape),
    }
}

/// What the weight of an item is judged as.
#[inline]
pub(crate) fn judge_weight(
    numbers: HeadNumbers,
    tally: Tally,
    left: u16,
    field: &[u8],
) -> Result<Place, JobFault>
    requires { length field.now ≡ 4 }
    ensures { result ≡ judge_weight numbers tally left field.now }
{
    let weight = u64::from(LittleEndian::read_u32(field));
    if tally.weight > MOST_WEIGHT || weight > MOST_WEIGHT - tally.weight {
        return Err(JobFault::Shape);
    }
    let tally = Tally {
        items: tally.items,
        weight: tally.weight + weight,
    };
    if left <= 1 {
        return Ok(Place::Count { numbers, tally });
    }
    Ok(Place::Key {
        numbers,
        tally,
        left: left - 1,
    })
}
