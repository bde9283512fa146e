//! A field of a replay reply's head.
ghost use Rattle.std.specs.Prelude.{◌≡◌, ◌⊎◌, length, IfOk, IfErr, ℕ};
ghost use Rattle.byteorder.specs.Endian.{little_number};
ghost use Rattle.child_replies.specs.Heads.{field_behind, field_fault, field_number, field_size, head_of_job, next_place, place_of};
ghost use Rattle.child_replies.specs.Steps.{Moves, Stops};

use crate::cursor::next_field;
use crate::replay_job::ReplayJob;
use byteorder::{ByteOrder, LittleEndian};
use reply_format::ReplyFault;

/// A field of the head, behind the version.
#[derive(Clone, Copy, Debug, PartialEq, Eq)]
pub(crate) enum HeadField {
    Kind,
    Number,
    Levels,
    Rows,
    Width,
    HeapSize,
    Items,
    Weight,
}

/// What stands behind the field, which is to have the job's number.
pub(crate) fn pass<'a>(
    job: &ReplayJob,
    field: HeadField,
    rest: &'a [u8],
) -> Result<&'a [u8], ReplyFault>
    ensures on { IfOk result (λ after. (version : ℕ) →
        Moves (head_of_job job.now) (place_of field version) rest.now
        (next_place (field_behind field) version) after.now) }
    ensures stop { IfErr result (λ fault. (version : ℕ) →
        Stops (head_of_job job.now) (place_of field version) rest.now fault) }
{
    let Some((bytes, after)) = next_field(rest, size(field)) else {
        return Err(ReplyFault::Short);
    };
    if number(bytes) == wanted(job, field) {
        Ok(after)
    } else {
        Err(fault(field))
    }
}

/// The field behind this one; None behind the last.
pub(crate) fn following(field: HeadField) -> Option<HeadField>
    ensures { result ≡ field_behind field }
{
    match field {
        HeadField::Kind => Some(HeadField::Number),
        HeadField::Number => Some(HeadField::Levels),
        HeadField::Levels => Some(HeadField::Rows),
        HeadField::Rows => Some(HeadField::Width),
        HeadField::Width => Some(HeadField::HeapSize),
        HeadField::HeapSize => Some(HeadField::Items),
        HeadField::Items => Some(HeadField::Weight),
        HeadField::Weight => None,
    }
}

fn size(field: HeadField) -> usize
    ensures { result ≡ field_size field }
{
    match field {
        HeadField::Kind => 1,
        HeadField::Number => 4,
        HeadField::Levels => 1,
        HeadField::Rows => 1,
        HeadField::Width => 2,
        HeadField::HeapSize => 2,
        HeadField::Items => 4,
        HeadField::Weight => 8,
    }
}

// The number that is to stand there.
fn wanted(job: &ReplayJob, field: HeadField) -> u64
    ensures { result ≡ field_number (head_of_job job.now) field }
{
    match field {
        HeadField::Kind => 0,
        HeadField::Number => u64::from(job.number),
        HeadField::Levels => u64::from(job.params.levels),
        HeadField::Rows => u64::from(job.params.rows),
        HeadField::Width => u64::from(job.params.width),
        HeadField::HeapSize => u64::from(job.params.heap),
        HeadField::Items => u64::from(job.items),
        HeadField::Weight => job.weight,
    }
}

fn fault(field: HeadField) -> ReplyFault
    ensures { result ≡ field_fault field }
{
    match field {
        HeadField::Kind => ReplyFault::Job,
        HeadField::Number => ReplyFault::Job,
        HeadField::Levels => ReplyFault::Shape,
        HeadField::Rows => ReplyFault::Shape,
        HeadField::Width => ReplyFault::Shape,
        HeadField::HeapSize => ReplyFault::Shape,
        HeadField::Items => ReplyFault::Totals,
        HeadField::Weight => ReplyFault::Totals,
    }
}

// The number of up to eight bytes, the low one first.
fn number(bytes: &[u8]) -> u64
    requires { (length bytes.now ≡ 1) ⊎ (length bytes.now ≡ 2) ⊎ (length bytes.now ≡ 4) ⊎ (length bytes.now ≡ 8) }
    ensures { result ≡ little_number (length bytes.now) bytes.now }
{
    match bytes.len() {
        1 => u64::from(bytes[0]),
        2 => u64::from(LittleEndian::read_u16(bytes)),
        4 => u64::from(LittleEndian::read_u32(bytes)),
        _ => LittleEndian::read_u64(bytes),
    }
}
