//! What a field of a job's head is judged as.
ghost use Rattle.std.specs.Prelude.{◌≡◌, ◌<◌, ◌≤◌, length};
ghost use Rattle.hash_family.specs.Limits.{is_rows, is_width};
ghost use Rattle.job_format.specs.Places.{behind_number, head_size, judge_head, kind_at};
ghost use Rattle.job_format.specs.declared.place.Place.TheVariants.{Head};
ghost use Rattle.job_format.specs.declared.place.HeadStep.TheVariants as steps;

use crate::{HeadNumbers, HeadStep, JobFault, Kind, Place, SolveNumbers, SolveStep, Tally, Via};
use byteorder::{ByteOrder, LittleEndian};

/// How many bytes a field of the head has.
pub(crate) fn head_size(step: HeadStep) -> usize
    ensures size { result ≡ head_size step }
    ensures some { 0 < result }
    ensures few { result ≤ 44 }
{
    match step {
        HeadStep::Magic => 4,
        HeadStep::Version => 1,
        HeadStep::Kind => 1,
        HeadStep::Number => 4,
        HeadStep::Levels => 1,
        HeadStep::Rows => 1,
        HeadStep::Width => 2,
        HeadStep::Heap => 2,
        HeadStep::Seed => 8,
    }
}

/// What a field of the head is judged as.
pub(crate) fn judge_head(
    step: HeadStep,
    numbers: HeadNumbers,
    field: &[u8],
) -> Result<Place, JobFault>
    requires { length field.now ≡ head_size step }
    ensures { result ≡ judge_head step numbers field.now }
{
    match step {
        HeadStep::Magic => judge_magic(numbers, field),
        HeadStep::Version => judge_version(numbers, field),
        HeadStep::Kind => judge_kind(numbers, field),
        HeadStep::Number => {
            let job = LittleEndian::read_u32(field);
            Ok(behind_number(HeadNumbers { job, ..numbers }))
        }
        HeadStep::Levels => judge_levels(numbers, field),
        HeadStep::Rows => judge_rows(numbers, field),
        HeadStep::Width => judge_width(numbers, field),
        HeadStep::Heap => judge_heap(numbers, field),
        HeadStep::Seed => {
            let seed = LittleEndian::read_u64(field);
            let tally = Tally {
                items: 0,
                weight: 0,
            };
            Ok(Place::Count {
                numbers: HeadNumbers { seed, ..numbers },
                tally,
            })
        }
    }
}

fn judge_magic(numbers: HeadNumbers, field: &[u8]) -> Result<Place, JobFault>
    requires { length field.now ≡ 4 }
    ensures { result ≡ judge_head steps.Magic numbers field.now }
{
    if field[0] == 0x55 && field[1] == 0x4d && field[2] == 0x4a && field[3] == 0x42 {
        Ok(at(HeadStep::Version, numbers))
    } else {
        Err(JobFault::Magic)
    }
}

fn judge_version(numbers: HeadNumbers, field: &[u8]) -> Result<Place, JobFault>
    requires { length field.now ≡ 1 }
    ensures { result ≡ judge_head steps.Version numbers field.now }
{
    if field[0] == 1 {
        Ok(at(HeadStep::Kind, numbers))
    } else {
        Err(JobFault::Version)
    }
}

fn judge_kind(numbers: HeadNumbers, field: &[u8]) -> Result<Place, JobFault>
    requires { length field.now ≡ 1 }
    ensures { result ≡ judge_head steps.Kind numbers field.now }
{
    if field[0] <= 1 {
        let kind = kind_at(field[0]);
        Ok(at(HeadStep::Number, HeadNumbers { kind, ..numbers }))
    } else {
        Err(JobFault::Shape)
    }
}

fn judge_levels(numbers: HeadNumbers, field: &[u8]) -> Result<Place, JobFault>
    requires { length field.now ≡ 1 }
    ensures { result ≡ judge_head steps.Levels numbers field.now }
{
    let levels = field[0];
    if levels <= 16 {
        Ok(at(HeadStep::Rows, HeadNumbers { levels, ..numbers }))
    } else {
        Err(JobFault::Shape)
    }
}

fn judge_rows(numbers: HeadNumbers, field: &[u8]) -> Result<Place, JobFault>
    requires { length field.now ≡ 1 }
    ensures { result ≡ judge_head steps.Rows numbers field.now }
{
    let rows = field[0];
    if is_rows(rows) {
        Ok(at(HeadStep::Width, HeadNumbers { rows, ..numbers }))
    } else {
        Err(JobFault::Shape)
    }
}

fn judge_width(numbers: HeadNumbers, field: &[u8]) -> Result<Place, JobFault>
    requires { length field.now ≡ 2 }
    ensures { result ≡ judge_head steps.Width numbers field.now }
{
    let width = LittleEndian::read_u16(field);
    if is_width(width) {
        Ok(at(HeadStep::Heap, HeadNumbers { width, ..numbers }))
    } else {
        Err(JobFault::Shape)
    }
}

fn judge_heap(numbers: HeadNumbers, field: &[u8]) -> Result<Place, JobFault>
    requires { length field.now ≡ 2 }
    ensures { result ≡ judge_head steps.Heap numbers field.now }
{
    let heap = LittleEndian::read_u16(field);
    if heap >= 1 && heap <= 1024 {
        Ok(at(HeadStep::Seed, HeadNumbers { heap, ..numbers }))
    } else {
        Err(JobFault::Shape)
    }
}

// Behind the number of a job.
fn behind_number(numbers: HeadNumbers) -> Place
    ensures { result ≡ behind_number numbers numbers.kind }
{
    match numbers.kind {
        Kind::Replay => at(HeadStep::Levels, numbers),
        Kind::Solve => Place::Solve {
            step: SolveStep::Nodes,
            numbers: SolveNumbers {
                job: numbers.job,
                nodes: 0,
                sites: 0,
                sites_left: 0,
                needs_left: 0,
                load: 0,
                via: Via::new(),
                hops_left: 0,
            },
        },
    }
}

fn at(step: HeadStep, numbers: HeadNumbers) -> Place
    ensures { result ≡ Head step numbers }
{
    Place::Head { step, numbers }
}

fn kind_at(byte: u8) -> Kind
    ensures { result ≡ kind_at byte }
{
    if byte == 0 { Kind::Replay } else { Kind::Solve }
}

fn is_rows(rows: u8) -> bool
    ensures { result ≡ is_rows rows }
{
    matches!(rows, 1 | 3 | 5 | 7)
}

fn is_width(width: u16) -> bool
    ensures { result ≡ is_width width }
{
    matches!(width, 16 | 32 | 64 | 128 | 256 | 512 | 1024 | 2048)
}
