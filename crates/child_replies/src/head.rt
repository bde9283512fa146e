//! The head of a replay reply.
ghost use Rattle.std.specs.Prelude.{◌≡◌, ℕ, IfOk, IfErr};
ghost use Rattle.child_replies.specs.Heads.{head_of_job, next_place};
ghost use Rattle.child_replies.specs.Steps.{Moves, Stops};
ghost use Rattle.reply_format.specs.Places as places;

use crate::front::{magic, version};
use crate::head_field::{HeadField, following, pass};
use crate::replay_job::ReplayJob;
use reply_format::ReplyFault;

/// The version of a reply to the job, and what stands behind its head.
pub(crate) fn read_head<'a>(job: &ReplayJob, bytes: &'a [u8]) -> Result<(u8, &'a [u8]), ReplyFault>
    ensures on { IfOk result (λ read. Moves (head_of_job job.now) places.Magic bytes.now
        (next_place None read.0) read.1.now) }
    ensures stop { IfErr result (λ fault. Stops (head_of_job job.now) places.Magic bytes.now fault) }
{
    let rest = match magic(bytes) {
        Ok((_, rest)) => rest,
        Err(fault) => return Err(fault),
    };
    let (version, rest) = match version(rest) {
        Ok(read) => read,
        Err(fault) => return Err(fault),
    };
    match known_fields(job, rest) {
        Ok(rest) => Ok((version, rest)),
        Err(fault) => Err(fault),
    }
}

// What stands behind the fields that are known, which begin with the kind.
fn known_fields<'a>(job: &ReplayJob, bytes: &'a [u8]) -> Result<&'a [u8], ReplyFault>
    ensures on { IfOk result (λ after. (version : ℕ) →
        Moves (head_of_job job.now) (places.Kind version) bytes.now (next_place None version) after.now) }
    ensures stop { IfErr result (λ fault. (version : ℕ) →
        Stops (head_of_job job.now) (places.Kind version) bytes.now fault) }
{
    let mut rest = bytes;
    let mut next = Some(HeadField::Kind);
    while let Some(field) = next {
        rest = match pass(job, field, rest) {
            Ok(after) => after,
            Err(fault) => return Err(fault),
        };
        next = following(field);
    }
    Ok(rest)
}
