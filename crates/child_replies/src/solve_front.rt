//! The front of a solve reply.
ghost use Rattle.std.specs.Prelude.{◌≡◌, ◌∷◌, [], ◌++◌, IfOk, IfErr};
ghost use Rattle.byteorder.specs.Endian.{little_bytes};
ghost use Rattle.child_replies.specs.Solved.{HasFront};
ghost use Rattle.child_replies.specs.Steps.{SolveMoves, SolveStops};
ghost use Rattle.reply_format.specs.Outcomes as solves;

use crate::cursor::{check_bytes, next_field};
use crate::front::{magic, next_byte, version};
use byteorder::{ByteOrder, LittleEndian};
use reply_format::ReplyFault;

/// What stands behind the number of the solve job.
pub(crate) fn read_front(job: u32, bytes: &[u8]) -> Result<&[u8], ReplyFault>
    ensures on { IfOk result (λ rest. SolveMoves job solves.Magic bytes.now solves.Outcome rest.now) }
    ensures parts { IfOk result (λ rest. HasFront job bytes.now rest.now) }
    ensures stop { IfErr result (λ fault. SolveStops job solves.Magic bytes.now fault) }
{
    let rest = match magic(bytes) {
        Ok((_, rest)) => rest,
        Err(fault) => return Err(fault),
    };
    let rest = match version(rest) {
        Ok((_, rest)) => rest,
        Err(fault) => return Err(fault),
    };
    match read_job(job, rest) {
        Ok(rest) => Ok(rest),
        Err(fault) => Err(fault),
    }
}

// What stands behind the kind and the number of the solve job.
fn read_job(job: u32, bytes: &[u8]) -> Result<&[u8], ReplyFault>
    ensures on { IfOk result (λ rest. SolveMoves job solves.Kind bytes.now solves.Outcome rest.now) }
    ensures parts { IfOk result (λ rest. bytes.now ≡ (1 ∷ []) ++ (little_bytes 4 job ++ rest.now)) }
    ensures stop { IfErr result (λ fault. SolveStops job solves.Kind bytes.now fault) }
{
    let Some((kind, rest)) = next_byte(bytes) else {
        return Err(ReplyFault::Short);
    };
    if kind != 1 {
        return Err(ReplyFault::Job);
    }
    let Some((field, rest)) = next_field(rest, 4) else {
        return Err(ReplyFault::Short);
    };
    check_bytes(field);
    if LittleEndian::read_u32(field) == job {
        Ok(rest)
    } else {
        Err(ReplyFault::Job)
    }
}
