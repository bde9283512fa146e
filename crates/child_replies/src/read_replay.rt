//! A replay reply from its bytes.
ghost use Rattle.std.specs.Prelude.{◌≡◌, ◌⊎◌, [], Err, IfOk, IfErr};
ghost use Rattle.byte_format.specs.Format.{At, reached};
ghost use Rattle.child_replies.specs.Heads.{head_of_job};
ghost use Rattle.child_replies.specs.Steps.{MayStop};
ghost use Rattle.reply_format.specs.Places.{replay_format};
ghost use Rattle.reply_format.specs.Places as places;
ghost use Rattle.reply_format.specs.Read.{ReadsReply, read_as};
ghost use Rattle.reply_format.specs.Reply.{ExpectReplay};
ghost use Rattle.reply_format.specs.declared.fault.ReplyFault.TheVariants.{Memory};

use crate::counters::read_counters;
use crate::cursor::check_bytes;
use crate::head::read_head;
use crate::heaps::read_heaps;
use crate::replay_job::ReplayJob;
use reply_format::{ReplayBody, Reply, ReplyFault};
use sqlite_items::Items;
use std::alloc::Global;

/// The reply to the replay job.
pub(crate) fn read_replay(alloc: Global, job: ReplayJob, bytes: &[u8]) -> Result<Reply, ReplyFault>
    ensures { (result ≡ Err Memory) ⊎ ReadsReply (ExpectReplay (head_of_job job)) bytes.now (read_as result) }
{
    check_bytes(bytes);
    match read_body(alloc, &job, bytes) {
        Ok(body) => Ok(Reply::Replay {
            job: job.number,
            params: job.params,
            items: job.items,
            weight: job.weight,
            body,
        }),
        Err(fault) => Err(fault),
    }
}

// The counters and heaps of a reply to the job, behind which nothing stands.
fn read_body(alloc: Global, job: &ReplayJob, bytes: &[u8]) -> Result<ReplayBody, ReplyFault>
    ensures on { IfOk result (λ body. reached (replay_format (head_of_job job.now)) (At places.Magic []) bytes.now
        ≡ At (places.End (record { counters = body.counters; heaps = body.heaps })) []) }
    ensures stop { IfErr result (λ fault. MayStop (head_of_job job.now) places.Magic bytes.now fault) }
{
    let (version, rest) = match read_head(job, bytes) {
        Ok(read) => read,
        Err(fault) => return Err(fault),
    };
    let (counters, rest) = match read_counters(alloc, job, version, rest) {
        Ok(read) => read,
        Err(fault) => return Err(fault),
    };
    let (heaps, rest) = match read_heaps(alloc, job, rest) {
        Ok(read) => read,
        Err(fault) => return Err(fault),
    };
    if !rest.is_empty() {
        return Err(ReplyFault::Extra);
    }
    Ok(ReplayBody {
        counters: Items::from_vec(counters),
        heaps,
    })
}
