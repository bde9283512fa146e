//! Which replies answer a replay job.
ghost use Rattle.std.specs.Prelude.{◌≡◌, ◌<◌, All, IfOk, IfSome, is_some};
ghost use Rattle.hash_family.specs.Setting.{setting_of};
ghost use Rattle.reply_format.specs.Reply.{head_of, reply_of};
ghost use Rattle.share_jobs.specs.Reading.{IsReplyOf, is_good};

use child_replies::read_reply;
use hash_family::Params;
use mon_io::Memory;
use reply_format::{Expect, Reply, ReplyFault};
use std::alloc::Global;

/// The reply that bytes spell to the replay job of this number, of so many items that weigh so much; None where they
/// spell none. It takes memory.
pub(crate) fn reply_to(
    alloc: Global,
    job: u32,
    params: Params,
    items: u32,
    weight: u64,
    bytes: &[u8],
) -> Result<Option<Reply>, Memory>
    ensures good { IfOk result (λ found.
        is_some found ≡ is_good (head_of job (setting_of params) items weight) bytes.now) }
    ensures spelled { IfOk result (λ found. IfSome found (λ reply.
        IsReplyOf (head_of job (setting_of params) items weight) (reply_of reply) bytes.now)) }
{
    check_bytes(bytes);
    let expect = Expect::Replay {
        job,
        params,
        items,
        weight,
    };
    match read_reply(alloc, bytes, &expect) {
        Ok(reply) => Ok(Some(reply)),
        Err(fault) => match fault {
            ReplyFault::Memory => Err(Memory),
            _ => Ok(None),
        },
    }
}

// Each byte is below 256, as its type says.
fn check_bytes(bytes: &[u8])
    ensures { All (λ byte. byte < 256) bytes.now }
{
    let _ = bytes.len();
}
