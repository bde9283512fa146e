//! Replies as bytes.
ghost use Rattle.std.specs.Prelude.{◌≡◌, ◌++◌, IfOk, OnOk, OnErr};
ghost use Rattle.reply_format.specs.Reply.{IsReply, reply_bytes, reply_of};

use crate::write_replay::put_replay;
use crate::write_solve::put_solve;
use mon_io::Memory;
use reply_format::Reply;
use std::alloc::Global;

/// Appends the bytes of a reply within its limits, in version 2. Unchanged on refusal. It takes memory.
pub fn write_reply(alloc: Global, reply: &Reply, out: &mut Vec<u8>) -> Result<(), Memory>
    requires within { IsReply (reply_of reply.now) }
    ensures written { OnOk result (out.new.items ≡ out.old.items ++ reply_bytes 2 (reply_of reply.now)) }
    ensures refused { OnErr result (out.new.items ≡ out.old.items) }
{
    let bytes = reply_bytes(alloc, reply)?;
    match out.extend_from_slice(bytes.as_slice()) {
        Ok(()) => Ok(()),
        Err(_) => Err(Memory),
    }
}

// The bytes of a reply.
fn reply_bytes(alloc: Global, reply: &Reply) -> Result<Vec<u8>, Memory>
    requires within { IsReply (reply_of reply.now) }
    ensures written { IfOk result (λ bytes. bytes.items ≡ reply_bytes 2 (reply_of reply.now)) }
{
    let mut bytes = Vec::new(alloc);
    match reply {
        Reply::Replay {
            job,
            params,
            items,
            weight,
            body,
        } => put_replay(*job, params, *items, *weight, body, &mut bytes)?,
        Reply::Solve { job, outcome } => put_solve(alloc, *job, outcome, &mut bytes)?,
    }
    Ok(bytes)
}
