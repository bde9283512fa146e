//! A reply from its bytes.
ghost use Rattle.std.specs.Prelude.{◌≡◌, ◌⊎◌, List, ℕ, Result, Ok, Err};
ghost use Rattle.reply_format.specs.Read.{ReadsReply, read_as};
ghost use Rattle.reply_format.specs.Reply.{Reply as AnyReply, expect_of};
ghost use Rattle.reply_format.specs.declared.fault.ReplyFault.{ReplyFault as Fault};
ghost use Rattle.reply_format.specs.declared.fault.ReplyFault.TheVariants.{Memory};

use crate::read_replay::read_replay;
use crate::read_solve::read_solve;
use crate::replay_job::ReplayJob;
use reply_format::{Expect, Reply, ReplyFault};
use std::alloc::Global;

/// The reply to what is expected that these bytes spell in version 1 or 2, else their first breach as `ReplyFault` says
/// it, or `Memory`. It takes memory.
pub fn read_reply(alloc: Global, bytes: &[u8], expect: &Expect) -> Result<Reply, ReplyFault>
    ensures reads { (result ≡ Err Memory) ⊎ ReadsReply (expect_of expect.now) bytes.now (read_as result) }

    // No other answer would do.
    ensures alone { (other : Result AnyReply Fault) → ReadsReply (expect_of expect.now) bytes.now other
        → (result ≡ Err Memory) ⊎ (read_as result ≡ other) }
{
    match expect {
        Expect::Replay {
            job,
            params,
            items,
            weight,
        } => {
            let job = ReplayJob {
                number: *job,
                params: *params,
                items: *items,
                weight: *weight,
            };
            read_replay(alloc, job, bytes)
        }
        Expect::Solve { job } => read_solve(alloc, *job, bytes),
    }
}
