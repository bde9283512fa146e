//! A solve reply from its bytes.
ghost use Rattle.std.specs.Prelude.{◌≡◌, ◌⊎◌, Err};
ghost use Rattle.child_replies.specs.Solved.{fault_of};
ghost use Rattle.reply_format.specs.Read.{ReadsReply, read_as};
ghost use Rattle.reply_format.specs.Reply.{ExpectSolve};
ghost use Rattle.reply_format.specs.declared.fault.ReplyFault.TheVariants.{Memory};

use crate::found::{outcome_with, read_found};
use crate::solve_front::read_front;
use certificate_text::{TreeBytesFault, read_tree_bytes};
use reply_format::{Reply, ReplyFault};
use std::alloc::Global;

/// The reply to the solve job of this number.
pub(crate) fn read_solve(alloc: Global, job: u32, bytes: &[u8]) -> Result<Reply, ReplyFault>
    ensures { (result ≡ Err Memory) ⊎ ReadsReply (ExpectSolve job) bytes.now (read_as result) }
{
    let rest = match read_front(job, bytes) {
        Ok(rest) => rest,
        Err(fault) => return Err(fault),
    };
    let (found, rest) = match read_found(alloc, rest) {
        Ok(read) => read,
        Err(fault) => return Err(fault),
    };
    let (tree, taken) = match read_tree_bytes(alloc, rest) {
        Ok(read) => read,
        Err(fault) => return Err(fault_of(fault)),
    };
    if taken < rest.len() {
        return Err(ReplyFault::Extra);
    }
    let outcome = outcome_with(found, tree);
    Ok(Reply::Solve { job, outcome })
}

// Why there is no reply, where its tree is none.
fn fault_of(fault: TreeBytesFault) -> ReplyFault
    ensures { result ≡ fault_of fault }
{
    match fault {
        TreeBytesFault::Short => ReplyFault::Short,
        TreeBytesFault::Shape => ReplyFault::Shape,
        TreeBytesFault::Memory => ReplyFault::Memory,
    }
}
