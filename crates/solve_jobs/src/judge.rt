//! Which replies hold a right outcome.
ghost use Rattle.std.specs.Prelude.{◌≡◌, ◌<◌, All, IfOk, IfSome, IsTrue, is_some};
ghost use Rattle.bound_certificate.specs.Formed.{is_formed};
ghost use Rattle.bound_certificate.specs.Outcome.{is_right, tree_of};
ghost use Rattle.reply_format.specs.Reply.{SpellsReply};
ghost use Rattle.solve_jobs.specs.Reading.{is_good, outcome_in, reading};
ghost use Rattle.solve_jobs.specs.Replies.{IsReplyWith, reply_with};

use bound_certificate::{Outcome, Problem, check_outcome};
use child_replies::read_reply;
use mon_io::Memory;
use reply_format::{Expect, Reply, ReplyFault};
use std::alloc::Global;

/// The outcome that bytes spell as the reply to job 0, where it is right for the problem and a search of so many nodes;
/// else None. It takes memory.
pub(crate) fn right_outcome(
    alloc: Global,
    problem: &Problem,
    nodes: u32,
    bytes: &[u8],
) -> Result<Option<Outcome>, Memory>
    ensures good { IfOk result (λ found. is_some found ≡ is_good problem.now nodes 0 bytes.now) }
    ensures right { IfOk result (λ found. IfSome found (λ outcome. IsReplyWith problem.now nodes outcome bytes.now)) }
{
    let Some(outcome) = outcome_read(alloc, bytes)? else {
        return Ok(None);
    };
    if is_right(problem, nodes, &outcome) {
        Ok(Some(outcome))
    } else {
        Ok(None)
    }
}

// The outcome that bytes spell as the reply to job 0; None where they spell none.
fn outcome_read(alloc: Global, bytes: &[u8]) -> Result<Option<Outcome>, Memory>
    ensures read { IfOk result (λ found. found ≡ outcome_in (reading bytes.now)) }
    ensures spelled { IfOk result (λ found. IfSome found (λ outcome. SpellsReply (reply_with outcome) bytes.now)) }
{
    check_bytes(bytes);
    match read_reply(alloc, bytes, &Expect::Solve { job: 0 }) {
        Ok(Reply::Solve { job: _, outcome }) => Ok(Some(outcome)),
        Ok(Reply::Replay { .. }) => Ok(None),
        Err(fault) => match fault {
            ReplyFault::Memory => Err(Memory),
            _ => Ok(None),
        },
    }
}

// Each byte is below 256, as its type says.
fn check_bytes(bytes: &[u8])
    ensures { All (λ byte. byte < 256) bytes.now }
{
    let _ = bytes.len();
}

// Whether an outcome is right for the problem and a search of so many nodes.
fn is_right(problem: &Problem, nodes: u32, outcome: &Outcome) -> bool
    requires { IsTrue (is_formed (tree_of outcome.now)) }
    ensures { result ≡ is_right problem.now nodes outcome.now }
{
    check_outcome(problem, nodes, outcome).is_ok()
}
