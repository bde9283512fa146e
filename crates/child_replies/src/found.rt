//! What a search found, up to its tree, from bytes.
ghost use Rattle.std.specs.Prelude.{◌≡◌, ◌≤◌, ◌∷◌, [], ◌++◌, ℕ, length, IfOk, IfErr};
ghost use Rattle.child_replies.specs.Solved.{HasSites, found_of, outcome_of};
ghost use Rattle.child_replies.specs.Steps.{SolveMayStop, SolveMoves};
ghost use Rattle.reply_format.specs.Outcomes as solves;
ghost use Rattle.reply_format.specs.Read.{IsFound, found_bytes};

use crate::front::next_byte;
use bound_certificate::{Outcome, Placement, Tree};
use reply_format::ReplyFault;
use sqlite_items::Items;
use std::alloc::Global;

/// What a search found, but for its tree.
#[derive(Debug, Drop)]
pub(crate) enum Found {
    /// The site of each need.
    Placed(Items<u8>),
    /// No placement fits.
    Infeasible,
    /// All nodes were spent, and no placement was found.
    Spent,
}

/// What was found, and what stands behind it.
pub(crate) fn read_found(alloc: Global, bytes: &[u8]) -> Result<(Found, &[u8]), ReplyFault>
    ensures on { IfOk result (λ read. (number : ℕ) →
        SolveMoves number solves.Outcome bytes.now (solves.Tree (found_of read.0)) read.1.now) }
    ensures parts { IfOk result (λ read. bytes.now ≡ found_bytes (found_of read.0) ++ read.1.now) }
    ensures within { IfOk result (λ read. IsFound (found_of read.0)) }
    ensures stop { IfErr result (λ fault. (number : ℕ) → SolveMayStop number solves.Outcome bytes.now fault) }
{
    let Some((kind, rest)) = next_byte(bytes) else {
        return Err(ReplyFault::Short);
    };
    if kind == 0 {
        return match read_placed(alloc, rest) {
            Ok(read) => Ok(read),
            Err(fault) => Err(fault),
        };
    }
    if kind == 1 {
        return Ok((Found::Infeasible, rest));
    }
    if kind == 2 {
        return Ok((Found::Spent, rest));
    }
    Err(ReplyFault::Shape)
}

// A placement, behind its kind.
fn read_placed(alloc: Global, bytes: &[u8]) -> Result<(Found, &[u8]), ReplyFault>
    ensures on { IfOk result (λ read. (number : ℕ) →
        SolveMoves number solves.Count bytes.now (solves.Tree (found_of read.0)) read.1.now) }
    ensures parts { IfOk result (λ read. 0 ∷ bytes.now ≡ found_bytes (found_of read.0) ++ read.1.now) }
    ensures within { IfOk result (λ read. IsFound (found_of read.0)) }
    ensures stop { IfErr result (λ fault. (number : ℕ) → SolveMayStop number solves.Count bytes.now fault) }
{
    let Some((count, rest)) = next_byte(bytes) else {
        return Err(ReplyFault::Short);
    };
    if count == 0 {
        return Err(ReplyFault::Shape);
    }
    if count > 64 {
        return Err(ReplyFault::Shape);
    }
    match read_sites(alloc, count, rest) {
        Ok((sites, rest)) => Ok((Found::Placed(sites), rest)),
        Err(fault) => Err(fault),
    }
}

// So many sites, and what stands behind them.
fn read_sites(alloc: Global, count: u8, bytes: &[u8]) -> Result<(Items<u8>, &[u8]), ReplyFault>
    requires { 1 ≤ count }
    ensures on { IfOk result (λ read. (number : ℕ) →
        SolveMoves number (solves.Site [] count) bytes.now (solves.Tree (solves.Placed read.0)) read.1.now) }
    ensures parts { IfOk result (λ read. HasSites count bytes.now read.0 read.1.now) }
    ensures stop { IfErr result (λ fault. (number : ℕ) → SolveMayStop number (solves.Site [] count) bytes.now fault) }
{
    let mut sites = Items::new(alloc);
    let mut rest = bytes;
    for _ in 0..count {
        let Some((site, after)) = next_byte(rest) else {
            return Err(ReplyFault::Short);
        };
        if site >= 32 {
            return Err(ReplyFault::Shape);
        }
        let Ok(()) = sites.push(site) else {
            return Err(ReplyFault::Memory);
        };
        rest = after;
    }
    Ok((sites, rest))
}

/// The outcome of what was found, with the tree that shows it.
pub(crate) fn outcome_with(found: Found, tree: Tree) -> Outcome
    ensures { result ≡ outcome_of found tree }
{
    match found {
        Found::Placed(sites) => Outcome::Placed {
            placement: Placement { sites },
            tree,
        },
        Found::Infeasible => Outcome::Infeasible { tree },
        Found::Spent => Outcome::Spent { tree },
    }
}
