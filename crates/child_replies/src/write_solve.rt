//! A solve reply as bytes.
ghost use Rattle.std.specs.Prelude.{◌≡◌, ◌≤◌, ◌∷◌, [], ◌++◌, length, IsTrue, OnOk};
ghost use Rattle.bound_certificate.specs.Formed.{is_formed};
ghost use Rattle.certificate_text.specs.Bytes.{bytes_of};
ghost use Rattle.reply_format.specs.Reply.{IsSolveReply, outcome_bytes, solve_bytes};

use crate::write_head::front_bytes;
use bound_certificate::{Outcome, Tree};
use certificate_text::tree_bytes;
use mon_io::Memory;
use std::alloc::Global;

/// Appends the bytes of a solve reply.
pub(crate) fn put_solve(
    alloc: Global,
    number: u32,
    outcome: &Outcome,
    out: &mut Vec<u8>,
) -> Result<(), Memory>
    requires within { IsSolveReply (record { number = number; outcome = outcome.now }) }
    ensures { OnOk result (out.new.items ≡ out.old.items
        ++ solve_bytes 2 (record { number = number; outcome = outcome.now })) }
{
    put_bytes(&front_bytes(number), out)?;
    match outcome {
        Outcome::Placed { placement, tree } => {
            put_sites(placement.sites.as_slice(), out)?;
            put_tree(alloc, tree, out)
        }
        Outcome::Infeasible { tree } => {
            put_bytes(&[1], out)?;
            put_tree(alloc, tree, out)
        }
        Outcome::Spent { tree } => {
            put_bytes(&[2], out)?;
            put_tree(alloc, tree, out)
        }
    }
}

// Appends 0, how many sites there are, and these.
fn put_sites(sites: &[u8], out: &mut Vec<u8>) -> Result<(), Memory>
    requires { length sites.now ≤ 64 }
    ensures { OnOk result (out.new.items ≡ out.old.items ++ 0 ∷ length sites.now ∷ sites.now) }
{
    put_bytes(&[0, sites.len() as u8], out)?;
    put_bytes(sites, out)
}

fn put_tree(alloc: Global, tree: &Tree, out: &mut Vec<u8>) -> Result<(), Memory>
    requires { IsTrue (is_formed tree.now) }
    ensures { OnOk result (out.new.items ≡ out.old.items ++ bytes_of tree.now) }
{
    let bytes = tree_bytes(alloc, tree)?;
    put_bytes(bytes.as_slice(), out)
}

/// Appends bytes.
pub(crate) fn put_bytes(bytes: &[u8], out: &mut Vec<u8>) -> Result<(), Memory>
    ensures { OnOk result (out.new.items ≡ out.old.items ++ bytes.now) }
{
    match out.extend_from_slice(bytes) {
        Ok(()) => Ok(()),
        Err(_) => Err(Memory),
    }
}
