//! A node from its line.
ghost use Rattle.std.specs.Prelude.{◌++◌, codes, IfOk};
ghost use Rattle.certificate_text.specs.NodeHead.{ReadsLine};

use crate::counted_numbers::{counted_names, counted_prices};
use crate::node_head::NodeHead;
use crate::numeral::{after, number};
use mon_io::Memory;
use std::alloc::Global;

/// The node whose line this is, without its line feed; None where it is no node's within the limits.
pub(crate) fn read_line(alloc: Global, line: &[u8]) -> Result<Option<NodeHead>, Memory>
    ensures reads { IfOk result (ReadsLine line.now) }
{
    if let Some(bytes) = after(line, b"branch ") {
        return Ok(branch(bytes));
    }
    if let Some(bytes) = after(line, b"hall ") {
        return hall(alloc, bytes);
    }
    if let Some(bytes) = after(line, b"dual ") {
        return dual(alloc, bytes);
    }
    if line == b"over".as_slice() {
        return Ok(Some(NodeHead::Over));
    }
    if line == b"full".as_slice() {
        return Ok(Some(NodeHead::Full));
    }
    Ok(None)
}

// A Branch, from what follows its word.
fn branch(bytes: &[u8]) -> Option<NodeHead>
    ensures { ReadsLine (codes "branch " ++ bytes.now) result }
{
    let Some((children, rest)) = number(bytes, 9) else {
        return None;
    };
    if children == 0 {
        return None;
    }
    if rest.is_empty() {
        Some(NodeHead::Branch(children as u8))
    } else {
        None
    }
}

// A Hall leaf, from what follows its word.
fn hall(alloc: Global, bytes: &[u8]) -> Result<Option<NodeHead>, Memory>
    ensures { IfOk result (ReadsLine (codes "hall " ++ bytes.now)) }
{
    let read = counted_names(alloc, bytes)?;
    let Some((names, rest)) = read else {
        return Ok(None);
    };
    if rest.is_empty() {
        Ok(Some(NodeHead::Hall(names)))
    } else {
        Ok(None)
    }
}

// A Dual leaf, from what follows its word.
fn dual(alloc: Global, bytes: &[u8]) -> Result<Option<NodeHead>, Memory>
    ensures { IfOk result (ReadsLine (codes "dual " ++ bytes.now)) }
{
    let read = counted_prices(alloc, bytes, 64)?;
    let Some((lambda, behind)) = read else {
        return Ok(None);
    };
    let Some(second) = after(behind, b" ") else {
        return Ok(None);
    };
    let read = counted_prices(alloc, second, 32)?;
    let Some((mu, rest)) = read else {
        return Ok(None);
    };
    if rest.is_empty() {
        Ok(Some(NodeHead::Dual { lambda, mu }))
    } else {
        Ok(None)
    }
}
