//! Trees from text.
ghost use Rattle.std.specs.Prelude.{◌≡◌, ◌↔◌, ◌⊎◌, ◌+◌, ◌<◌, ◌^◌, length, IsTrue, IfErr, OnOk, Result, Err};
ghost use Rattle.certificate_text.specs.ReadText.{ended, ReadsText};
ghost use Rattle.certificate_text.specs.TextEnds.{IsHeadPassed, IsHeadless, end_line, IsNotEnded};
ghost use Rattle.certificate_text.specs.declared.fault.CertFault.{CertFault};
ghost use Rattle.certificate_text.specs.declared.fault.CertFault.TheVariants.{Memory};
ghost use Rattle.bound_certificate.specs.declared.tree.Tree.{Tree};

use crate::cursor::Cursor;
use crate::fault::CertFault;
use crate::node_lines::read_tree;
use bound_certificate::Tree;
use std::alloc::Global;

/// The tree that a text spells from its first line on that is exactly `univmon tree 1`: a line for each node in
/// preorder, then `end`, with one space between parts, no leading zeros and a line feed behind each line.
///
/// `TooLong` where the text is above 67,108,864 bytes, else `NoTree` where the head line is missing, else `Line`
/// with the first line that breaks the grammar. It never answers `Node`. Takes memory.
pub fn read_tree_text(alloc: Global, text: &[u8]) -> Result<Tree, CertFault>
    ensures reads { (result ≡ Err Memory) ⊎ ReadsText text.now result }

    // No other answer would do.
    ensures alone { (other : Result Tree CertFault) → ReadsText text.now other →
        (result ≡ Err Memory) ⊎ (result ≡ other) }
{
    tree_in(alloc, text)
}

// The tree that a text spells.
fn tree_in(alloc: Global, text: &[u8]) -> Result<Tree, CertFault>
    ensures { (result ≡ Err Memory) ⊎ ReadsText text.now result }
{
    if text.len() > 67_108_864 {
        return Err(CertFault::TooLong);
    }
    let mut cursor = Cursor {
        rest: text,
        number: 1,
        branches: 4096,
    };
    pass_head(&mut cursor)?;
    let tree = read_tree(alloc, &mut cursor, 0)?;
    read_end(&mut cursor)?;
    Ok(tree)
}

// Passes the lines up to the first head line, and that.
fn pass_head(cursor: &mut Cursor) -> Result<(), CertFault>
    requires { cursor.old.number + length cursor.old.rest.now < 2 ^ 32 }
    ensures ok { OnOk result (IsHeadPassed cursor.old cursor.new) }
    ensures err { IfErr result (IsHeadless cursor.old) }
{
    while let Some(line) = cursor.next() {
        if is_text(line, "univmon tree 1") {
            return Ok(());
        }
    }
    if is_text(cursor.rest, "univmon tree 1") {
        return Err(CertFault::Line {
            line: cursor.number,
        });
    }
    Err(CertFault::NoTree)
}

// Passes the end line, behind which nothing stands.
fn read_end(cursor: &mut Cursor) -> Result<(), CertFault>
    requires { cursor.old.number + length cursor.old.rest.now < 2 ^ 32 }
    ensures ok { OnOk result (cursor.old.rest.now ≡ ended end_line) }
    ensures err { IfErr result (IsNotEnded cursor.old) }
{
    let line = cursor.number;
    let Some(last) = cursor.next() else {
        return Err(CertFault::Line { line });
    };
    if !is_text(last, "end") {
        return Err(CertFault::Line { line });
    }
    if cursor.rest.is_empty() {
        return Ok(());
    }
    Err(CertFault::Line {
        line: cursor.number,
    })
}

fn is_text(line: &[u8], text: &str) -> bool
    ensures { IsTrue result ↔ (line.now ≡ text.now) }
{
    line == text.as_bytes()
}
