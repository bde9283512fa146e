//! Trees as text.
ghost use Rattle.std.specs.Prelude.{◌≡◌, ◌≤◌, ◌<◌, ◌+◌, ◌++◌, ◌∷◌, [], length, map, sum, decimal, codes, string_bytes, IfOk, OnOk};
ghost use Rattle.std.specs.List.{concat};
ghost use Rattle.bound_certificate.specs.Tree.{part_of};
ghost use Rattle.certificate_text.specs.Text.{spaced, counted, part_line, lines_of, text_of};

use bound_certificate::{Tree, children};
use itoa::Buffer;
use mon_io::Memory;
use std::alloc::Global;

/// The text of a tree: a head line, a line for each node in preorder, and an end line.
#[tactic(auto, unfolding(crate::specs::Text::text_of))]
pub fn tree_text(alloc: Global, tree: &Tree) -> Result<String, Memory>
    ensures value { IfOk result (λ text. string_bytes text ≡ text_of tree.now) }
{
    let mut text = String::new(alloc);
    put(&mut text, "univmon tree 1\n")?;
    put_tree(&mut text, tree)?;
    put(&mut text, "end\n")?;
    Ok(text)
}

// Appends the lines of a tree.
#[cycle(text)]
fn put_tree(text: &mut String, tree: &Tree) -> Result<(), Memory>
    ensures { OnOk result (string_bytes text.new ≡ string_bytes text.old ++ lines_of tree.now) }
{
    put_line(text, tree)?;
    put_trees(text, children(tree))
}

#[cycle(text)]
fn put_trees(text: &mut String, trees: &[Tree]) -> Result<(), Memory>
    ensures { OnOk result (string_bytes text.new ≡ string_bytes text.old ++ concat (map lines_of trees.now)) }
{
    for tree in trees {
        put_tree(text, tree)?;
    }
    Ok(())
}

// Appends the line of a node.
fn put_line(text: &mut String, tree: &Tree) -> Result<(), Memory>
    ensures { OnOk result (string_bytes text.new ≡ string_bytes text.old ++ part_line (part_of tree.now)) }
{
    match tree {
        Tree::Branch(children) => put_branch(text, children.len()),
        Tree::Over => put(text, "over\n"),
        Tree::Hall(names) => put_hall(text, names.as_slice()),
        Tree::Dual { lambda, mu } => put_dual(text, lambda.as_slice(), mu.as_slice()),
        Tree::Full => put(text, "full\n"),
    }
}

fn put_branch(text: &mut String, children: usize) -> Result<(), Memory>
    ensures { OnOk result (string_bytes text.new
        ≡ string_bytes text.old ++ (codes "branch " ++ (decimal children ++ codes "\n"))) }
{
    put(text, "branch ")?;
    put_number(text, children as u64)?;
    put(text, "\n")
}

fn put_hall(text: &mut String, names: &[u8]) -> Result<(), Memory>
    ensures { OnOk result (string_bytes text.new
        ≡ string_bytes text.old ++ (codes "hall " ++ (counted names.now ++ codes "\n"))) }
{
    put(text, "hall ")?;
    put_number(text, names.len() as u64)?;
    for name in names {
        put_spaced(text, u64::from(*name))?;
    }
    put(text, "\n")
}

fn put_dual(text: &mut String, lambda: &[u64], mu: &[u64]) -> Result<(), Memory>
    ensures { OnOk result (string_bytes text.new ≡ string_bytes text.old
        ++ (codes "dual " ++ (counted lambda.now ++ (codes " " ++ (counted mu.now ++ codes "\n"))))) }
{
    put(text, "dual ")?;
    put_counted(text, lambda)?;
    put(text, " ")?;
    put_counted(text, mu)?;
    put(text, "\n")
}

// Appends how many numbers there are, and each of them behind a space.
fn put_counted(text: &mut String, numbers: &[u64]) -> Result<(), Memory>
    ensures { OnOk result (string_bytes text.new ≡ string_bytes text.old ++ counted numbers.now) }
{
    put_number(text, numbers.len() as u64)?;
    for number in numbers {
        put_spaced(text, *number)?;
    }
    Ok(())
}

fn put_spaced(text: &mut String, number: u64) -> Result<(), Memory>
    ensures { OnOk result (string_bytes text.new ≡ string_bytes text.old ++ spaced number) }
{
    put(text, " ")?;
    put_number(text, number)
}

fn put_number(text: &mut String, number: u64) -> Result<(), Memory>
    ensures { OnOk result (string_bytes text.new ≡ string_bytes text.old ++ decimal number) }
{
    let mut buffer = Buffer::new();
    put(text, buffer.format(number))
}

fn put(text: &mut String, piece: &str) -> Result<(), Memory>
    ensures { OnOk result (string_bytes text.new ≡ string_bytes text.old ++ piece.now) }
{
    match text.push_str(piece) {
        Ok(()) => Ok(()),
        Err(_) => Err(Memory),
    }
}
