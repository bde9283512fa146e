//! Trees as bytes.
ghost use Rattle.std.specs.Prelude.{◌≡◌, ◌≤◌, ◌<◌, ◌+◌, ◌++◌, ◌∷◌, [], length, map, sum, nat_le, IsTrue, IfOk, OnOk};
ghost use Rattle.std.specs.List.{concat, list_all};
ghost use Rattle.std.specs.Int.{w64, to_le_bytes};
ghost use Rattle.bound_certificate.specs.Tree.{part_of};
ghost use Rattle.bound_certificate.specs.Formed.{is_formed, is_formed_at, is_formed_part};
ghost use Rattle.certificate_text.specs.Bytes.{in_eights, part_bytes, bytes_of};

use bound_certificate::{Tree, children};
use mon_io::Memory;
use std::alloc::Global;

/// The bytes of a tree that is within its limits: its nodes in preorder, each a kind byte and its parts. Numbers
/// have eight bytes, the low one first.
pub fn tree_bytes(alloc: Global, tree: &Tree) -> Result<Vec<u8>, Memory>
    requires { IsTrue (is_formed tree.now) }
    ensures value { IfOk result (λ bytes. bytes.items ≡ bytes_of tree.now) }
{
    let mut out = Vec::new(alloc);
    put_tree(&mut out, tree, 0)?;
    Ok(out)
}

// Appends a tree whose root has this depth.
#[cycle(bytes)]
fn put_tree(out: &mut Vec<u8>, tree: &Tree, depth: u8) -> Result<(), Memory>
    requires formed { IsTrue (is_formed_at tree.now depth) }
    requires depth { depth ≤ 64 }
    ensures { OnOk result (out.new.items ≡ out.old.items ++ bytes_of tree.now) }
{
    put_part(out, tree, depth)?;
    put_trees(out, children(tree), depth + 1)
}

#[cycle(bytes)]
fn put_trees(out: &mut Vec<u8>, trees: &[Tree], depth: u8) -> Result<(), Memory>
    requires formed { IsTrue (list_all (λ child. child depth) (map is_formed_at trees.now)) }
    requires depth { 0 < length trees.now → depth ≤ 64 }
    ensures { OnOk result (out.new.items ≡ out.old.items ++ concat (map bytes_of trees.now)) }
{
    for tree in trees {
        put_tree(out, tree, depth)?;
    }
    Ok(())
}

// Appends a node without its children.
fn put_part(out: &mut Vec<u8>, tree: &Tree, depth: u8) -> Result<(), Memory>
    requires { IsTrue (is_formed_part depth (part_of tree.now)) }
    ensures { OnOk result (out.new.items ≡ out.old.items ++ part_bytes (part_of tree.now)) }
{
    match tree {
        Tree::Branch(children) => put_branch(out, children.len()),
        Tree::Over => put_byte(out, 1),
        Tree::Hall(names) => put_hall(out, names.as_slice()),
        Tree::Dual { lambda, mu } => put_dual(out, lambda.as_slice(), mu.as_slice()),
        Tree::Full => put_byte(out, 4),
    }
}

fn put_branch(out: &mut Vec<u8>, children: usize) -> Result<(), Memory>
    requires { children ≤ 8 }
    ensures { OnOk result (out.new.items ≡ out.old.items ++ 0 ∷ children ∷ []) }
{
    put_byte(out, 0)?;
    put_byte(out, children as u8)
}

fn put_hall(out: &mut Vec<u8>, names: &[u8]) -> Result<(), Memory>
    requires { length names.now ≤ 64 }
    ensures { OnOk result (out.new.items ≡ out.old.items ++ 2 ∷ length names.now ∷ names.now) }
{
    put_byte(out, 2)?;
    put_byte(out, names.len() as u8)?;
    match out.extend_from_slice(names) {
        Ok(()) => Ok(()),
        Err(_) => Err(Memory),
    }
}

fn put_dual(out: &mut Vec<u8>, lambda: &[u64], mu: &[u64]) -> Result<(), Memory>
    requires lambda { length lambda.now ≤ 64 }
    requires mu { length mu.now ≤ 32 }
    ensures { OnOk result (out.new.items ≡ out.old.items
        ++ 3 ∷ length lambda.now ∷ (in_eights lambda.now ++ (length mu.now ∷ in_eights mu.now))) }
{
    put_byte(out, 3)?;
    put_byte(out, lambda.len() as u8)?;
    put_numbers(out, lambda)?;
    put_byte(out, mu.len() as u8)?;
    put_numbers(out, mu)
}

fn put_numbers(out: &mut Vec<u8>, numbers: &[u64]) -> Result<(), Memory>
    ensures { OnOk result (out.new.items ≡ out.old.items ++ in_eights numbers.now) }
{
    for number in numbers {
        put_number(out, *number)?;
    }
    Ok(())
}

fn put_number(out: &mut Vec<u8>, number: u64) -> Result<(), Memory>
    ensures { OnOk result (out.new.items ≡ out.old.items ++ to_le_bytes w64 number) }
{
    match out.extend_from_slice(&number.to_le_bytes()) {
        Ok(()) => Ok(()),
        Err(_) => Err(Memory),
    }
}

fn put_byte(out: &mut Vec<u8>, byte: u8) -> Result<(), Memory>
    ensures { OnOk result (out.new.items ≡ out.old.items ++ byte ∷ []) }
{
    match out.push(byte) {
        Ok(()) => Ok(()),
        Err(_) => Err(Memory),
    }
}
