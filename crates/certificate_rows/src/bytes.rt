//! Trees read from bytes, and bytes that are no tree's.

use bound_certificate::Tree;
use certificate_text::{TreeBytesFault, read_tree_bytes};
use std::alloc::Global;
use std::process::Abort;
use std::test::Fail;

// The tree at the front, which takes so many bytes.
fn tree_of(rt: &impl Abort, alloc: Global, bytes: &[u8], size: usize) -> Tree {
    let (tree, taken) = read_tree_bytes(alloc, bytes).expect(rt, "a tree");
    assert_eq!(rt; taken, size);
    tree
}

fn assert_hall(rt: &impl Abort, tree: Tree, needs: &[u8]) {
    match tree {
        Tree::Hall(names) => assert_eq!(rt; names.as_slice(), needs),
        _ => panic!(rt; "a Hall"),
    }
}

#[test]
fn a_hall_is_read_whatever_follows(rt: HostRuntime) -> Result<(), Fail> {
    assert_hall(&rt, tree_of(&rt, rt.alloc(), &[2, 2, 0, 1], 4), &[0, 1]);
    assert_hall(
        &rt,
        tree_of(&rt, rt.alloc(), &[2, 2, 0, 1, 2, 255], 4),
        &[0, 1],
    );
    assert_hall(&rt, tree_of(&rt, rt.alloc(), &[2, 0], 2), &[]);
    Ok(())
}

#[test]
fn a_branch_is_read_with_its_leaves(rt: HostRuntime) -> Result<(), Fail> {
    let bytes = [0, 3, 3, 1, 2, 1, 0, 0, 0, 0, 0, 0, 0, 1, 4, 4];
    match tree_of(&rt, rt.alloc(), &bytes, 15) {
        Tree::Branch(children) => match children.as_slice() {
            [Tree::Dual { lambda, mu }, Tree::Over, Tree::Full] => {
                assert_eq!(rt; lambda.as_slice(), [258].as_slice());
                assert_eq!(rt; mu.len(), 0);
            }
            _ => panic!(rt; "a Dual, an Over and a Full leaf"),
        },
        _ => panic!(rt; "a Branch"),
    }
    Ok(())
}

// Why each of these is no tree.
fn assert_faults(rt: &impl Abort, alloc: Global, table: &[&[u8]], fault: TreeBytesFault) {
    for bytes in table {
        match read_tree_bytes(alloc, bytes) {
            Ok(_) => panic!(rt; "no tree"),
            Err(why) => assert_eq!(rt; why, fault),
        }
    }
}

#[test]
fn bytes_end_inside_a_tree(rt: HostRuntime) -> Result<(), Fail> {
    let table = [
        [].as_slice(),
        &[0],
        &[0, 1],
        &[0, 2, 4],
        &[0, 1, 2, 1],
        &[2],
        &[2, 2, 63],
        &[3],
        &[3, 1, 0, 0, 0, 0, 0, 0, 0],
        &[3, 1, 0, 0, 0, 0, 0, 0, 0, 0],
        &[3, 0, 1, 255],
    ];
    assert_faults(&rt, rt.alloc(), &table, TreeBytesFault::Short);
    Ok(())
}

#[test]
fn bytes_are_no_trees(rt: HostRuntime) -> Result<(), Fail> {
    let table = [
        [5].as_slice(),
        &[0, 0],
        &[0, 9],
        &[0, 2, 4, 5],
        &[2, 65],
        &[2, 2, 64],
        &[3, 65],
        &[3, 0, 33],
        &[3, 1, 0, 0, 0, 0, 0, 0, 0, 1],
        &[3, 0, 1, 0, 0, 0, 0, 0, 0, 0, 1],
    ];
    assert_faults(&rt, rt.alloc(), &table, TreeBytesFault::Shape);
    Ok(())
}

#[test]
fn no_branch_has_depth_64(rt: HostRuntime) -> Result<(), Fail> {
    let mut bytes = Vec::new(rt.alloc());
    for _ in 0..64 {
        bytes.extend_from_slice(&[0, 1])?;
    }
    assert_faults(&rt, rt.alloc(), &[&bytes], TreeBytesFault::Short);
    bytes.push(0)?;
    assert_faults(&rt, rt.alloc(), &[&bytes], TreeBytesFault::Shape);
    Ok(())
}
