//! Trees written as text and as bytes.

use crate::made::{dual, fork};
use bound_certificate::{Tree, is_formed};
use certificate_text::{tree_bytes, tree_text};
use sqlite_items::Items;
use std::test::Fail;

#[test]
fn the_text_of_other_nodes(rt: HostRuntime) -> Result<(), Fail> {
    let hall = Tree::Hall(Items::from_slice(rt.alloc(), &[0, 12])?);
    let overs = fork(rt.alloc(), Tree::Over, Tree::Full)?;
    let tree = fork(rt.alloc(), hall, overs)?;
    let text = tree_text(rt.alloc(), &tree).expect(&rt, "ample memory");
    let lines = "univmon tree 1\nbranch 2\nhall 2 0 12\nbranch 2\nover\nfull\nend\n";
    assert_eq!(rt; text.as_str(), lines);
    Ok(())
}

#[test]
fn the_bytes_of_a_hall(rt: HostRuntime) -> Result<(), Fail> {
    let tree = Tree::Hall(Items::from_slice(rt.alloc(), &[0, 1])?);
    assert!(rt; is_formed(&tree), "a tree within its limits");
    let bytes = tree_bytes(rt.alloc(), &tree).expect(&rt, "ample memory");
    assert_eq!(rt; bytes.as_slice(), [2, 2, 0, 1].as_slice());
    Ok(())
}

#[test]
fn the_bytes_of_other_nodes(rt: HostRuntime) -> Result<(), Fail> {
    let leaf = dual(rt.alloc(), &[258], &[])?;
    let overs = fork(rt.alloc(), Tree::Over, Tree::Full)?;
    let tree = fork(rt.alloc(), leaf, overs)?;
    assert!(rt; is_formed(&tree), "a tree within its limits");
    let bytes = tree_bytes(rt.alloc(), &tree).expect(&rt, "ample memory");
    let spelled = [0, 2, 3, 1, 2, 1, 0, 0, 0, 0, 0, 0, 0, 0, 2, 1, 4];
    assert_eq!(rt; bytes.as_slice(), spelled.as_slice());
    Ok(())
}
