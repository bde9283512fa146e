//! Texts that are read as trees, and the first line that breaks each other text.

use bound_certificate::Tree;
use certificate_text::{CertFault, read_tree_text, tree_text};
use std::alloc::{AllocError, Global};
use std::process::Abort;
use std::test::Fail;

fn read(alloc: Global, text: &str) -> Result<Tree, CertFault> {
    read_tree_text(alloc, text.as_bytes())
}

#[test]
fn a_text_is_written_back_from_its_head_on(rt: HostRuntime) -> Result<(), Fail> {
    let text = "a log\n\nunivmon tree 1\nbranch 2\ndual 1 4 2 0 0\ndual 1 0 2 0 0\nend\n";
    let tree = read(rt.alloc(), text).expect(&rt, "the text of a tree");
    let written = tree_text(rt.alloc(), &tree).expect(&rt, "ample memory");
    let lines = "univmon tree 1\nbranch 2\ndual 1 4 2 0 0\ndual 1 0 2 0 0\nend\n";
    assert_eq!(rt; written.as_str(), lines);
    Ok(())
}

#[test]
fn the_first_line_that_breaks_a_text(rt: HostRuntime) -> Result<(), Fail> {
    for (text, line) in [
        ("univmon tree 1", 1),
        ("a log\n\nunivmon tree 1", 3),
        ("univmon tree 1\n", 2),
        ("univmon tree 1\nhall 01 0\nend\n", 2),
        ("a log\n\nunivmon tree 1\nbranch 02\nover\nover\nend\n", 4),
        ("univmon tree 1\nbranch 2\nover\nend\n", 4),
        ("univmon tree 1\nbranch 2\nover\n", 4),
        ("univmon tree 1\nover\n", 3),
        ("univmon tree 1\nover\nover\nend\n", 3),
        ("univmon tree 1\nover\nend", 3),
        ("univmon tree 1\nover\nend\n\n", 4),
        ("a log\n\nunivmon tree 1\nbranch 1\nfull\nend\nend\n", 7),
    ] {
        let fault = read(rt.alloc(), text).err();
        assert_eq!(rt; fault, Some(CertFault::Line { line }), "{text}");
    }
    Ok(())
}

#[test]
fn texts_without_a_head_line(rt: HostRuntime) -> Result<(), Fail> {
    for text in [
        "",
        "univmon tree 1 \nover\nend\n",
        " univmon tree 1\nover\nend\n",
        "univmon tree 10\nover\nend\n",
        "univmon tree 1\r\nover\nend\n",
        "a log\nunivmon tree",
    ] {
        let fault = read(rt.alloc(), text).err();
        assert_eq!(rt; fault, Some(CertFault::NoTree), "{text}");
    }
    Ok(())
}

// So many Branch nodes of one child, each below the one before it.
fn chain_text(alloc: Global, count: usize) -> Result<String, AllocError> {
    let mut text = String::from_str(alloc, "univmon tree 1\n")?;
    for _ in 0..count {
        text.push_str("branch 1\n")?;
    }
    text.push_str("over\nend\n")?;
    Ok(text)
}

#[test]
fn the_branch_at_depth_64_breaks_a_text(rt: HostRuntime) -> Result<(), Fail> {
    let text = chain_text(rt.alloc(), 64)?;
    assert!(rt; read(rt.alloc(), text.as_str()).is_ok(), "64 Branch nodes");
    let text = chain_text(rt.alloc(), 65)?;
    let fault = read(rt.alloc(), text.as_str()).err();
    assert_eq!(rt; fault, Some(CertFault::Line { line: 66 }));
    Ok(())
}

// So many bytes of 0.
fn zeros(alloc: Global, size: usize) -> Result<Vec<u8>, AllocError> {
    let mut bytes = Vec::new(alloc);
    bytes.resize(size, 0)?;
    Ok(bytes)
}

#[test]
fn a_text_has_at_most_64_mebibytes(rt: HostRuntime) -> Result<(), Fail> {
    let most = zeros(rt.alloc(), 67_108_864)?;
    let fault = read_tree_text(rt.alloc(), &most).err();
    assert_eq!(rt; fault, Some(CertFault::NoTree));
    let more = zeros(rt.alloc(), 67_108_865)?;
    let fault = read_tree_text(rt.alloc(), &more).err();
    assert_eq!(rt; fault, Some(CertFault::TooLong));
    Ok(())
}
