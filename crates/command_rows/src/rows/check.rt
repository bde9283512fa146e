//! `check`, and the line of each fault of a certificate.

use super::run;
use bound_certificate::TreeWhy;
use certificate_text::CertFault;
use mon_command::{Input, Status, status_line, status_number};
use mon_io::{MemInputs, MemSink};
use std::alloc::{AllocError, Global};
use std::test::Fail;

// The fields of a switch, and the start of each path.
const TWO_COSTS: &str = "[[switch]]
name = 'a'
capacity = 10
open = 5
unit = 1
[[switch]]
name = 'b'
capacity = 10
open = 12
unit = 0
";

const TWO_FREE: &str = "[[switch]]
name = 'a'
capacity = 5
open = 0
unit = 0
[[switch]]
name = 'b'
capacity = 5
open = 0
unit = 0
";

const ONE_SMALL: &str = "[[switch]]
name = 'a'
capacity = 8
open = 0
unit = 0
";

// A topology of these switches, and of so many paths with these lines.
fn topology(alloc: Global, switches: &str, paths: u8, lines: &str) -> Result<String, AllocError> {
    let mut text = String::from_str(alloc, switches)?;
    for path in 0..paths.min(3) {
        let (from, to) = (2 * path, 2 * path + 1);
        let lines = format!(in alloc;
            "[[path]]\nname = 'p{path}'\nfrom = '10.{from}.0.0/16'\nto = '10.{to}.0.0/16'\n{lines}\n"
        )?;
        text.push_str(&lines)?;
    }
    Ok(text)
}

// Inputs with a topology `T` and a tree `C`, of which at most one call fails.
fn two_inputs(
    alloc: Global,
    topology: &str,
    tree: &str,
    fails: Option<u32>,
) -> Result<MemInputs, AllocError> {
    let mut files = Vec::new(alloc);
    let bytes = topology.as_bytes().to_vec(alloc)?;
    files.push((String::from_str(alloc, "T")?, bytes))?;
    let bytes = tree.as_bytes().to_vec(alloc)?;
    files.push((String::from_str(alloc, "C")?, bytes))?;
    Ok(MemInputs::new(files, fails.into_iter().collect(alloc)?))
}

// The lines of a certificate with these nodes.
fn certificate(alloc: Global, nodes: &str) -> Result<String, AllocError> {
    format!(in alloc; "univmon tree 1\n{nodes}\nend\n")
}

// The switches, how many paths there are with which lines, the nodes, and what is written of them.
#[test]
fn tells_bounds(rt: HostRuntime) -> Result<(), Fail> {
    let alloc = rt.alloc();
    let four = "load = 4\nvia = ['a', 'b']";
    for (switches, paths, lines, nodes, said) in [
        (
            TWO_COSTS,
            2,
            four,
            "branch 2\ndual 1 4 2 0 0\ndual 1 0 2 0 0",
            "bound 12\nbranches 1\nfull no",
        ),
        (
            TWO_COSTS,
            2,
            four,
            "branch 2\nbranch 2\nfull\nfull\nbranch 2\nfull\nfull",
            "bound 12\nbranches 3\nfull yes",
        ),
        (
            TWO_FREE,
            3,
            "load = 3\nvia = ['a', 'b']",
            "branch 2\nbranch 2\nover\nbranch 2\nover\nover\nbranch 2\nbranch 2\nover\nover\nover",
            "bound none\nbranches 5\nfull no",
        ),
    ] {
        let network = topology(alloc, switches, paths, lines)?;
        let tree = certificate(alloc, nodes)?;
        let mut inputs = two_inputs(alloc, &network, tree.as_str(), None)?;
        let mut sink = MemSink::new(alloc, 4096, Vec::new(alloc))?;
        let status = run(alloc, "check T C", &mut inputs, &mut sink)?;
        assert_eq!(rt; status, Status::Done, "{nodes}");
        let text = format!(in alloc; "univmon check 1\n{said}\nend\n")?;
        assert_eq!(rt; sink.bytes(), text.as_bytes());
    }
    Ok(())
}

// The switches, how many paths there are with which lines, the tree, and why it is refused.
#[test]
fn refuses_certificates(rt: HostRuntime) -> Result<(), Fail> {
    let alloc = rt.alloc();
    let four = "load = 4\nvia = ['a', 'b']";
    for (switches, paths, lines, tree, fault) in [
        (
            TWO_COSTS,
            2,
            four,
            "univmon tree 1\ndual 2 13 0 2 0 0\nend\n",
            CertFault::Node {
                node: 0,
                why: TreeWhy::DualSum { switch: 0 },
            },
        ),
        (
            TWO_COSTS,
            2,
            four,
            "univmon tree 1\nbranch 2\nbranch 2\nfull\nfull\nbranch 2\nfull\nover\nend\n",
            CertFault::Node {
                node: 6,
                why: TreeWhy::NotOver,
            },
        ),
        (TWO_COSTS, 2, four, "over\nend\n", CertFault::NoTree),
        (
            TWO_COSTS,
            2,
            four,
            "univmon tree 1\nfull\n",
            CertFault::Line { line: 3 },
        ),
        (
            TWO_FREE,
            3,
            "load = 3\nvia = ['a', 'b']",
            "univmon tree 1\nover\nend\n",
            CertFault::Node {
                node: 0,
                why: TreeWhy::NotOver,
            },
        ),
        (
            ONE_SMALL,
            2,
            "load = 5\nvia = ['a']",
            "univmon tree 1\nbranch 1\nbranch 1\nover\nend\n",
            CertFault::Node {
                node: 0,
                why: TreeWhy::Idle,
            },
        ),
    ] {
        let network = topology(alloc, switches, paths, lines)?;
        let mut inputs = two_inputs(alloc, &network, tree, None)?;
        let mut sink = MemSink::new(alloc, 4096, Vec::new(alloc))?;
        let status = run(alloc, "check T C", &mut inputs, &mut sink)?;
        assert_eq!(rt; status, Status::Certificate(fault), "{tree}");
        assert!(rt; sink.bytes().is_empty());
    }
    Ok(())
}

// The words, the call of the inputs that fails, and the input that could not be read.
#[test]
fn tells_what_could_not_be_read(rt: HostRuntime) -> Result<(), Fail> {
    let alloc = rt.alloc();
    let network = topology(alloc, ONE_SMALL, 1, "load = 5\nvia = ['a']")?;
    for (line, fails, input) in [
        ("check T C", Some(0), Input::Topology),
        ("check T C", Some(3), Input::Tree),
        ("check T D", None, Input::Tree),
    ] {
        let mut inputs = two_inputs(alloc, &network, "", fails)?;
        let mut sink = MemSink::new(alloc, 4096, Vec::new(alloc))?;
        let status = run(alloc, line, &mut inputs, &mut sink)?;
        assert_eq!(rt; status, Status::ReadFault(input), "{line}");
        assert!(rt; sink.bytes().is_empty());
    }
    Ok(())
}

#[test]
fn each_fault_of_a_certificate_has_its_line(rt: HostRuntime) -> Result<(), Fail> {
    let alloc = rt.alloc();
    let node = 7;
    for (fault, line) in [
        (CertFault::TooLong, "too long"),
        (CertFault::NoTree, "no tree"),
        (CertFault::Line { line: 12 }, "line 12"),
        (
            CertFault::Node {
                node,
                why: TreeWhy::DualSum { switch: 3 },
            },
            "node 7 dual sum 3",
        ),
    ] {
        let status = Status::Certificate(fault);
        assert_eq!(rt; status_number(&status), 11, "{line}");
        let told = status_line(alloc, &status)?;
        let wanted = format!(in alloc; "univmon: certificate: {line}")?;
        assert_eq!(rt; told.as_bytes(), wanted.as_bytes(), "{line}");
    }
    let told = status_line(alloc, &Status::ReadFault(Input::Tree))?;
    assert_eq!(rt; told.as_bytes(), "univmon: cannot read tree".as_bytes());
    Ok(())
}
