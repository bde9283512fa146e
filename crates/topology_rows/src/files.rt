//! Files as a whole, and their two lists.
use crate::made::{PATH, SWITCH, fault_of, file_of};
use std::alloc::{AllocError, Global};
use std::test::Fail;
use topology::{Entry, Topology, TopologyFault, What};

const FILE: &str = "[[switch]]
name = \"s0\"
capacity = 10
open = 10
unit = 1
[[path]]
name = \"p0\"
from = \"10.0.0.0/16\"
to = \"10.1.0.0/16\"
load = 5
via = [\"s0\"]
";

const SWITCH_LIST: TopologyFault = TopologyFault::Missing {
    entry: Entry::Switch,
    index: 0,
    what: What::List,
};

const PATH_LIST: TopologyFault = TopologyFault::Missing {
    entry: Entry::Path,
    index: 0,
    what: What::List,
};

const TWO_SWITCHES: TopologyFault = TopologyFault::TwiceNamed {
    entry: Entry::Switch,
    index: 1,
};

const TWO_PATHS: TopologyFault = TopologyFault::TwiceNamed {
    entry: Entry::Path,
    index: 2,
};

// What is wrong with two lists, and then with the element of which number.
#[derive(Clone, Copy)]
enum Wrong {
    Kind(u32),
    Count(u32),
    NoName,
}

const LISTS: [(&str, usize, Wrong, Wrong); 8] = [
    ("1,", 1, Wrong::Kind(0), Wrong::Kind(0)),
    ("{},{},[],1", 1, Wrong::Kind(2), Wrong::Kind(2)),
    ("{},{},{},''", 1, Wrong::Kind(3), Wrong::Kind(3)),
    ("", 1, Wrong::Count(0), Wrong::Count(0)),
    ("{},", 32, Wrong::NoName, Wrong::NoName),
    ("{},", 33, Wrong::Count(33), Wrong::NoName),
    ("{},", 64, Wrong::Count(64), Wrong::NoName),
    ("{},", 65, Wrong::Count(65), Wrong::Count(65)),
];

fn fault(entry: Entry, wrong: Wrong) -> Option<TopologyFault> {
    let what = What::List;
    match wrong {
        Wrong::Kind(index) => Some(TopologyFault::WrongKind { entry, index, what }),
        Wrong::Count(found) => Some(TopologyFault::Count {
            entry,
            index: 0,
            what,
            found,
        }),
        Wrong::NoName => Some(TopologyFault::Missing {
            entry,
            index: 0,
            what: What::Name,
        }),
    }
}

fn repeated(alloc: Global, text: &str, count: usize) -> Result<String, AllocError> {
    let mut all = String::new(alloc);
    for _ in 0..count {
        all.push_str(text)?;
    }
    Ok(all)
}

fn blanks(alloc: Global, count: usize) -> Result<Vec<u8>, AllocError> {
    vec![in alloc; b' '; count]
}

#[test]
fn one_switch_and_one_path(rt: HostRuntime) -> Result<(), Fail> {
    let topology = Topology::from_toml(rt.alloc(), FILE.as_bytes()).expect(&rt, "a topology");
    assert_eq!(rt; (topology.switches(), topology.paths()), (1, 1));
    assert!(rt; topology.switch_name(0) == "s0" && topology.path_name(0) == "p0");
    let site = topology.problem().sites().first().expect(&rt, "a site");
    assert_eq!(rt; (site.capacity, site.opening, site.unit), (10, 10, 1));
    let need = topology.problem().needs().first().expect(&rt, "a need");
    assert!(rt; need.load == 5 && need.via.as_slice() == [0u8].as_slice());
    Ok(())
}

#[test]
fn files_without_lists(rt: HostRuntime) -> Result<(), Fail> {
    let cases = [
        ("switch = ", "", TopologyFault::NotToml),
        ("switch = 1\nswitch = 2", "", TopologyFault::NotToml),
        ("path = 1", "", SWITCH_LIST),
        ("switch = [", SWITCH, PATH_LIST),
    ];
    for (head, switch, fault) in cases {
        let tail = if switch.is_empty() { "" } else { "]" };
        let file = format!(in rt.alloc(); "{head}{switch}{tail}")?;
        assert_eq!(rt; fault_of(rt.alloc(), file.as_str()), Some(fault), "{head}");
    }
    let fault = Topology::from_toml(rt.alloc(), b"name = '\xff'").err();
    assert_eq!(rt; fault, Some(TopologyFault::NotToml));
    Ok(())
}

#[test]
fn the_longest_file(rt: HostRuntime) -> Result<(), Fail> {
    let cases = [
        (1_048_576, SWITCH_LIST),
        (1_048_577, TopologyFault::TooLong),
    ];
    for (length, fault) in cases {
        let file = blanks(rt.alloc(), length)?;
        assert_eq!(rt;
            Topology::from_toml(rt.alloc(), file.as_slice()).err(),
            Some(fault)
        );
    }
    Ok(())
}

#[test]
fn faults_of_lists(rt: HostRuntime) -> Result<(), Fail> {
    for (element, count, of_switches, of_paths) in LISTS {
        let elements = repeated(rt.alloc(), element, count)?;
        let file = file_of(rt.alloc(), elements.as_str(), "1")?;
        assert_eq!(rt;
            fault_of(rt.alloc(), file.as_str()),
            fault(Entry::Switch, of_switches)
        );
        let file = file_of(rt.alloc(), SWITCH, elements.as_str())?;
        assert_eq!(rt;
            fault_of(rt.alloc(), file.as_str()),
            fault(Entry::Path, of_paths)
        );
    }
    Ok(())
}

#[test]
fn names_that_stand_twice(rt: HostRuntime) -> Result<(), Fail> {
    let other = "{name='p1',from='::/0',to='::/0',load=1,via=['s0']}";
    let switches = format!(in rt.alloc(); "{SWITCH},{SWITCH}")?;
    let file = file_of(rt.alloc(), switches.as_str(), "1")?;
    assert_eq!(rt; fault_of(rt.alloc(), file.as_str()), Some(TWO_SWITCHES));
    let paths = format!(in rt.alloc(); "{PATH},{other},{PATH}")?;
    let file = file_of(rt.alloc(), SWITCH, paths.as_str())?;
    assert_eq!(rt; fault_of(rt.alloc(), file.as_str()), Some(TWO_PATHS));
    Ok(())
}

#[test]
fn the_longest_via(rt: HostRuntime) -> Result<(), Fail> {
    let mut switches = String::from_str(rt.alloc(), SWITCH)?;
    for name in ["s1", "s2", "s3", "s4", "s5", "s6", "s7"] {
        let switch = format!(in rt.alloc(); ",{{name='{name}',capacity=1,open=1,unit=1}}")?;
        switches.push_str(switch.as_str())?;
    }
    let via = "['s7','s0','s1','s2','s3','s4','s5','s6']";
    let path = format!(in rt.alloc(); "{{name='a',from='::/0',to='::/0',load=1,via={via}}}")?;
    let file = file_of(rt.alloc(), switches.as_str(), path.as_str())?;
    assert_eq!(rt; fault_of(rt.alloc(), file.as_str()), None);
    Ok(())
}
