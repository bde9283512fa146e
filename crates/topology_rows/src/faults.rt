//! What is wrong with one entry, as the first and as the last of its list.
use crate::made::{PATH, SWITCH, fault_of, file_of};
use std::alloc::{AllocError, Global};
use std::test::Fail;
use topology::{Entry, TopologyFault, What};

// What is wrong with a value, and with how many elements.
#[derive(Clone, Copy)]
enum Wrong {
    Nothing,
    Missing,
    Kind,
    Range,
    Name,
    Prefix,
    Family,
    Count(u32),
    Unknown,
    Twice,
}

type Case = (&'static str, Wrong, What);

const SWITCHES: [Case; 29] = [
    ("{capacity=10,open=10,unit=1}", Wrong::Missing, What::Name),
    ("{name='a',open=10,unit=1}", Wrong::Missing, What::Capacity),
    (
        "{name='a',capacity=10,unit=1}",
        Wrong::Missing,
        What::Opening,
    ),
    ("{name='a',capacity=10,open=10}", Wrong::Missing, What::Unit),
    ("{name=1}", Wrong::Kind, What::Name),
    ("{name=['a']}", Wrong::Kind, What::Name),
    ("{name='a',capacity='1'}", Wrong::Kind, What::Capacity),
    ("{name='a',capacity=1.0}", Wrong::Kind, What::Capacity),
    (
        "{name='a',capacity=1,open=true}",
        Wrong::Kind,
        What::Opening,
    ),
    (
        "{name='a',capacity=1,open=1,unit={}}",
        Wrong::Kind,
        What::Unit,
    ),
    (
        "{name='a',capacity=1,open=1,unit=1979-05-27}",
        Wrong::Kind,
        What::Unit,
    ),
    ("{name='a',capacity=-1}", Wrong::Range, What::Capacity),
    (
        "{name='a',capacity=4294967296}",
        Wrong::Range,
        What::Capacity,
    ),
    (
        "{name='a',capacity=9223372036854775807}",
        Wrong::Range,
        What::Capacity,
    ),
    ("{name='a',capacity=0,open=-1}", Wrong::Range, What::Opening),
    (
        "{name='a',capacity=1,open=4294967296}",
        Wrong::Range,
        What::Opening,
    ),
    (
        "{name='a',capacity=1,open=1,unit=-1}",
        Wrong::Range,
        What::Unit,
    ),
    (
        "{name='a',capacity=1,open=1,unit=65536}",
        Wrong::Range,
        What::Unit,
    ),
    ("{name=''}", Wrong::Name, What::Name),
    ("{name='A'}", Wrong::Name, What::Name),
    ("{name='a b'}", Wrong::Name, What::Name),
    ("{name='s.0'}", Wrong::Name, What::Name),
    (
        "{name='abcdefghijklmnopqrstuvwxyz0123456'}",
        Wrong::Name,
        What::Name,
    ),
    (
        "{name='a',capacity=0,open=0,unit=0}",
        Wrong::Nothing,
        What::List,
    ),
    (
        "{name='_-09az',capacity=4294967295,open=0,unit=0}",
        Wrong::Nothing,
        What::List,
    ),
    (
        "{name='a',capacity=0,open=4294967295,unit=65535}",
        Wrong::Nothing,
        What::List,
    ),
    (
        "{name='abcdefghijklmnopqrstuvwxyz012345',capacity=1,open=1,unit=1}",
        Wrong::Nothing,
        What::List,
    ),
    (
        "{name='p0',capacity=1,open=1,unit=1}",
        Wrong::Nothing,
        What::List,
    ),
    (
        "{name='a',capacity=1,open=1,unit=1,colour='red'}",
        Wrong::Nothing,
        What::List,
    ),
];

const PATHS: [Case; 33] = [
    (
        "{from='::/0',to='::/0',load=1,via=['s0']}",
        Wrong::Missing,
        What::Name,
    ),
    (
        "{name='a',to='::/0',load=1,via=['s0']}",
        Wrong::Missing,
        What::From,
    ),
    (
        "{name='a',from='::/0',load=1,via=['s0']}",
        Wrong::Missing,
        What::To,
    ),
    (
        "{name='a',from='::/0',to='::/0',via=['s0']}",
        Wrong::Missing,
        What::Load,
    ),
    (
        "{name='a',from='::/0',to='::/0',load=1}",
        Wrong::Missing,
        What::Via,
    ),
    ("{name=1}", Wrong::Kind, What::Name),
    ("{name='a',from=10}", Wrong::Kind, What::From),
    ("{name='a',from='::/0',to=['::/0']}", Wrong::Kind, What::To),
    (
        "{name='a',from='::/0',to='::/0',load='1'}",
        Wrong::Kind,
        What::Load,
    ),
    (
        "{name='a',from='::/0',to='::/0',load=1,via='s0'}",
        Wrong::Kind,
        What::Via,
    ),
    (
        "{name='a',from='::/0',to='::/0',load=1,via=['s9',0]}",
        Wrong::Kind,
        What::Via,
    ),
    (
        "{name='a',from='::/0',to='::/0',load=1,via=[0,1,2,3,4,5,6,7,8]}",
        Wrong::Kind,
        What::Via,
    ),
    (
        "{name='a',from='::/0',to='::/0',load=0,via=[]}",
        Wrong::Range,
        What::Load,
    ),
    (
        "{name='a',from='::/0',to='::/0',load=65536,via=['s9']}",
        Wrong::Range,
        What::Load,
    ),
    (
        "{name='a',from='::/0',to='::/0',load=-5}",
        Wrong::Range,
        What::Load,
    ),
    ("{name=''}", Wrong::Name, What::Name),
    ("{name='P0'}", Wrong::Name, What::Name),
    ("{name='a',from='10.0.0.0'}", Wrong::Prefix, What::From),
    (
        "{name='a',from='10.0.0.0/33',to=1}",
        Wrong::Prefix,
        What::From,
    ),
    ("{name='a',from='10.0.0/8'}", Wrong::Prefix, What::From),
    (
        "{name='a',from='::/0',to='::/129'}",
        Wrong::Prefix,
        What::To,
    ),
    ("{name='a',from='::/0',to=''}", Wrong::Prefix, What::To),
    (
        "{name='a',from='10.0.0.0/8',to='::/0'}",
        Wrong::Family,
        What::To,
    ),
    (
        "{name='a',from='::/0',to='10.0.0.0/8',load=0}",
        Wrong::Family,
        What::To,
    ),
    (
        "{name='a',from='::/0',to='::/0',load=1,via=[]}",
        Wrong::Count(0),
        What::Via,
    ),
    (
        "{name='a',from='::/0',to='::/0',load=1,via=['1','2','3','4','5','6','7','8','9']}",
        Wrong::Count(9),
        What::Via,
    ),
    (
        "{name='a',from='::/0',to='::/0',load=1,via=['s9']}",
        Wrong::Unknown,
        What::Via,
    ),
    (
        "{name='a',from='::/0',to='::/0',load=1,via=['s0','s9','s0']}",
        Wrong::Unknown,
        What::Via,
    ),
    (
        "{name='a',from='::/0',to='::/0',load=1,via=['s0','s0','s9']}",
        Wrong::Twice,
        What::Via,
    ),
    (
        "{name='a',from='0.0.0.0/0',to='255.255.255.255/32',load=1,via=['s0']}",
        Wrong::Nothing,
        What::List,
    ),
    (
        "{name='a',from='::/0',to='1:2:3:4:5:6:7:8/128',load=65535,via=['s0']}",
        Wrong::Nothing,
        What::List,
    ),
    (
        "{name='s0',from='::/0',to='::/0',load=1,via=['s0']}",
        Wrong::Nothing,
        What::List,
    ),
    (
        "{name='a',from='::/0',to='::/0',load=1,via=['s0'],via2=1}",
        Wrong::Nothing,
        What::List,
    ),
];

// The fault of the entry with this number.
fn fault(entry: Entry, index: u32, wrong: Wrong, what: What) -> Option<TopologyFault> {
    let path = index;
    match wrong {
        Wrong::Nothing => None,
        Wrong::Missing => Some(TopologyFault::Missing { entry, index, what }),
        Wrong::Kind => Some(TopologyFault::WrongKind { entry, index, what }),
        Wrong::Range => Some(TopologyFault::Range { entry, index, what }),
        Wrong::Name => Some(TopologyFault::BadName { entry, index }),
        Wrong::Prefix => Some(TopologyFault::BadPrefix { path, what }),
        Wrong::Family => Some(TopologyFault::MixedFamily { path }),
        Wrong::Unknown => Some(TopologyFault::UnknownSwitch { path }),
        Wrong::Twice => Some(TopologyFault::TwiceVia { path }),
        Wrong::Count(found) => Some(TopologyFault::Count {
            entry,
            index,
            what,
            found,
        }),
    }
}

// The fault of a file with a switch in front of the one that is taken, or behind it.
fn fault_of_switch(
    alloc: Global,
    switch: &str,
    index: u32,
) -> Result<Option<TopologyFault>, AllocError> {
    let switches = if index == 0 {
        format!(in alloc; "{switch},{SWITCH}")?
    } else {
        format!(in alloc; "{SWITCH},{switch}")?
    };
    let file = file_of(alloc, switches.as_str(), PATH)?;
    Ok(fault_of(alloc, file.as_str()))
}

// The same of a path.
fn fault_of_path(
    alloc: Global,
    path: &str,
    index: u32,
) -> Result<Option<TopologyFault>, AllocError> {
    let paths = if index == 0 {
        format!(in alloc; "{path},{PATH}")?
    } else {
        format!(in alloc; "{PATH},{path}")?
    };
    let file = file_of(alloc, SWITCH, paths.as_str())?;
    Ok(fault_of(alloc, file.as_str()))
}

#[test]
fn faults_of_switches(rt: HostRuntime) -> Result<(), Fail> {
    for (switch, wrong, what) in SWITCHES {
        for index in 0..2 {
            let found = fault_of_switch(rt.alloc(), switch, index)?;
            assert_eq!(rt; found, fault(Entry::Switch, index, wrong, what), "{switch}");
        }
    }
    Ok(())
}

#[test]
fn faults_of_paths(rt: HostRuntime) -> Result<(), Fail> {
    for (path, wrong, what) in PATHS {
        for index in 0..2 {
            let found = fault_of_path(rt.alloc(), path, index)?;
            assert_eq!(rt; found, fault(Entry::Path, index, wrong, what), "{path}");
        }
    }
    Ok(())
}
