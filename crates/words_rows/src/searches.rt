//! The words of `place`, and the options of a search.
use crate::lines::{read, words_in};
use mon_words::{Command, Opt, UsageFault, Words, WordsFault, read_words};
use std::test::Fail;

// Nodes, window and restarts.
fn numbers(words: &Words) -> [u32; 3] {
    [words.nodes, words.window, words.restarts]
}

#[test]
fn takes_numbers_of_a_search(rt: HostRuntime) -> Result<(), Fail> {
    for (line, want) in [
        ("place T", [1024, 4, 3]),
        ("place T --nodes 2", [2, 4, 3]),
        (
            "place T --nodes 4096 --window 32 --restarts 16",
            [4096, 32, 16],
        ),
        ("place --window=1 T --nodes=1", [1, 1, 3]),
        ("place T --restarts 0", [1024, 4, 0]),
        ("central A", [1024, 4, 3]),
    ] {
        let words = read(rt.alloc(), line)?.ok().expect(&rt, line);
        assert_eq!(rt; numbers(&words), want, "{line}");
    }
    Ok(())
}

#[test]
fn takes_a_topology_alone(rt: HostRuntime) -> Result<(), Fail> {
    let words = read(rt.alloc(), "place T")?.ok().expect(&rt, "place T");
    assert_eq!(rt; words.command, Command::Place);
    assert_eq!(rt; words.names.len(), 1);
    assert_eq!(rt; words.names[0].as_str(), "T");
    assert_eq!(rt; words.topology.as_deref(), None);
    assert_eq!(rt; words.heap, 64);
    Ok(())
}

#[test]
fn refuses_other_words(rt: HostRuntime) -> Result<(), Fail> {
    let refused = Some(WordsFault::Usage(UsageFault::Refused));
    for line in [
        "place",
        "place T U",
        "place T --seed 1",
        "place T --heavy 1",
        "place T --topology T",
        "central A --nodes 1",
        "total A --window 4",
    ] {
        assert_eq!(rt; read(rt.alloc(), line)?.err(), refused, "{line}");
    }
    Ok(())
}

#[test]
fn refuses_numbers_of_a_search(rt: HostRuntime) -> Result<(), Fail> {
    for (line, option) in [
        ("place T --nodes 0", Opt::Nodes),
        ("place T --nodes 4097", Opt::Nodes),
        ("place T --window 0", Opt::Window),
        ("place T --window 33", Opt::Window),
        ("place T --restarts 17", Opt::Restarts),
        ("place T --restarts 17 --nodes 0", Opt::Nodes),
    ] {
        let fault = WordsFault::Usage(UsageFault::Value(option));
        assert_eq!(rt; read(rt.alloc(), line)?.err(), Some(fault), "{line}");
    }
    Ok(())
}

#[test]
fn knows_no_place_where_no_child_can_be_started(rt: HostRuntime) -> Result<(), Fail> {
    let place = words_in(rt.alloc(), "place T")?;
    let fault = WordsFault::Usage(UsageFault::UnknownCommand);
    assert_eq!(rt; read_words(rt.alloc(), &place, false).err(), Some(fault));
    let total = words_in(rt.alloc(), "total A")?;
    let words = read_words(rt.alloc(), &total, false)
        .ok()
        .expect(&rt, "total A");
    assert_eq!(rt; words.command, Command::Total);
    Ok(())
}
