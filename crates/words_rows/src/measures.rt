//! The words of `measure`, `generate` and `drill`.
use crate::lines::{read, words_in};
use mon_words::{Command, Opt, Part, UsageFault, Words, WordsFault, read_words};
use std::test::Fail;

#[test]
fn takes_a_topology_and_a_trace(rt: HostRuntime) -> Result<(), Fail> {
    let words = read(rt.alloc(), "measure T A")?
        .ok()
        .expect(&rt, "measure T A");
    assert_eq!(rt; words.command, Command::Measure);
    assert_eq!(rt; words.names.len(), 2);
    assert_eq!(rt; words.names[0].as_str(), "T");
    assert_eq!(rt; words.names[1].as_str(), "A");
    assert_eq!(rt; words.part, Part::Trace);
    assert_eq!(rt; words.topology.as_deref(), None);
    assert_eq!(rt; words.epoch, None);
    assert_eq!(rt; words.bytes, false);
    Ok(())
}

// Seed, levels, rows, width, heap and heavy.
fn sketch_numbers(words: &Words) -> [u64; 6] {
    [
        words.seed,
        u64::from(words.levels),
        u64::from(words.rows),
        u64::from(words.width),
        u64::from(words.heap),
        u64::from(words.heavy),
    ]
}

// Nodes, window, restarts, packets and flows.
fn other_numbers(words: &Words) -> [u32; 5] {
    [
        words.nodes,
        words.window,
        words.restarts,
        words.packets,
        words.flows,
    ]
}

#[test]
fn reads_numbers_of_a_sketch(rt: HostRuntime) -> Result<(), Fail> {
    for (line, want) in [
        ("measure T A", [1, 12, 5, 1024, 64, 10]),
        (
            "measure T A --seed 3 --levels 0 --rows 7 --width 16 --heap 1 --heavy 20",
            [3, 0, 7, 16, 1, 20],
        ),
        ("generate trace", [1, 12, 5, 1024, 64, 10]),
        ("generate trace --seed 0", [0, 12, 5, 1024, 64, 10]),
        ("drill", [1, 12, 5, 1024, 64, 10]),
        ("drill --seed 9 --heap 1024", [9, 12, 5, 1024, 1024, 10]),
    ] {
        let words = read(rt.alloc(), line)?.ok().expect(&rt, line);
        assert_eq!(rt; sketch_numbers(&words), want, "{line}");
    }
    Ok(())
}

#[test]
fn reads_numbers_of_a_search_and_of_a_made_trace(rt: HostRuntime) -> Result<(), Fail> {
    for (line, want) in [
        ("measure T A", [1024, 4, 3, 200_000, 20_000]),
        (
            "measure T A --nodes 1 --window 32 --restarts 0",
            [1, 32, 0, 200_000, 20_000],
        ),
        ("generate trace --packets 0", [1024, 4, 3, 0, 20_000]),
        (
            "generate --packets=1048576 --flows=65536 topology",
            [1024, 4, 3, 1_048_576, 65_536],
        ),
        (
            "drill --packets 5 --flows 7 --window 1 --weight bytes",
            [1024, 1, 3, 5, 7],
        ),
        ("central A", [1024, 4, 3, 200_000, 20_000]),
    ] {
        let words = read(rt.alloc(), line)?.ok().expect(&rt, line);
        assert_eq!(rt; other_numbers(&words), want, "{line}");
    }
    Ok(())
}

#[test]
fn takes_what_is_made(rt: HostRuntime) -> Result<(), Fail> {
    for (line, command, part, bytes) in [
        ("generate trace", Command::Generate, Part::Trace, false),
        (
            "generate topology",
            Command::Generate,
            Part::Topology,
            false,
        ),
        (
            "generate -- topology",
            Command::Generate,
            Part::Topology,
            false,
        ),
        ("drill", Command::Drill, Part::Trace, false),
        ("drill --weight bytes", Command::Drill, Part::Trace, true),
    ] {
        let words = read(rt.alloc(), line)?.ok().expect(&rt, line);
        assert_eq!(rt; words.command, command, "{line}");
        assert_eq!(rt; words.part, part, "{line}");
        assert_eq!(rt; words.bytes, bytes, "{line}");
        assert_eq!(rt; words.names.len(), 0, "{line}");
    }
    Ok(())
}

#[test]
fn refuses_words_of_other_commands(rt: HostRuntime) -> Result<(), Fail> {
    let refused = Some(WordsFault::Usage(UsageFault::Refused));
    for line in [
        "measure",
        "measure T",
        "measure T A B",
        "measure T A --topology T",
        "measure T A --packets 1",
        "generate",
        "generate trace topology",
        "generate trace --levels 1",
        "generate trace --topology T",
        "generate trace --PART topology",
        "drill X",
        "drill --topology T",
        "central A --packets 1",
        "place T --flows 1",
    ] {
        assert_eq!(rt; read(rt.alloc(), line)?.err(), refused, "{line}");
    }
    Ok(())
}

#[test]
fn refuses_values_out_of_range(rt: HostRuntime) -> Result<(), Fail> {
    for (line, option) in [
        ("measure T A --rows 2", Opt::Rows),
        ("measure T A --heap 0", Opt::Heap),
        ("measure T A --weight octets", Opt::Weight),
        ("measure T A --restarts 17 --heavy 0", Opt::Heavy),
        ("drill --heap 0", Opt::Heap),
        ("drill --flows 65537", Opt::Flows),
        ("drill --flows 0 --packets 1048577", Opt::Packets),
        ("drill --flows 0 --window 0", Opt::Window),
        ("generate frob", Opt::Part),
        ("generate ", Opt::Part),
        ("generate Trace", Opt::Part),
        ("generate trace --packets 1048577", Opt::Packets),
        ("generate trace --flows 0", Opt::Flows),
        ("generate frob --flows 0", Opt::Flows),
        ("generate trace --seed x", Opt::Seed),
    ] {
        let fault = WordsFault::Usage(UsageFault::Value(option));
        assert_eq!(rt; read(rt.alloc(), line)?.err(), Some(fault), "{line}");
    }
    Ok(())
}

#[test]
fn knows_generate_where_no_child_can_be_started(rt: HostRuntime) -> Result<(), Fail> {
    let unknown = Some(WordsFault::Usage(UsageFault::UnknownCommand));
    for line in ["measure T A", "drill", "place T"] {
        let words = words_in(rt.alloc(), line)?;
        assert_eq!(rt;
            read_words(rt.alloc(), &words, false).err(),
            unknown,
            "{line}"
        );
    }
    let topology = words_in(rt.alloc(), "generate topology")?;
    let words = read_words(rt.alloc(), &topology, false)
        .ok()
        .expect(&rt, "generate topology");
    assert_eq!(rt; words.command, Command::Generate);
    assert_eq!(rt; words.part, Part::Topology);
    Ok(())
}
