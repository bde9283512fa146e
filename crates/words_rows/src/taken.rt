//! Words that are taken, and what they ask for.
use crate::lines::read;
use mon_words::{Command, Opt, Words};
use std::test::Fail;

#[test]
fn takes_words(rt: HostRuntime) -> Result<(), Fail> {
    for (line, name, epoch) in [
        ("central A", "A", None),
        ("central A --epoch=60", "A", Some(60)),
        ("central A --epoch 007", "A", Some(7)),
        ("central --epoch 4294967295 A", "A", Some(4_294_967_295)),
        ("central --rows 3 A --epoch 1 --heavy 1", "A", Some(1)),
        ("central -- A", "A", None),
        ("central --epoch 5 -- --epoch", "--epoch", Some(5)),
        ("central -", "-", None),
        ("total A", "A", None),
        ("total ", "", None),
    ] {
        let words = read(rt.alloc(), line)?.ok().expect(&rt, line);
        assert_eq!(rt; words.epoch, epoch, "{line}");
        assert_eq!(rt; words.names.len(), 1, "{line}");
        assert_eq!(rt; words.names[0].as_str(), name, "{line}");
    }
    Ok(())
}

#[test]
fn takes_two_names(rt: HostRuntime) -> Result<(), Fail> {
    for (line, topology, tree) in [("check T C", "T", "C"), ("check -- - C", "-", "C")] {
        let words = read(rt.alloc(), line)?.ok().expect(&rt, line);
        assert_eq!(rt; words.command, Command::Check, "{line}");
        assert_eq!(rt; words.names.len(), 2, "{line}");
        assert_eq!(rt; words.names[0].as_str(), topology, "{line}");
        assert_eq!(rt; words.names[1].as_str(), tree, "{line}");
    }
    Ok(())
}

#[test]
fn takes_weights(rt: HostRuntime) -> Result<(), Fail> {
    for (line, bytes) in [
        ("central A", false),
        ("central A --weight packets", false),
        ("central --weight=bytes A", true),
        ("central A --weight bytes --heap 1", true),
        ("total A", false),
    ] {
        let words = read(rt.alloc(), line)?.ok().expect(&rt, line);
        assert_eq!(rt; words.bytes, bytes, "{line}");
    }
    Ok(())
}

// Seed, levels, rows, width, heap and heavy.
fn numbers(words: &Words) -> [u64; 6] {
    [
        words.seed,
        u64::from(words.levels),
        u64::from(words.rows),
        u64::from(words.width),
        u64::from(words.heap),
        u64::from(words.heavy),
    ]
}

#[test]
fn reads_numbers(rt: HostRuntime) -> Result<(), Fail> {
    for (line, command, topology, want) in [
        ("total A", Command::Total, None, [1, 12, 5, 1024, 64, 10]),
        ("central A", Command::Central, None, [1, 12, 5, 1024, 0, 10]),
        ("check T A", Command::Check, None, [1, 12, 5, 1024, 64, 10]),
        (
            "central A --seed 18446744073709551615 --levels 16 --rows 7 --width 2048 --heap 1024 --heavy 1000",
            Command::Central,
            None,
            [18_446_744_073_709_551_615, 16, 7, 2048, 1024, 1000],
        ),
        (
            "central --topology T --seed=0 --levels=0 --rows=1 --width=16 --heap=0 --heavy=1 A",
            Command::Central,
            Some("T"),
            [0, 0, 1, 16, 0, 1],
        ),
    ] {
        let words = read(rt.alloc(), line)?.ok().expect(&rt, line);
        assert_eq!(rt; words.command, command, "{line}");
        assert_eq!(rt; words.topology.as_deref(), topology, "{line}");
        assert_eq!(rt; numbers(&words), want, "{line}");
    }
    Ok(())
}

#[test]
fn names_options(rt: HostRuntime) {
    let options = [
        (Opt::Seed, "--seed"),
        (Opt::Levels, "--levels"),
        (Opt::Rows, "--rows"),
        (Opt::Width, "--width"),
        (Opt::Heap, "--heap"),
        (Opt::Weight, "--weight"),
        (Opt::Epoch, "--epoch"),
        (Opt::Heavy, "--heavy"),
        (Opt::Nodes, "--nodes"),
        (Opt::Window, "--window"),
        (Opt::Restarts, "--restarts"),
        (Opt::Packets, "--packets"),
        (Opt::Flows, "--flows"),
        (Opt::Part, "PART"),
    ];
    for (option, name) in options {
        assert_eq!(rt; option.name(), name);
    }
}
