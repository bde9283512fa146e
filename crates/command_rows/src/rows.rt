//! Worked calls with their statuses and texts, and the number and the line of each status.
ghost use Rattle.std.specs.Prelude.{None};
ghost use Rattle.mon_io.specs.Inputs.{PickedAny};
ghost use Rattle.mon_io.specs.MemInputs.{mem_inputs_state};

use mon_command::{
    Input, Opt, Status, TraceFault, UsageFault, run_alone, status_line, status_number,
};
use mon_io::{Fault, Inputs, MemInputs, MemSink, Sink};
use pcap_reader::PcapFault;
use std::alloc::{AllocError, Global};
use std::process::Abort;
use std::test::Fail;

mod check;
mod child;
mod epochs;
mod lines;
mod made;
mod weights;

const LITTLE: [u8; 24] = [
    0xd4, 0xc3, 0xb2, 0xa1, 2, 0, 4, 0, 0, 0, 0, 0, 0, 0, 0, 0, 0xff, 0xff, 0, 0, 1, 0, 0, 0,
];

// The magic number of times in nanoseconds, and big-endian numbers.
const BIG: [u8; 24] = [
    0xa1, 0xb2, 0x3c, 0x4d, 0, 2, 0, 4, 0, 0, 0, 0, 0, 0, 0, 0, 0, 0, 0xff, 0xff, 0, 0, 0, 1,
];

// The heads of records with 42, 34 and 262,144 captured bytes.
const HEAD: [u8; 16] = [100, 0, 0, 0, 0, 0, 0, 0, 42, 0, 0, 0, 42, 0, 0, 0];

const BIG_HEAD: [u8; 16] = [0, 0, 0, 100, 0, 0, 0, 0, 0, 0, 0, 42, 0, 0, 0, 42];

const CUT_HEAD: [u8; 16] = [100, 0, 0, 0, 0, 0, 0, 0, 34, 0, 0, 0, 42, 0, 0, 0];

const LONG_HEAD: [u8; 16] = [100, 0, 0, 0, 0, 0, 0, 0, 0, 0, 4, 0, 0, 0, 4, 0];

// Ethernet, IPv4, UDP.
const FRAME: [u8; 42] = [
    2, 0, 0, 0, 0, 2, 2, 0, 0, 0, 0, 1, 8, 0, 0x45, 0, 0, 0x1c, 0, 0, 0, 0, 0x40, 0x11, 0, 0, 10,
    0, 0, 1, 10, 1, 0, 2, 3, 0xe8, 0, 0x35, 0, 8, 0, 0,
];

// The heap of `central` by default keeps all live keys.
const CENTRAL: &str = "univmon central 1
packets 3 keyed 3 routed 3
sketch seed 1 levels 0 rows 1 width 16 heap all weight packets
epoch 0 packets 3 weight 3 heaps kept
level 0 packets 3 weight 3 keys 1 nonzero 1
cardinality 1
total 3
heavy 10.0.0.1 1000 10.1.0.2 53 17 weight 3
end
";

// The same of no packet.
const CENTRAL_OF_NONE: &str = "univmon central 1
packets 0 keyed 0 routed 0
sketch seed 1 levels 0 rows 1 width 16 heap all weight packets
epoch 0 packets 0 weight 0 heaps kept
level 0 packets 0 weight 0 keys 0 nonzero 0
cardinality 0
total 0
end
";

const TEXT: &str = "univmon total 1\npackets 3\nkeyed 3\nunkeyed 0\nend\n";

// Inputs that give one byte a read, and tell nothing.
#[derive(Drop)]
struct Trickle {
    inputs: MemInputs,
}

impl Inputs for Trickle {
    ghost state = { λ trickle. record { contents = λ _. None; rest = None; faults = (mem_inputs_state trickle.inputs).faults } };

    ghost picks = { PickedAny };

    fn pick(&mut self, name: &str) -> Result<(), Fault> {
        self.inputs.pick(name)
    }

    fn read(&mut self, buf: &mut [u8]) -> Result<usize, Fault> {
        let most = buf.len().min(1);
        self.inputs.read(&mut buf[..most])
    }
}

fn pcap(fault: PcapFault) -> Status {
    Status::Trace(TraceFault::Pcap(fault))
}

fn joined(alloc: Global, pieces: &[&[u8]]) -> Result<Vec<u8>, AllocError> {
    let mut bytes = Vec::new(alloc);
    for piece in pieces {
        bytes.extend_from_slice(piece)?;
    }
    Ok(bytes)
}

// A header, and a head and the frame three times.
fn three_frames(alloc: Global, header: &[u8], head: &[u8]) -> Result<Vec<u8>, AllocError> {
    joined(alloc, &[header, head, &FRAME, head, &FRAME, head, &FRAME])
}

// Inputs with the one file `A`, of which at most one call fails.
fn inputs(alloc: Global, bytes: Vec<u8>, fails: Option<u32>) -> Result<MemInputs, AllocError> {
    let mut files = Vec::new(alloc);
    files.push((String::from_str(alloc, "A")?, bytes))?;
    Ok(MemInputs::new(files, fails.into_iter().collect(alloc)?))
}

// Runs the command with these words, which are divided by spaces.
fn run<I: Inputs, K: Sink>(
    alloc: Global,
    line: &str,
    inputs: &mut I,
    sink: &mut K,
) -> Result<Status, AllocError> {
    let mut words = Vec::new(alloc);
    for word in line.split_whitespace() {
        words.push(String::from_str(alloc, word)?)?;
    }
    Ok(run_alone(alloc, &words, inputs, sink))
}

// The trace has this text, read in large pieces and byte by byte.
fn assert_text(rt: &impl Abort, alloc: Global, bytes: Vec<u8>, text: &str) -> Result<(), Fail> {
    let mut sink = MemSink::new(alloc, 48, Vec::new(alloc))?;
    let mut slow_sink = MemSink::new(alloc, 48, Vec::new(alloc))?;
    let mut trickle = Trickle {
        inputs: inputs(alloc, bytes.clone()?, None)?,
    };
    let status = run(
        alloc,
        "total A",
        &mut inputs(alloc, bytes, None)?,
        &mut sink,
    )?;
    let slow_status = run(alloc, "total A", &mut trickle, &mut slow_sink)?;
    assert_eq!(rt; (status, slow_status), (Status::Done, Status::Done));
    assert_eq!(rt; sink.bytes(), text.as_bytes());
    assert_eq!(rt; slow_sink.bytes(), text.as_bytes());
    Ok(())
}

#[test]
fn counts_the_packets(rt: HostRuntime) -> Result<(), Fail> {
    let alloc = rt.alloc();
    for (length, text) in [
        (24, "univmon total 1\npackets 0\nkeyed 0\nunkeyed 0\nend\n"),
        (140, "univmon total 1\npackets 2\nkeyed 2\nunkeyed 0\nend\n"),
        (198, TEXT),
    ] {
        let mut bytes = three_frames(alloc, &LITTLE, &HEAD)?;
        bytes.truncate(length);
        assert_text(&rt, alloc, bytes, text)?;
    }
    assert_text(&rt, alloc, three_frames(alloc, &BIG, &BIG_HEAD)?, TEXT)
}

// Address resolution, TCP without its ports, a later fragment of TCP; and a record of the greatest length.
#[test]
fn counts_packets_without_a_key(rt: HostRuntime) -> Result<(), Fail> {
    let alloc = rt.alloc();
    let mut arp = FRAME;
    arp[13] = 6;
    let mut tcp = FRAME;
    tcp[23] = 6;
    let mut fragment = tcp;
    fragment[21] = 1;
    let mixed = joined(
        alloc,
        &[
            &LITTLE,
            &HEAD,
            &arp,
            &CUT_HEAD,
            &tcp[..34],
            &HEAD,
            &fragment,
        ],
    )?;
    assert_text(
        &rt,
        alloc,
        mixed,
        "univmon total 1\npackets 3\nkeyed 1\nunkeyed 2\nend\n",
    )?;
    let mut long = joined(alloc, &[&LITTLE, &LONG_HEAD])?;
    long.resize(262_184, 0)?;
    assert_text(
        &rt,
        alloc,
        long,
        "univmon total 1\npackets 1\nkeyed 0\nunkeyed 1\nend\n",
    )
}

// The trace of three frames with four bytes changed at a place, cut to a length.
#[test]
fn refuses_a_trace_with_a_fault(rt: HostRuntime) -> Result<(), Fail> {
    let alloc = rt.alloc();
    let long = PcapFault::LongRecord {
        at: 24,
        length: 262_145,
    };
    for (at, changed, length, fault) in [
        (20, [1, 0, 0, 0], 23, PcapFault::ShortHeader { at: 23 }),
        (20, [1, 0, 0, 0], 141, PcapFault::ShortRecord { at: 140 }),
        (20, [1, 0, 0, 0], 197, PcapFault::ShortRecord { at: 140 }),
        (
            0,
            [10, 13, 13, 10],
            28,
            PcapFault::NotClassic { magic: 0x0a0d_0d0a },
        ),
        (
            4,
            [2, 0, 3, 0],
            198,
            PcapFault::Version { major: 2, minor: 3 },
        ),
        (20, [2, 0, 0, 0], 198, PcapFault::Link { number: 2 }),
        (32, [1, 0, 4, 0], 198, long),
    ] {
        let mut bytes = three_frames(alloc, &LITTLE, &HEAD)?;
        for (byte, new) in bytes.iter_mut().skip(at).zip(changed) {
            *byte = new;
        }
        bytes.truncate(length);
        let mut sink = MemSink::new(alloc, 48, Vec::new(alloc))?;
        let status = run(
            alloc,
            "total A",
            &mut inputs(alloc, bytes, None)?,
            &mut sink,
        )?;
        assert_eq!(rt; status, pcap(fault));
        assert!(rt; sink.bytes().is_empty());
    }
    Ok(())
}

// The words, the call of the inputs that fails, the room of the sink, and the call of the sink that fails.
#[test]
fn tells_why_nothing_was_done(rt: HostRuntime) -> Result<(), Fail> {
    let alloc = rt.alloc();
    let read = Status::ReadFault(Input::Trace);
    for (line, read_fails, room, write_fails, status, text) in [
        ("total A", None, 48, None, Status::Done, TEXT),
        ("total A", Some(0), 48, None, read, ""),
        ("central A", Some(5), 48, None, read, ""),
        (
            "central A",
            None,
            20,
            None,
            Status::SinkFault,
            "univmon central 1\npa",
        ),
        // The pick, the header, two pieces of the first record, the head of the second.
        ("total A", Some(5), 48, None, read, ""),
        ("total B", None, 48, None, read, ""),
        ("total A", None, 48, Some(0), Status::SinkFault, ""),
        (
            "total A",
            None,
            20,
            None,
            Status::SinkFault,
            "univmon total 1\npack",
        ),
        ("", None, 48, None, Status::Usage(UsageFault::NoCommand), ""),
        (
            "total",
            None,
            48,
            None,
            Status::Usage(UsageFault::Refused),
            "",
        ),
        (
            "total A B",
            None,
            48,
            None,
            Status::Usage(UsageFault::Refused),
            "",
        ),
        (
            "frobnicate",
            None,
            48,
            None,
            Status::Usage(UsageFault::UnknownCommand),
            "",
        ),
    ] {
        let mut inputs = inputs(alloc, three_frames(alloc, &LITTLE, &HEAD)?, read_fails)?;
        let mut sink = MemSink::new(alloc, room, write_fails.into_iter().collect(alloc)?)?;
        assert_eq!(rt; run(alloc, line, &mut inputs, &mut sink)?, status, "{line}");
        assert_eq!(rt; sink.bytes(), text.as_bytes(), "{line}");
    }
    Ok(())
}

// The frame twice, and once with another source port.
fn two_flows(alloc: Global) -> Result<Vec<u8>, AllocError> {
    let mut other = FRAME;
    other[35] = 0xe9;
    joined(
        alloc,
        &[&LITTLE, &HEAD, &FRAME, &HEAD, &FRAME, &HEAD, &other],
    )
}

// How many bytes of the trace there are, the words, and the text.
#[test]
fn sketches_one_flow(rt: HostRuntime) -> Result<(), Fail> {
    let alloc = rt.alloc();
    for (length, line, text) in [
        (198, "central A --width 16 --rows 1 --levels 0", CENTRAL),
        (
            198,
            "central A --heavy 1000 --width 16 --rows 1 --levels 0",
            CENTRAL,
        ),
        (
            24,
            "central A --levels 0 --rows 1 --width 16",
            CENTRAL_OF_NONE,
        ),
    ] {
        let mut bytes = three_frames(alloc, &LITTLE, &HEAD)?;
        bytes.truncate(length);
        let mut inputs = inputs(alloc, bytes, None)?;
        let mut sink = MemSink::new(alloc, 4096, Vec::new(alloc))?;
        assert_eq!(rt;
            run(alloc, line, &mut inputs, &mut sink)?,
            Status::Done,
            "{line}"
        );
        assert_eq!(rt; sink.bytes(), text.as_bytes(), "{line}");
    }
    Ok(())
}

// The words, and how the text begins.
#[test]
fn sketches_two_flows(rt: HostRuntime) -> Result<(), Fail> {
    let alloc = rt.alloc();
    for (line, text) in [
        (
            "central A",
            "univmon central 1
packets 3 keyed 3 routed 3
sketch seed 1 levels 12 rows 5 width 1024 heap all weight packets
epoch 0 packets 3 weight 3 heaps kept
level 0 packets 3 weight 3 keys 2 ",
        ),
        (
            "central A --heap 1",
            "univmon central 1
packets 3 keyed 3 routed 3
sketch seed 1 levels 12 rows 5 width 1024 heap 1 weight packets
epoch 0 packets 3 weight 3 heaps dropped
level 0 packets 3 weight 3 keys 1 ",
        ),
        (
            "central A --heap 2",
            "univmon central 1
packets 3 keyed 3 routed 3
sketch seed 1 levels 12 rows 5 width 1024 heap 2 weight packets
epoch 0 packets 3 weight 3 heaps kept
level 0 packets 3 weight 3 keys 2 ",
        ),
        // The whole text, with negative sums.
        (
            "central A --seed 31 --levels 2 --rows 1 --width 16",
            "univmon central 1
packets 3 keyed 3 routed 3
sketch seed 31 levels 2 rows 1 width 16 heap all weight packets
epoch 0 packets 3 weight 3 heaps kept
level 0 packets 3 weight 3 keys 2 nonzero 2
level 1 packets 3 weight 3 keys 2 nonzero 2
level 2 packets 3 weight 3 keys 2 nonzero 1
cardinality -2
total -5
heavy 10.0.0.1 1000 10.1.0.2 53 17 weight 2
heavy 10.0.0.1 1001 10.1.0.2 53 17 weight 1
end
",
        ),
    ] {
        let mut inputs = inputs(alloc, two_flows(alloc)?, None)?;
        let mut sink = MemSink::new(alloc, 4096, Vec::new(alloc))?;
        assert_eq!(rt;
            run(alloc, line, &mut inputs, &mut sink)?,
            Status::Done,
            "{line}"
        );
        assert!(rt; sink.bytes().starts_with(text.as_bytes()), "{line}");
    }
    Ok(())
}

#[test]
fn refuses_options(rt: HostRuntime) -> Result<(), Fail> {
    let alloc = rt.alloc();
    for (line, fault) in [
        ("central", UsageFault::Refused),
        ("central A --rows", UsageFault::Refused),
        ("central A --row 1", UsageFault::Refused),
        ("central A --rows 1 --rows 1", UsageFault::Refused),
        ("central A --rows 2 --seed", UsageFault::Refused),
        ("central A --rows 2", UsageFault::Value(Opt::Rows)),
        (
            "central A --heap 1025 --width 24",
            UsageFault::Value(Opt::Width),
        ),
        ("central A --heap +1", UsageFault::Value(Opt::Heap)),
        ("central A --weight octets", UsageFault::Value(Opt::Weight)),
        (
            "central A --seed 18446744073709551616",
            UsageFault::Value(Opt::Seed),
        ),
        ("central A --levels 17", UsageFault::Value(Opt::Levels)),
        ("central A --heavy 0", UsageFault::Value(Opt::Heavy)),
        ("central A --heavy 1001", UsageFault::Value(Opt::Heavy)),
    ] {
        let mut inputs = inputs(alloc, two_flows(alloc)?, None)?;
        let mut sink = MemSink::new(alloc, 4096, Vec::new(alloc))?;
        assert_eq!(rt;
            run(alloc, line, &mut inputs, &mut sink)?,
            Status::Usage(fault),
            "{line}"
        );
        assert!(rt; sink.bytes().is_empty());
    }
    Ok(())
}

#[test]
fn each_status_has_its_number_and_line(rt: HostRuntime) -> Result<(), Fail> {
    let alloc = rt.alloc();
    let long = PcapFault::LongRecord {
        at: 24,
        length: 262_145,
    };
    for (status, number, line) in [
        (Status::Done, 0, ""),
        (
            Status::Usage(UsageFault::NoCommand),
            2,
            "univmon: usage: no command",
        ),
        (
            Status::Usage(UsageFault::UnknownCommand),
            2,
            "univmon: usage: unknown command",
        ),
        (
            Status::Usage(UsageFault::Refused),
            2,
            "univmon: usage: words refused",
        ),
        (
            Status::Usage(UsageFault::Value(Opt::Width)),
            2,
            "univmon: usage: value of --width",
        ),
        (
            Status::Usage(UsageFault::Value(Opt::Heavy)),
            2,
            "univmon: usage: value of --heavy",
        ),
        (
            Status::ReadFault(Input::Trace),
            3,
            "univmon: cannot read trace",
        ),
        (
            pcap(PcapFault::ShortHeader { at: 23 }),
            5,
            "univmon: trace: short header at 23",
        ),
        (
            pcap(PcapFault::NotClassic { magic: 0x0a0d_0d0a }),
            5,
            "univmon: trace: not classic 0a0d0d0a",
        ),
        (
            pcap(PcapFault::Version { major: 2, minor: 3 }),
            5,
            "univmon: trace: version 2 3",
        ),
        (
            pcap(PcapFault::Link { number: 2 }),
            5,
            "univmon: trace: link 2",
        ),
        (
            pcap(PcapFault::ShortRecord { at: 140 }),
            5,
            "univmon: trace: short record at 140",
        ),
        (
            pcap(long),
            5,
            "univmon: trace: long record at 24 length 262145",
        ),
        (
            pcap(PcapFault::TooMany),
            5,
            "univmon: trace: too many records",
        ),
        (Status::SinkFault, 10, "univmon: cannot write"),
        (Status::Memory, 13, "univmon: out of memory"),
    ] {
        assert_eq!(rt; status_number(&status), number, "{line}");
        let told = status_line(alloc, &status)?;
        assert_eq!(rt; told.as_bytes(), line.as_bytes(), "{line}");
    }
    Ok(())
}
