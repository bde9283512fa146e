//! What no clause says: that calls succeed where memory is ample, limits to the byte, and what the trusted edge gives.
use crate::{
    Fault, HostInputs, HostSink, Inputs, MemInputs, MemSink, NeverInputs, NeverSink, ReadStop,
    Sink, read_all, write_all,
};
use std::alloc::{AllocError, Global};
use std::io::Write;
use std::path::PathBuf;
use std::process::Abort;
use std::test::Fail;
use std::{env, fs, io, process};

// The numbers from 0 on, modulo 251, as bytes.
fn numbered(alloc: Global, count: u32) -> Result<Vec<u8>, AllocError> {
    let mut bytes = Vec::new(alloc);
    for number in 0..count {
        bytes.push((number % 251) as u8)?;
    }
    Ok(bytes)
}

// A long file of 70,000 bytes, two files of one name, and none else.
fn files(alloc: Global) -> Result<Vec<(String, Vec<u8>)>, AllocError> {
    let mut files = Vec::new(alloc);
    files.push((String::from_str(alloc, "long")?, numbered(alloc, 70_000)?))?;
    files.push((String::from_str(alloc, "a")?, b"first".to_vec(alloc)?))?;
    files.push((String::from_str(alloc, "a")?, b"other".to_vec(alloc)?))?;
    Ok(files)
}

#[test]
fn whole_contents_end_at_the_limit(rt: HostRuntime) -> Result<(), Fail> {
    let alloc = rt.alloc();
    let mut inputs = NeverInputs::new(files(alloc)?);
    let cases = [
        ("long", 70_000, Ok(70_000)),
        ("long", 69_999, Err(ReadStop::TooLong)),
        ("long", 65_535, Err(ReadStop::TooLong)),
        ("a", usize::MAX, Ok(5)),
        ("a", 5, Ok(5)),
        ("a", 4, Err(ReadStop::TooLong)),
        ("unknown", 0, Ok(0)),
    ];
    for (name, limit, want) in cases {
        let length = read_all(alloc, &mut inputs, name, limit).map(|bytes| bytes.len());
        assert_eq!(rt; length, want, "{name} up to {limit}");
    }
    let bytes = read_all(alloc, &mut inputs, "a", 5);
    assert!(rt; bytes.is_ok_and(|bytes| bytes.as_slice() == b"first".as_slice()));
    Ok(())
}

#[test]
fn scripted_calls_fail_and_no_other(rt: HostRuntime) -> Result<(), Fail> {
    let alloc = rt.alloc();
    let mut inputs = MemInputs::new(files(alloc)?, [0, 3].to_vec(alloc)?);
    let mut buf = [0u8; 3];
    // A pick of the name, or a read where there is none.
    let calls = [
        (Some("a"), Err(Fault)),
        (None, Ok(0)),
        (Some("a"), Ok(0)),
        (None, Err(Fault)),
        (None, Ok(3)),
        (Some("unknown"), Err(Fault)),
        (None, Ok(2)),
    ];
    for (name, want) in calls {
        let answer = match name {
            Some(name) => inputs.pick(name).map(|()| 0),
            None => inputs.read(&mut buf),
        };
        assert_eq!(rt; answer, want, "{name:?}");
    }
    assert_eq!(rt; &buf, b"str", "the end of the first file, over its front");
    let unknown = read_all(alloc, &mut inputs, "unknown", 9).map(|bytes| bytes.len());
    assert_eq!(rt; unknown, Err(ReadStop::Fault));
    Ok(())
}

// Writes each text whole, and compares the answer.
fn write_each<K: Sink>(rt: &impl Abort, sink: &mut K, cases: &[(&str, Result<(), Fault>)]) {
    for (text, want) in cases {
        assert_eq!(rt; write_all(sink, text.as_bytes()), *want, "{text}");
    }
}

#[test]
fn a_sink_takes_what_fits(rt: HostRuntime) -> Result<(), Fail> {
    let fails = [1].to_vec(rt.alloc())?;
    let mut sink = MemSink::new(rt.alloc(), 4, fails).map_err(|_| "no memory")?;
    let cases = [("ab", Ok(())), ("cd", Err(Fault)), ("cde", Err(Fault))];
    write_each(&rt, &mut sink, &cases);
    assert_eq!(rt; sink.bytes(), b"abcd".as_slice());
    Ok(())
}

#[test]
fn a_text_of_the_room_meets_no_fault(rt: HostRuntime) -> Result<(), Fail> {
    let mut sink = NeverSink::new(rt.alloc(), 3).map_err(|_| "no memory")?;
    let cases = [("abc", Ok(())), ("", Ok(())), ("d", Err(Fault))];
    write_each(&rt, &mut sink, &cases);
    assert_eq!(rt; sink.bytes(), b"abc".as_slice());
    assert_eq!(rt; sink.room_left(), 0);
    Ok(())
}

// A writer that takes at most two bytes at once.
#[derive(Drop)]
struct Narrow {
    bytes: Vec<u8>,
}

impl Write for Narrow {
    fn write(&mut self, buf: &[u8]) -> io::Result<usize> {
        let count = buf.len().min(2);
        self.bytes.extend_from_slice(&buf[..count])?;
        Ok(count)
    }

    fn flush(&mut self) -> io::Result<()> {
        Ok(())
    }
}

#[test]
fn a_writer_gets_each_byte_once(rt: HostRuntime) {
    let bytes = Vec::new(rt.alloc());
    let mut sink = HostSink::over(Narrow { bytes });
    write_each(&rt, &mut sink, &[("abcde", Ok(())), ("fg", Ok(()))]);
    assert_eq!(rt; sink.writer.bytes.as_slice(), b"abcdefg".as_slice());
}

#[test]
fn standard_output_takes_a_text(rt: HostRuntime) {
    let mut sink = HostSink::new(&rt);
    write_each(&rt, &mut sink, &[("a text of mon_io\n", Ok(()))]);
}

// What reads of these sizes in turn give, none larger than the buffer.
fn read_by<I: Inputs>(
    alloc: Global,
    inputs: &mut I,
    buf: &mut [u8],
    sizes: &[usize],
) -> Result<Vec<u8>, ReadStop> {
    let mut bytes = Vec::new(alloc);
    for size in sizes {
        let most = buf.len().min(*size);
        let count = inputs.read(&mut buf[..most]).map_err(|_| ReadStop::Fault)?;
        bytes
            .extend_from_slice(&buf[..count])
            .map_err(|_| ReadStop::Memory)?;
    }
    Ok(bytes)
}

// Whether a file is read as these bytes, in pieces and whole, and is too long for a limit below their number.
fn reads_back(rt: &HostRuntime, name: &str, told: &[u8]) -> Result<bool, ReadStop> {
    let alloc = rt.alloc();
    let mut inputs = HostInputs::new(rt);
    inputs.pick(name).map_err(|_| ReadStop::Fault)?;
    let mut buf = numbered(alloc, 70_000).map_err(|_| ReadStop::Memory)?;
    let sizes = [
        1, 7, 70_000, 3, 70_000, 65_536, 40_000, 0, 40_000, 40_000, 9,
    ];
    let pieces = read_by(alloc, &mut inputs, &mut buf, &sizes)?;
    let whole = read_all(alloc, &mut inputs, name, told.len())?;
    let above = read_all(alloc, &mut inputs, name, told.len().saturating_sub(1));
    let is_too_long = above.is_err_and(|stop| stop == ReadStop::TooLong);
    Ok(pieces.as_slice() == told && whole.as_slice() == told && is_too_long)
}

// A new file with these bytes.
fn file_of(rt: &HostRuntime, name: &str, bytes: &[u8]) -> Result<PathBuf, Fail> {
    let alloc = rt.alloc();
    let name = format!(in alloc; "mon-io-{name}-{}", process::id(rt.process()))?;
    let path = env::temp_dir(rt)?.join(alloc, name.as_str())?;
    fs::write(rt, path.as_str(), bytes)?;
    Ok(path)
}

#[test]
fn a_file_is_read_whole(rt: HostRuntime) -> Result<(), Fail> {
    let told = numbered(rt.alloc(), 200_000)?;
    let path = file_of(&rt, "whole", told.as_slice())?;
    let same = reads_back(&rt, path.as_str(), told.as_slice());
    fs::remove_file(&rt, path.as_str())?;
    assert_eq!(rt; same, Ok(true));
    Ok(())
}

// What a pick answers, and the front of what a read of two bytes gives then.
fn gives<I: Inputs>(inputs: &mut I, name: &str, picked: Result<(), Fault>, front: &[u8]) -> bool {
    let mut buf = [0; 2];
    let picks = inputs.pick(name) == picked;
    match inputs.read(&mut buf) {
        Ok(count) => picks && &buf[..count] == front,
        Err(Fault) => false,
    }
}

// A standard input of no bytes is what tests have.
#[test]
fn a_file_takes_the_place_of_the_former(rt: HostRuntime) -> Result<(), Fail> {
    let first = file_of(&rt, "first", b"abcdef")?;
    let second = file_of(&rt, "second", b"vwxyz")?;
    let mut inputs = HostInputs::new(&rt);
    let half = gives(&mut inputs, first.as_str(), Ok(()), b"ab");
    let failed = gives(&mut inputs, "a name that is not there", Err(Fault), b"cd");
    let other = gives(&mut inputs, second.as_str(), Ok(()), b"vw");
    let standard = gives(&mut inputs, "-", Ok(()), b"");
    fs::remove_file(&rt, first.as_str())?;
    fs::remove_file(&rt, second.as_str())?;
    assert_eq!(rt; [half, failed, other, standard], [true; 4]);
    Ok(())
}

#[test]
fn what_cannot_be_read_is_a_fault(rt: HostRuntime) -> Result<(), Fail> {
    let folder = env::temp_dir(&rt)?;
    let mut inputs = HostInputs::new(&rt);
    let unknown = "a file of mon_io that is not there";
    assert_eq!(rt; inputs.pick(unknown), Err(Fault));
    assert_eq!(rt; inputs.pick(folder.as_str()), Ok(()));
    assert_eq!(rt; inputs.read(&mut [0; 9]), Err(Fault), "a folder");
    Ok(())
}
