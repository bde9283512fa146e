//! A child that reads a job and writes its reply.
ghost use Rattle.std.specs.Prelude.{◌≡◌, ◌≤◌, ◌<◌, [], codes, length, IfOk};
ghost use Rattle.mon_io.specs.Inputs.{PickedNothing};
ghost use Rattle.child_worker.specs.Child.{Ends, PicksJob};
ghost use Rattle.child_worker.specs.Reading.{ReadsAll, RepliesToInput, status_at};
ghost use Rattle.child_worker.specs.Work.{HasWorked};

use crate::work::Work;
use crate::{ChildStatus, WorkStop};
use mon_io::{Inputs, Sink, write_all};
use std::alloc::{AllocError, Global};

// The input is read in pieces of at most so many bytes.
const PIECE: usize = 65_536;

/// Reads a job from standard input to its end, and writes its reply. For a replay job it holds one frame of the job at
/// a time; memory is taken before the first read, once the head is read and again once the input has ended, and none
/// between.
pub fn answer<I: Inputs, K: Sink>(alloc: Global, inputs: &mut I, sink: &mut K) -> ChildStatus
    ensures ends { Ends ((I.state inputs.old).contents (codes "-")) (I.state inputs.old) (I.state inputs.new)
        (K.state sink.old) (K.state sink.new) result }
    ensures picks { PicksJob (I.picks inputs.old) (I.picks inputs.new) result }
    ensures stays { (I.state inputs.new).contents ≡ (I.state inputs.old).contents }
    ensures inputs_later { (I.state inputs.old).faults ≤ (I.state inputs.new).faults }
    ensures sink_later { (K.state sink.old).faults ≤ (K.state sink.new).faults }
{
    let Ok(()) = inputs.pick("-") else {
        return ChildStatus::Read;
    };
    let reply = match reply_to_input(alloc, inputs) {
        Ok(reply) => reply,
        Err(status) => return status,
    };
    match write_all(sink, &reply) {
        Ok(()) => ChildStatus::Done,
        Err(_) => ChildStatus::Sink,
    }
}

// The reply to the job that the rest of the picked input spells.
fn reply_to_input<I: Inputs>(alloc: Global, inputs: &mut I) -> Result<Vec<u8>, ChildStatus>
    ensures replies { RepliesToInput (λ reply. reply.items) (I.state inputs.old) (I.state inputs.new) result }
    ensures picks { PickedNothing (I.picks inputs.old) (I.picks inputs.new) }
    ensures stays { (I.state inputs.new).contents ≡ (I.state inputs.old).contents }
    ensures later { (I.state inputs.old).faults ≤ (I.state inputs.new).faults }
{
    let Ok(mut work) = Work::new(alloc) else {
        return Err(ChildStatus::Memory);
    };
    let Ok(mut buffer) = buffer_of(alloc) else {
        return Err(ChildStatus::Memory);
    };
    match read_job(inputs, &mut work, &mut buffer) {
        Ok(()) => {}
        Err(status) => return Err(status),
    }
    match work.finish() {
        Ok(reply) => Ok(reply),
        Err(stop) => Err(status_of(stop)),
    }
}

// How a child ends where its job isn't answered.
fn status_of(stop: WorkStop) -> ChildStatus
    ensures value { result ≡ status_at stop }
{
    match stop {
        WorkStop::Fault(fault) => ChildStatus::Job(fault),
        WorkStop::Memory => ChildStatus::Memory,
    }
}

// A buffer of PIECE bytes.
fn buffer_of(alloc: Global) -> Result<Vec<u8>, AllocError>
    ensures size { IfOk result (λ buffer. length buffer.items ≡ PIECE) }
{
    vec![in alloc; 0u8; PIECE]
}

// Takes all that is left of the picked input, through a buffer. No run uses up the number of pieces.
fn read_job<I: Inputs>(
    inputs: &mut I,
    work: &mut Work,
    buffer: &mut [u8],
) -> Result<(), ChildStatus>
    requires room { 0 < length buffer.old }
    requires start { HasWorked work.old [] }
    ensures reads { ReadsAll (I.state inputs.old) (I.state inputs.new) work.new result }
    ensures picks { PickedNothing (I.picks inputs.old) (I.picks inputs.new) }
    ensures stays { (I.state inputs.new).contents ≡ (I.state inputs.old).contents }
    ensures later { (I.state inputs.old).faults ≤ (I.state inputs.new).faults }
{
    for _ in 0..u64::MAX {
        let Ok(count) = inputs.read(buffer) else {
            return Err(ChildStatus::Read);
        };
        if count == 0 {
            return Ok(());
        }
        match work.take(&buffer[..count]) {
            Ok(()) => {}
            Err(stop) => return Err(status_of(stop)),
        }
    }
    Err(ChildStatus::Memory)
}
