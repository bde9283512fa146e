//! The command `child`.
ghost use Rattle.std.specs.Prelude.{◌≡◌, codes};
ghost use Rattle.mon_io.specs.Inputs.{IsOver};
ghost use Rattle.mon_call.specs.Call.{Answers, Keeps, Picks, call_of};
ghost use Rattle.mon_call.specs.declared.status.Status.TheVariants.{Done};
ghost use Rattle.mon_child.specs.Duty.{child_duty, child_reads};

use child_worker::{ChildStatus, answer};
use mon_call::{Input, Status};
use mon_io::{Inputs, Sink};
use std::alloc::Global;

/// Reads a job from standard input to its end, and writes its reply.
pub fn child<I: Inputs, K: Sink>(alloc: Global, inputs: &mut I, sink: &mut K) -> Status
    ensures answers { let call = call_of (I.state inputs.old) (I.state inputs.new) (K.state sink.old) (K.state sink.new) in
        Answers (child_duty (call.inputs.contents (codes "-"))) call result }
    ensures picks { Picks (I.picks inputs.old) (I.picks inputs.new) child_reads result }
    ensures keeps { Keeps (call_of (I.state inputs.old) (I.state inputs.new) (K.state sink.old) (K.state sink.new)) }
    ensures over { result ≡ Done → IsOver (I.state inputs.new).rest }
{
    match answer(alloc, inputs, sink) {
        ChildStatus::Done => Status::Done,
        ChildStatus::Read => Status::ReadFault(Input::Job),
        ChildStatus::Sink => Status::SinkFault,
        ChildStatus::Job(fault) => Status::Job(fault),
        ChildStatus::Memory => Status::Memory,
    }
}
