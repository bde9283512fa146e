//! The command `central`.
ghost use Rattle.std.specs.Prelude.{◌≡◌, ◌≤◌, None, Some, IsTrue};
ghost use Rattle.mon_call.specs.Call.{Answers, Keeps, Picks, call_of};
ghost use Rattle.mon_call.specs.Setting.{is_setting};
ghost use Rattle.mon_central.specs.Duty.{central_duty, central_reads, report_duty};

use crate::epochs::sketch;
use mon_call::{Setting, Status, finish, read_topology};
use mon_io::{Inputs, Sink};
use std::alloc::Global;
use topology::Topology;

/// Sketches the packets of a trace that have a key, and writes what each epoch has.
pub fn central_alone<I: Inputs, K: Sink>(
    alloc: Global,
    trace: &str,
    setting: &Setting,
    inputs: &mut I,
    sink: &mut K,
) -> Status
    requires range { IsTrue (is_setting setting.now) }
    ensures answers { let call = call_of (I.state inputs.old) (I.state inputs.new) (K.state sink.old) (K.state sink.new) in
        Answers (central_duty call.inputs.contents trace.now None setting.now) call result }
    ensures picks { Picks (I.picks inputs.old) (I.picks inputs.new) (central_reads trace.now None) result }
    ensures keeps { Keeps (call_of (I.state inputs.old) (I.state inputs.new) (K.state sink.old) (K.state sink.new)) }
{
    report(alloc, trace, &None, setting, inputs, sink)
}

/// Reads a topology, sketches the packets of a trace that have a key and a path, and writes what each epoch has.
pub fn central_routed<I: Inputs, K: Sink>(
    alloc: Global,
    trace: &str,
    name: &str,
    setting: &Setting,
    inputs: &mut I,
    sink: &mut K,
) -> Status
    requires range { IsTrue (is_setting setting.now) }
    ensures answers { let call = call_of (I.state inputs.old) (I.state inputs.new) (K.state sink.old) (K.state sink.new) in
        Answers (central_duty call.inputs.contents trace.now (Some name.now) setting.now) call result }
    ensures picks { Picks (I.picks inputs.old) (I.picks inputs.new) (central_reads trace.now (Some name.now)) result }
    ensures keeps { Keeps (call_of (I.state inputs.old) (I.state inputs.new) (K.state sink.old) (K.state sink.new)) }
{
    let topology = match read_topology(alloc, name, inputs) {
        Ok(topology) => topology,
        Err(status) => return status,
    };
    report(alloc, trace, &Some(topology), setting, inputs, sink)
}

// Sketches the packets of a trace that have a key and, where there is a topology, a path, and writes what each
// epoch has.
fn report<I: Inputs, K: Sink>(
    alloc: Global,
    trace: &str,
    topology: &Option<Topology>,
    setting: &Setting,
    inputs: &mut I,
    sink: &mut K,
) -> Status
    requires range { IsTrue (is_setting setting.now) }
    ensures answers { let call = call_of (I.state inputs.old) (I.state inputs.new) (K.state sink.old) (K.state sink.new) in
        Answers (report_duty call.inputs.contents trace.now topology.now setting.now) call result }
    ensures picks { Picks (I.picks inputs.old) (I.picks inputs.new) (central_reads trace.now None) result }
    ensures keeps { Keeps (call_of (I.state inputs.old) (I.state inputs.new) (K.state sink.old) (K.state sink.new)) }
{
    let mut epochs = match sketch(alloc, trace, topology, setting, inputs) {
        Ok(epochs) => epochs,
        Err(status) => return status,
    };
    let Ok(text) = epochs.text(alloc, setting) else {
        return Status::Memory;
    };
    finish(sink, text.as_str())
}
