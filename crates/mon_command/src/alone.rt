//! The commands that start nobody.
ghost use Rattle.std.specs.Prelude.{◌≡◌, Ok, false, map, string_bytes};
ghost use Rattle.mon_words.specs.Values.{IsInRange, starts_children};
ghost use Rattle.mon_call.specs.Call.{Keeps, UnlessMemory, call_of};
ghost use Rattle.mon_command.specs.Asked.{AloneCommand, Asked, asked_in, asked_of};
ghost use Rattle.mon_command.specs.Outcome.{IsCalm, Outcome, Tells};
ghost use Rattle.certificate_text.specs.declared.fault.CertFault.{CertFault};
ghost use Rattle.routed_trace.specs.declared.fault.TraceFault.{TraceFault};
ghost use Rattle.topology.specs.declared.fault.TopologyFault.{TopologyFault};
ghost use Rattle.job_format.specs.declared.fault.JobFault.{JobFault};
ghost use Rattle.mon_io.specs.Inputs.{IsOver};

use crate::total::total;
use mon_call::{Setting, Status};
use mon_central::{central_alone, central_routed};
use mon_check::check_tree;
use mon_child::child;
use mon_generate::generate;
use mon_io::{Inputs, Sink};
use mon_words::{Command, Words, WordsFault, read_words};
use std::alloc::Global;

/// Does what the words ask for, over any inputs and any sink.
pub fn run_alone<I: Inputs, K: Sink>(
    alloc: Global,
    words: &[String],
    inputs: &mut I,
    sink: &mut K,
) -> Status
    ensures outcome { let call = call_of (I.state inputs.old) (I.state inputs.new) (K.state sink.old) (K.state sink.new) in
        Outcome (I.picks inputs.old) (I.picks inputs.new) (asked_of false (map string_bytes words.now)) call result }
    ensures keeps { Keeps (call_of (I.state inputs.old) (I.state inputs.new) (K.state sink.old) (K.state sink.new)) }

    // Without a fault the work is done, unless memory runs out.
    ensures complete { (asked : Asked) →
        let call = call_of (I.state inputs.old) (I.state inputs.new) (K.state sink.old) (K.state sink.new) in
        IsCalm (asked_of false (map string_bytes words.now)) asked call → Tells call asked Status.Done →
        UnlessMemory Status.Done result }

    // A fault of the topology is told, unless memory runs out.
    ensures unfit { (asked : Asked) (fault : TopologyFault) →
        let call = call_of (I.state inputs.old) (I.state inputs.new) (K.state sink.old) (K.state sink.new) in
        IsCalm (asked_of false (map string_bytes words.now)) asked call → Tells call asked (Status.Topology fault) →
        UnlessMemory (Status.Topology fault) result }

    // A fault of the trace is told, unless memory runs out.
    ensures refused { (asked : Asked) (fault : TraceFault) →
        let call = call_of (I.state inputs.old) (I.state inputs.new) (K.state sink.old) (K.state sink.new) in
        IsCalm (asked_of false (map string_bytes words.now)) asked call → Tells call asked (Status.Trace fault) →
        UnlessMemory (Status.Trace fault) result }

    // A fault of the certificate is told, unless memory runs out.
    ensures uncertified { (asked : Asked) (fault : CertFault) →
        let call = call_of (I.state inputs.old) (I.state inputs.new) (K.state sink.old) (K.state sink.new) in
        IsCalm (asked_of false (map string_bytes words.now)) asked call → Tells call asked (Status.Certificate fault) →
        UnlessMemory (Status.Certificate fault) result }

    // A breach of the job is told, unless memory runs out.
    ensures misspelled { (asked : Asked) (fault : JobFault) →
        let call = call_of (I.state inputs.old) (I.state inputs.new) (K.state sink.old) (K.state sink.new) in
        IsCalm (asked_of false (map string_bytes words.now)) asked call → Tells call asked (Status.Job fault) →
        UnlessMemory (Status.Job fault) result }

    // A reply is written behind the end of the job's input.
    ensures over { asked_of false (map string_bytes words.now) ≡ Ok (Asked.Alone AloneCommand.Child) → result ≡ Status.Done
        → IsOver (I.state inputs.new).rest }
{
    answer(alloc, words, inputs, sink)
}

// Reads the words, and does what they ask for.
fn answer<I: Inputs, K: Sink>(
    alloc: Global,
    words: &[String],
    inputs: &mut I,
    sink: &mut K,
) -> Status
    ensures outcome { let call = call_of (I.state inputs.old) (I.state inputs.new) (K.state sink.old) (K.state sink.new) in
        Outcome (I.picks inputs.old) (I.picks inputs.new) (asked_of false (map string_bytes words.now)) call result }
    ensures keeps { Keeps (call_of (I.state inputs.old) (I.state inputs.new) (K.state sink.old) (K.state sink.new)) }
    ensures over { asked_of false (map string_bytes words.now) ≡ Ok (Asked.Alone AloneCommand.Child) → result ≡ Status.Done
        → IsOver (I.state inputs.new).rest }
{
    match read_words(alloc, words, false) {
        Ok(read) => perform(alloc, &read, inputs, sink),
        Err(WordsFault::Usage(fault)) => Status::Usage(fault),
        Err(WordsFault::Memory) => Status::Memory,
    }
}

/// Each command by itself.
pub(crate) fn perform<I: Inputs, K: Sink>(
    alloc: Global,
    words: &Words,
    inputs: &mut I,
    sink: &mut K,
) -> Status
    requires range { IsInRange words.now }
    requires alone { starts_children words.now.command ≡ false }
    ensures outcome { let call = call_of (I.state inputs.old) (I.state inputs.new) (K.state sink.old) (K.state sink.new) in
        Outcome (I.picks inputs.old) (I.picks inputs.new) (Ok (asked_in words.now)) call result }
    ensures keeps { Keeps (call_of (I.state inputs.old) (I.state inputs.new) (K.state sink.old) (K.state sink.new)) }
    ensures over { asked_in words.now ≡ Asked.Alone AloneCommand.Child → result ≡ Status.Done → IsOver (I.state inputs.new).rest }
{
    match words.command {
        Command::Total => total(alloc, words.names[0].as_str(), inputs, sink),
        Command::Central => central(alloc, words, inputs, sink),
        Command::Check => {
            let (topology, tree) = (words.names[0].as_str(), words.names[1].as_str());
            check_tree(alloc, topology, tree, inputs, sink)
        }
        Command::Child => child(alloc, inputs, sink),
        Command::Generate => {
            let (packets, flows) = (words.packets, words.flows);
            generate(alloc, words.part, words.seed, packets, flows, sink)
        }
        Command::Place | Command::Measure | Command::Drill => unreachable!(),
    }
}

// The command `central`, with a topology where one is named.
fn central<I: Inputs, K: Sink>(alloc: Global, words: &Words, inputs: &mut I, sink: &mut K) -> Status
    requires range { IsInRange words.now }
    requires command { words.now.command ≡ Command.Central }
    ensures outcome { let call = call_of (I.state inputs.old) (I.state inputs.new) (K.state sink.old) (K.state sink.new) in
        Outcome (I.picks inputs.old) (I.picks inputs.new) (Ok (asked_in words.now)) call result }
    ensures keeps { Keeps (call_of (I.state inputs.old) (I.state inputs.new) (K.state sink.old) (K.state sink.new)) }
{
    let trace = words.names[0].as_str();
    let setting = Setting::of(words);
    match &words.topology {
        Some(topology) => central_routed(alloc, trace, topology.as_str(), &setting, inputs, sink),
        None => central_alone(alloc, trace, &setting, inputs, sink),
    }
}
