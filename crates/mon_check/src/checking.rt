//! The command `check`.
ghost use Rattle.std.specs.Prelude.{◌≡◌, ◌≤◌, IfOk, string_bytes};
ghost use Rattle.mon_call.specs.Call.{Answers, Keeps, Picks, call_of};
ghost use Rattle.mon_check.specs.Checked.{bound_text, full_word, verdict_text};
ghost use Rattle.mon_check.specs.Duty.{certify_duty, check_duty, check_reads, tree_reads};

use crate::certificate_file::read_certificate;
use bound_certificate::{Problem, TreeFault, Verdict, check};
use certificate_text::CertFault;
use mon_call::{Status, finish, read_topology};
use mon_io::{Inputs, Sink};
use std::alloc::{AllocError, Global};

/// Reads a topology and a tree, checks the tree, and writes what it says.
pub fn check_tree<I: Inputs, K: Sink>(
    alloc: Global,
    topology: &str,
    tree: &str,
    inputs: &mut I,
    sink: &mut K,
) -> Status
    ensures answers { let call = call_of (I.state inputs.old) (I.state inputs.new) (K.state sink.old) (K.state sink.new) in
        Answers (check_duty call.inputs.contents topology.now tree.now) call result }
    ensures picks { Picks (I.picks inputs.old) (I.picks inputs.new) (check_reads topology.now tree.now) result }
    ensures keeps { Keeps (call_of (I.state inputs.old) (I.state inputs.new) (K.state sink.old) (K.state sink.new)) }
{
    let network = match read_topology(alloc, topology, inputs) {
        Ok(network) => network,
        Err(status) => return status,
    };
    certify(alloc, tree, network.problem(), inputs, sink)
}

// Reads a tree, checks it against a problem, and writes what it says.
fn certify<I: Inputs, K: Sink>(
    alloc: Global,
    tree: &str,
    problem: &Problem,
    inputs: &mut I,
    sink: &mut K,
) -> Status
    ensures answers { let call = call_of (I.state inputs.old) (I.state inputs.new) (K.state sink.old) (K.state sink.new) in
        Answers (certify_duty call.inputs.contents tree.now problem.now) call result }
    ensures picks { Picks (I.picks inputs.old) (I.picks inputs.new) (tree_reads tree.now) result }
    ensures keeps { Keeps (call_of (I.state inputs.old) (I.state inputs.new) (K.state sink.old) (K.state sink.new)) }
{
    let certificate = match read_certificate(alloc, tree, inputs) {
        Ok(certificate) => certificate,
        Err(status) => return status,
    };
    let verdict = match check(problem, &certificate) {
        Ok(verdict) => verdict,
        Err(TreeFault { node, why }) => return Status::Certificate(CertFault::Node { node, why }),
    };
    let Ok(text) = verdict_text(alloc, verdict) else {
        return Status::Memory;
    };
    finish(sink, text.as_str())
}

// The lines of what a tree says.
#[tactic(auto, unfolding(crate::specs::Checked::verdict_text))]
fn verdict_text(alloc: Global, verdict: Verdict) -> Result<String, AllocError>
    ensures { IfOk result (λ text. string_bytes text ≡ verdict_text verdict) }
{
    let bound = bound_text(alloc, verdict.bound)?;
    let (branches, full) = (verdict.branches, full_word(verdict.full));
    format!(in alloc; "univmon check 1\nbound {bound}\nbranches {branches}\nfull {full}\nend\n")
}

fn bound_text(alloc: Global, bound: Option<i128>) -> Result<String, AllocError>
    ensures { IfOk result (λ text. string_bytes text ≡ bound_text bound) }
{
    match bound {
        Some(bound) => format!(in alloc; "{bound}"),
        None => String::from_str(alloc, "none"),
    }
}

fn full_word(full: bool) -> &'static str
    ensures { result.now ≡ full_word full }
{
    if full { "yes" } else { "no" }
}
