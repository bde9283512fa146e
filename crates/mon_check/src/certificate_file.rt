//! A certificate from a file.
ghost use Rattle.std.specs.Prelude.{◌≡◌, ◌≤◌, [], ◌∷◌};
ghost use Rattle.mon_io.specs.Inputs.{Picked};
ghost use Rattle.mon_check.specs.Duty.{ReadsCertificate};

use bound_certificate::Tree;
use certificate_text::{CertFault, read_tree_text};
use mon_call::{Input, Status};
use mon_io::{Inputs, ReadStop, read_all};
use std::alloc::Global;

// A file of a certificate has at most so many bytes.
const LIMIT: usize = 67_108_864;

/// The certificate that the named input spells, else the status with which the call ends: `ReadFault(Tree)` where it
/// can't be picked or read, `Certificate` with the fault of its text, or `Memory`.
pub(crate) fn read_certificate<I: Inputs>(
    alloc: Global,
    name: &str,
    inputs: &mut I,
) -> Result<Tree, Status>
    ensures reads { ReadsCertificate ((I.state inputs.old).contents name.now) (I.state inputs.old) (I.state inputs.new) result }
    ensures picks { Picked (I.picks inputs.old) (I.picks inputs.new) (name.now ∷ []) }
    ensures stays { (I.state inputs.new).contents ≡ (I.state inputs.old).contents }
    ensures later { (I.state inputs.old).faults ≤ (I.state inputs.new).faults }
{
    let bytes = match read_all(alloc, inputs, name, LIMIT) {
        Ok(bytes) => bytes,
        Err(ReadStop::Fault) => return Err(Status::ReadFault(Input::Tree)),
        Err(ReadStop::TooLong) => return Err(Status::Certificate(CertFault::TooLong)),
        Err(ReadStop::Memory) => return Err(Status::Memory),
    };
    match read_tree_text(alloc, &bytes) {
        Ok(certificate) => Ok(certificate),
        Err(CertFault::Memory) => Err(Status::Memory),
        Err(fault) => Err(Status::Certificate(fault)),
    }
}
