//! The line of a certificate's fault.
ghost use Rattle.std.specs.Prelude.{◌≡◌, IfOk, string_bytes};
ghost use Rattle.mon_command.specs.Status.{certificate_line, node_line, why_words};

use bound_certificate::TreeWhy;
use certificate_text::CertFault;
use std::alloc::{AllocError, Global};

/// The line for standard error, without a line feed.
pub(crate) fn certificate_text(alloc: Global, fault: CertFault) -> Result<String, AllocError>
    ensures { IfOk result (λ line. string_bytes line ≡ certificate_line fault) }
{
    match fault {
        CertFault::TooLong => String::from_str(alloc, "univmon: certificate: too long"),
        CertFault::NoTree => String::from_str(alloc, "univmon: certificate: no tree"),
        CertFault::Line { line } => format!(in alloc; "univmon: certificate: line {line}"),
        CertFault::Node { node, why } => node_text(alloc, node, why),
        CertFault::Memory => String::from_str(alloc, "univmon: out of memory"),
    }
}

#[tactic(auto, unfolding(crate::specs::Status::node_line))]
fn node_text(alloc: Global, node: u32, why: TreeWhy) -> Result<String, AllocError>
    ensures { IfOk result (λ line. string_bytes line ≡ node_line node why) }
{
    let why = why_text(alloc, why)?;
    format!(in alloc; "univmon: certificate: node {node} {why}")
}

// Why a node is wrong.
fn why_text(alloc: Global, why: TreeWhy) -> Result<String, AllocError>
    ensures { IfOk result (λ words. string_bytes words ≡ why_words why) }
{
    match why {
        TreeWhy::NotOver => String::from_str(alloc, "not over"),
        TreeWhy::IsOver => String::from_str(alloc, "is over"),
        TreeWhy::Depth => String::from_str(alloc, "depth"),
        TreeWhy::Children => String::from_str(alloc, "children"),
        TreeWhy::HallSet => String::from_str(alloc, "hall set"),
        TreeWhy::HallLoad => String::from_str(alloc, "hall load"),
        TreeWhy::DualShape => String::from_str(alloc, "dual shape"),
        TreeWhy::DualSum { switch } => format!(in alloc; "dual sum {switch}"),
        TreeWhy::Idle => String::from_str(alloc, "idle"),
    }
}
