//! How a call ended.

use certificate_text::CertFault;
use job_format::JobFault;
use mon_words::UsageFault;
use replay_core::Bad;
use routed_trace::TraceFault;
use topology::TopologyFault;

/// How a call ended.
#[derive(Clone, Copy, Debug, PartialEq, Eq)]
pub enum Status {
    /// The work was done and the whole text written.
    Done,
    /// The words of the call are refused.
    Usage(UsageFault),
    /// An input could not be picked or read.
    ReadFault(Input),
    /// The topology is refused, by its first fault.
    Topology(TopologyFault),
    /// The trace is refused, by its first fault in the order of the file.
    Trace(TraceFault),
    /// No placement fits; the text of the outcome was written.
    Infeasible,
    /// The search has spent all of its nodes, without a placement; the text of the outcome was written.
    SearchBudget { nodes: u32 },
    /// This job of the phase had one bad attempt more than restarts are allowed, and these are its bad attempts.
    RestartsSpent { phase: Phase, job: u32, bad: Bad },
    /// The 4,096th stale event of the phase came: one of a ticket that was not out.
    StaleLimit { phase: Phase },
    /// The certificate is refused, by its first fault.
    Certificate(CertFault),
    /// The job of a child is refused, by its first breach, which is never `Memory`.
    Job(JobFault),
    /// The text could not be written to its end.
    SinkFault,
    /// A growth was refused.
    Memory,
}

/// What is read.
#[derive(Clone, Copy, Debug, PartialEq, Eq)]
pub enum Input {
    /// The topology.
    Topology,
    /// The trace.
    Trace,
    /// The tree.
    Tree,
    /// The job of a child.
    Job,
}

/// What children are started for.
#[derive(Clone, Copy, Debug, PartialEq, Eq)]
pub enum Phase {
    /// To search for a placement.
    Solve,
    /// To sketch the shares of the switches.
    Replay,
}
