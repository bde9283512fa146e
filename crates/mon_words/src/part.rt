//! What is made.

/// What `generate` makes.
#[derive(Clone, Copy, Debug, PartialEq, Eq)]
pub enum Part {
    /// `trace`: a trace, of packets of a number of flows.
    Trace,
    /// `topology`: a topology.
    Topology,
}
