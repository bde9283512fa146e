//! Why a call ended without every job's reply.
use replay_core::Bad;

/// Why a call ended without every job's reply. No ticket is out then.
#[derive(Clone, Copy, Debug, PartialEq, Eq)]
pub enum Stop {
    /// This job has one bad attempt more than restarts are allowed, and these are its bad attempts.
    RestartsSpent { job: u32, bad: Bad },
    /// The 4,096th stale event came: one of a ticket that was not out.
    StaleLimit,
    /// A growth was refused.
    Memory,
}
