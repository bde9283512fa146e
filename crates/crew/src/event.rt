//! What a crew answers.

/// What a wait gives. The ticket is that of the child, and may be out no longer.
#[derive(Debug, Drop)]
pub enum Event {
    /// The child's whole reply.
    Reply { ticket: u32, bytes: Vec<u8> },
    /// The child ended without a reply.
    Died { ticket: u32 },
}

/// Why a call of a crew stopped.
#[derive(Clone, Copy, Debug, PartialEq, Eq)]
pub enum CrewStop {
    /// The call failed, and the crew's count of faults rose.
    Fault,
    /// A growth was refused, and nothing changed.
    Memory,
}
