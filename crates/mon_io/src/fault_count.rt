//! How many calls of an input or a sink failed.
ghost use Rattle.std.specs.Prelude.{◌≡◌, ◌≤◌};
ghost use Rattle.mon_io.specs.Faults.{next_count};

use crate::Fault;

/// A count of faults, which stays where it stands at its greatest value.
#[derive(Drop)]
pub(crate) struct FaultCount {
    pub(crate) count: u64,
}

impl FaultCount {
    /// No fault so far.
    pub(crate) fn new() -> Self
        ensures none { result.count ≡ 0 }
    {
        FaultCount { count: 0 }
    }

    /// Counts a fault, and gives it.
    pub(crate) fn next(&mut self) -> Fault
        ensures raised { self.new.count ≡ next_count self.old.count }
        ensures later { self.old.count ≤ self.new.count }
    {
        self.count = self.count.saturating_add(1);
        Fault
    }
}
