//! Calls that are to fail, by their numbers.
ghost use Rattle.std.specs.Prelude.{◌≡◌};
ghost use Rattle.mon_io.specs.Faults.{is_due, next_count};

/// The numbers of the calls that are to fail, counted from 0, and how many calls were made.
#[derive(Drop)]
pub(crate) struct Script {
    pub(crate) fails: Vec<u32>,
    pub(crate) calls: u64,
}

impl Script {
    /// A script before its first call.
    pub(crate) fn new(fails: Vec<u32>) -> Self
        ensures { result ≡ record { fails = fails; calls = 0 } }
    {
        Script { fails, calls: 0 }
    }

    /// Counts a call, and says whether it is to fail.
    pub(crate) fn next_fails(&mut self) -> bool
        ensures due { result ≡ is_due self.old.fails.items self.old.calls }
        ensures counts { self.new ≡ record self.old { calls = next_count self.old.calls } }
    {
        let calls = self.calls;
        self.calls = calls.saturating_add(1);
        self.fails.iter().any(|number| u64::from(*number) == calls)
    }
}
