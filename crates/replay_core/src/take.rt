//! What became of a reply.
ghost use Rattle.std.specs.Prelude.{◌≡◌};
ghost use Rattle.replay_core.specs.Book.{rival_in};

/// What became of a reply.
#[derive(Clone, Copy, Debug, PartialEq, Eq)]
pub enum Take {
    /// It is the first good one of this job, which is done now. The job's other ticket that was out, if any,
    /// is out no longer.
    First { job: u32, rival: Option<u32> },
    /// It was not good, and counts as a bad attempt of this job.
    Bad { job: u32 },
    /// Its ticket was not out.
    Stale,
}

impl Take {
    /// The ticket that is to be stopped: that of the rival, where the reply was its job's first good one and
    /// the job had another ticket out.
    pub fn rival(&self) -> Option<u32>
        ensures value { result ≡ rival_in self.now }
    {
        match self {
            Take::First { rival, .. } => *rival,
            Take::Bad { .. } => None,
            Take::Stale => None,
        }
    }
}
