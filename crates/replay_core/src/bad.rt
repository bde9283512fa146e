//! The bad attempts of a job, by what failed.
ghost use Rattle.std.specs.Prelude.{◌≡◌, ◌^◌, ◌+◌, ◌<◌};
ghost use Rattle.replay_core.specs.Book.{more, total};

/// What failed in an attempt.
#[derive(Clone, Copy, Debug, PartialEq, Eq)]
pub enum Kind {
    /// The start.
    Start,
    /// A feed or the seal.
    Feed,
    /// The child, which died.
    Died,
    /// The reply, which was not good.
    Reply,
}

/// How many attempts of a job were bad, by what failed.
#[derive(Clone, Copy, Debug, PartialEq, Eq)]
pub struct Bad {
    /// Starts that failed.
    pub start: u32,
    /// Feeds and seals that failed.
    pub feed: u32,
    /// Children that died.
    pub died: u32,
    /// Replies that were not good.
    pub reply: u32,
}

impl Bad {
    /// Counts one bad attempt more.
    pub fn add(&mut self, kind: Kind)
        requires small { total self.old + 1 < 2 ^ 32 }
        ensures value { self.new ≡ more kind self.old }
    {
        match kind {
            Kind::Start => self.start += 1,
            Kind::Feed => self.feed += 1,
            Kind::Died => self.died += 1,
            Kind::Reply => self.reply += 1,
        }
    }

    /// How many bad attempts there are in all.
    pub fn total(&self) -> u32
        requires small { total self.now < 2 ^ 32 }
        ensures value { result ≡ total self.now }
    {
        self.start + self.feed + self.died + self.reply
    }
}
