//! A key with its score.
ghost use Rattle.std.specs.Prelude.{◌≡◌};
ghost use Rattle.topk_heap.specs.Ranking.{ranks_before};

use flow_keys::FlowKey;
use std::cmp::Ordering;

/// A held key and the score of its last offer, as clauses see them.
#[derive(Clone, Copy, Debug)]
pub struct Entry {
    /// The key.
    pub key: FlowKey,
    /// The score. A greater one is better.
    pub score: i64,
}

impl Entry {
    // Whether this entry ranks before `other`: by a greater score, or by an equal one and a lesser key.
    #[inline]
    pub(crate) fn ranks_before(&self, other: &Entry) -> bool
        ensures value { result ≡ ranks_before self.now other.now }
    {
        match other.score.cmp(&self.score) {
            Ordering::Less => true,
            Ordering::Equal => self.key.cmp(&other.key).is_lt(),
            Ordering::Greater => false,
        }
    }
}
