//! What the nodes that were checked so far say.
ghost use Rattle.std.specs.Prelude.{◌≡◌, ◌≤◌, ◌<◌, ◌+◌, ◌^◌};
ghost use Rattle.bound_certificate.specs.Tree.{lesser, joined};

use crate::Verdict;

/// What some nodes say, and how many they are.
#[derive(Clone, Copy, Debug)]
pub struct Tally {
    pub verdict: Verdict,
    pub nodes: u32,
}

impl Tally {
    /// What two parts of a tree say together.
    #[tactic(auto, unfolding(crate::specs::Tree::joined))]
    pub fn joined(self, other: Tally) -> Tally
        requires nodes { self.nodes + other.nodes < 2 ^ 32 }
        requires own { self.verdict.branches ≤ self.nodes }
        requires others { other.verdict.branches ≤ other.nodes }
        ensures verdict { result.verdict ≡ joined self.verdict other.verdict }
        ensures nodes { result.nodes ≡ self.nodes + other.nodes }
        ensures few { result.verdict.branches ≤ result.nodes }
    {
        let verdict = Verdict {
            bound: lesser(self.verdict.bound, other.verdict.bound),
            branches: self.verdict.branches + other.verdict.branches,
            full: self.verdict.full || other.verdict.full,
        };
        Tally {
            verdict,
            nodes: self.nodes + other.nodes,
        }
    }
}

// The lesser of two bounds, where None is above each number.
fn lesser(one: Option<i128>, other: Option<i128>) -> Option<i128>
    ensures { result ≡ lesser one other }
{
    match (one, other) {
        (None, other) => other,
        (Some(x), None) => Some(x),
        (Some(x), Some(y)) => Some(x.min(y)),
    }
}
