//! What a number counts in a sum, and two sums together.
ghost use Rattle.std.specs.Prelude.{◌≡◌, ◌<◌, ◌≤◌, ◌^◌, unsigned_abs};
ghost use Rattle.recursive_sum.specs.Sum.{g_of};

/// What the estimate of a key counts in a sum over keys.
#[derive(Clone, Copy, Debug, PartialEq, Eq)]
pub enum G {
    /// 1 where the number is above 0, else 0: a number of keys.
    One,
    /// The number where it is above 0, else 0: a weight.
    Value,
    /// The absolute value: a size of changes.
    Abs,
}

impl G {
    // What the number counts. It is not the least i64.
    #[inline]
    #[tactic(auto, unfolding(crate::specs::Sum::g_of))]
    pub(crate) fn of(self, number: i64) -> i128
        requires { unsigned_abs number < 2 ^ 63 }
        ensures value { result ≡ g_of self number }
        ensures bound { unsigned_abs result ≤ unsigned_abs number }
    {
        match self {
            G::One => i128::from(number > 0),
            G::Value => i128::from(number.max(0)),
            G::Abs => i128::from(number.abs()),
        }
    }
}

/// The number of keys and the weight, by the recursive sum.
#[derive(Clone, Copy, Debug, PartialEq, Eq)]
pub struct Totals {
    pub cardinality: i128,
    pub weight: i128,
}
