//! The middle one of a few numbers.
ghost use Rattle.std.specs.Prelude.{◌≡◌, ◌+◌, ◌*◌, ℕ, length};
ghost use Rattle.count_sketch.specs.Estimate.{IsMiddle, middle};

// The number that stands in the middle in ascending order, of an odd number of them. Their order changes.
#[inline]
pub(crate) fn middle_of(numbers: &mut [i64]) -> i64
    requires { (half : ℕ) × (length numbers.old ≡ 2 * half + 1) }
    ensures value { result ≡ middle numbers.old }
    ensures middle { IsMiddle numbers.old result }
{
    numbers.sort_unstable();
    numbers[numbers.len() / 2]
}
