//! Sums and differences place by place.
ghost use Rattle.std.specs.Prelude.{◌≡◌, ◌<◌, ◌^◌, length, ◌+ℤ◌, ◌-ℤ◌, unsigned_abs, ◌-◌};
ghost use Rattle.count_sketch.specs.Counters.{plus, minus, AllUpTo};

// Adds the numbers of the other list, place by place. Absolute values are below 2^62.
pub(crate) fn add_places(numbers: &mut [i64], others: &[i64])
    requires shape { length numbers.old ≡ length others.now }
    requires numbers { AllUpTo (2 ^ 62 - 1) numbers.old }
    requires others { AllUpTo (2 ^ 62 - 1) others.now }
    ensures { numbers.new ≡ plus numbers.old others.now }
{
    for i in 0..numbers.len() {
        numbers[i] = sum_of(numbers[i], others[i]);
    }
}

// Takes away the numbers of the other list, place by place. Absolute values are below 2^62.
pub(crate) fn sub_places(numbers: &mut [i64], others: &[i64])
    requires shape { length numbers.old ≡ length others.now }
    requires numbers { AllUpTo (2 ^ 62 - 1) numbers.old }
    requires others { AllUpTo (2 ^ 62 - 1) others.now }
    ensures { numbers.new ≡ minus numbers.old others.now }
{
    for i in 0..numbers.len() {
        numbers[i] = difference_of(numbers[i], others[i]);
    }
}

#[inline]
fn sum_of(a: i64, b: i64) -> i64
    requires first { unsigned_abs a < 2 ^ 62 }
    requires second { unsigned_abs b < 2 ^ 62 }
    ensures { result ≡ a +ℤ b }
{
    a + b
}

#[inline]
fn difference_of(a: i64, b: i64) -> i64
    requires first { unsigned_abs a < 2 ^ 62 }
    requires second { unsigned_abs b < 2 ^ 62 }
    ensures { result ≡ a -ℤ b }
{
    a - b
}
