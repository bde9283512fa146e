//! What counters say of a key.
ghost use Rattle.std.specs.Prelude.{◌≡◌, ◌≤◌, ◌<◌, ◌+◌, ◌*◌, ◌^◌, ℕ, length, take, IsTrue, unsigned_abs, ◌-◌};
ghost use Rattle.hash_family.specs.Limits.{is_rows, is_width};
ghost use Rattle.count_sketch.specs.Counters.{AllUpTo};
ghost use Rattle.count_sketch.specs.Estimate.{IsMiddle, row_estimate, row_estimates, estimate};

use crate::middle::middle_of;
use crate::update::{place_of, sign_of, signed};
use flow_keys::FlowKey;
use hash_family::Family;

/// The estimate of a key's weight at a level (0 to 16), from counters in order of row, then bucket: the middle
/// of the rows' counters, each with the key's sign. Rows and width are within the limits of `Params`; there are
/// `rows * width` counters, none of them the least i64. Takes no memory.
pub fn estimate_in(
    counters: &[i64],
    rows: u8,
    width: u16,
    family: &Family,
    level: u8,
    key: &FlowKey,
) -> i64
    requires level { level ≤ 16 }
    requires rows { IsTrue (is_rows rows) }
    requires width { IsTrue (is_width width) }
    requires shape { length counters.now ≡ rows * width }
    requires none_is_least { AllUpTo (2 ^ 63 - 1) counters.now }
    ensures value { result ≡ estimate family.now level rows width counters.now key.now }
    ensures middle { IsMiddle (row_estimates family.now level rows width counters.now key.now) result }
    ensures bound { (n : ℕ) → AllUpTo n counters.now → unsigned_abs result ≤ n }
{
    let mut found = [0; 7];
    fill(&mut found, counters, rows, width, family, level, key);
    middle_of(&mut found[..usize::from(rows)])
}

// Puts what each row says of the key to the front of `found`.
fn fill(
    found: &mut [i64; 7],
    counters: &[i64],
    rows: u8,
    width: u16,
    family: &Family,
    level: u8,
    key: &FlowKey,
)
    requires level { level ≤ 16 }
    requires rows { IsTrue (is_rows rows) }
    requires width { IsTrue (is_width width) }
    requires shape { length counters.now ≡ rows * width }
    requires none_is_least { AllUpTo (2 ^ 63 - 1) counters.now }
    ensures { take rows found.new ≡ row_estimates family.now level rows width counters.now key.now }
{
    for row in 0..rows {
        found[usize::from(row)] = row_says(counters, row, width, family, level, key);
    }
}

// The counter of the key in a row, with its sign.
#[inline]
fn row_says(counters: &[i64], row: u8, width: u16, family: &Family, level: u8, key: &FlowKey) -> i64
    requires level { level ≤ 16 }
    requires row { row ≤ 6 }
    requires width { IsTrue (is_width width) }
    requires shape { row * width + width ≤ length counters.now }
    requires none_is_least { AllUpTo (2 ^ 63 - 1) counters.now }
    ensures { result ≡ row_estimate family.now level width counters.now key.now row }
{
    let at = place_of(family, level, row, width, key);
    signed(sign_of(family, level, row, key), counters[at])
}
