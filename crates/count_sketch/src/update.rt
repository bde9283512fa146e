//! An item added to the counters of a sketch.
ghost use Rattle.std.specs.Prelude.{◌≡◌, ◌≤◌, ◌<◌, ◌+◌, ◌*◌, ◌^◌, [], ◌∷◌, length, slice_set, slice_index_or};
ghost use Rattle.std.specs.Prelude.{IsTrue, pos, ◌+ℤ◌, ◌*ℤ◌, unsigned_abs};
ghost use Rattle.hash_family.specs.Hash.{sign};
ghost use Rattle.hash_family.specs.Limits.{is_rows, is_width};
ghost use Rattle.count_sketch.specs.Counters.{plus, counters_of, AllUpTo};
ghost use Rattle.count_sketch.specs.Row.{AddsToRow, item_place};

use flow_keys::FlowKey;
use hash_family::Family;

// Adds the item to one counter in each row.
pub(crate) fn update_in(
    counters: &mut [i64],
    rows: u8,
    width: u16,
    family: &Family,
    level: u8,
    key: &FlowKey,
    weight: u32,
)
    requires level { level ≤ 16 }
    requires rows { IsTrue (is_rows rows) }
    requires width { IsTrue (is_width width) }
    requires shape { length counters.old ≡ rows * width }
    requires small { AllUpTo (2 ^ 61) counters.old }
    ensures { counters.new ≡ plus counters.old
        (counters_of family.now level rows width (record { key = key.now; weight = weight } ∷ [])) }
{
    for row in 0..rows {
        update_row(counters, row, width, family, level, key, u64::from(weight));
    }
}

// Adds the item to its counter in a row.
#[inline]
fn update_row(
    counters: &mut [i64],
    row: u8,
    width: u16,
    family: &Family,
    level: u8,
    key: &FlowKey,
    weight: u64,
)
    requires level { level ≤ 16 }
    requires weight { weight ≤ 2 ^ 44 }
    requires row { row ≤ 6 }
    requires width { IsTrue (is_width width) }
    requires shape { row * width + width ≤ length counters.old }
    requires number { unsigned_abs (slice_index_or counters.old
        (item_place family.now level row width key.now) (pos 0)) ≤ 2 ^ 61 }
    ensures written { AddsToRow family.now level width
        (record { key = key.now; weight = weight }) counters.old counters.new row }
{
    let at = place_of(family, level, row, width, key);
    let sign = sign_of(family, level, row, key);
    add_at(counters, at, signed(sign, weight as i64));
}

// The place of the key's counter in a row.
#[inline]
pub(crate) fn place_of(family: &Family, level: u8, row: u8, width: u16, key: &FlowKey) -> usize
    requires level { level ≤ 16 }
    requires row { row ≤ 6 }
    requires width { IsTrue (is_width width) }
    ensures value { result ≡ item_place family.now level row width key.now }
    ensures below { result < row * width + width }
{
    usize::from(row) * usize::from(width) + family.bucket(level, row, width, key)
}

// The key's sign in a row.
#[inline]
pub(crate) fn sign_of(family: &Family, level: u8, row: u8, key: &FlowKey) -> i64
    requires level { level ≤ 16 }
    requires row { row ≤ 6 }
    ensures value { result ≡ sign family.now level row key.now }
    ensures unit { unsigned_abs result ≡ 1 }
{
    family.sign(level, row, key)
}

// The number, with a sign of 1 or -1.
#[inline]
pub(crate) fn signed(sign: i64, number: i64) -> i64
    requires sign { unsigned_abs sign ≡ 1 }
    requires number { unsigned_abs number < 2 ^ 63 }
    ensures value { result ≡ sign *ℤ number }
    ensures size { unsigned_abs result ≡ unsigned_abs number }
{
    sign * number
}

// Adds a share to one counter.
#[inline]
pub(crate) fn add_at(numbers: &mut [i64], at: usize, share: i64)
    requires at { at < length numbers.old }
    requires number { unsigned_abs (slice_index_or numbers.old at (pos 0)) ≤ 2 ^ 61 }
    requires share { unsigned_abs share ≤ 2 ^ 44 }
    ensures value { numbers.new
        ≡ slice_set numbers.old at (slice_index_or numbers.old at (pos 0) +ℤ share) }
    ensures number { unsigned_abs (slice_index_or numbers.new at (pos 0)) < 2 ^ 63 }
{
    numbers[at] += share;
}
