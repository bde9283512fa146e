//! An item added to the counters of a sketch, with its key's estimate after that.
ghost use Rattle.std.specs.Prelude.{◌≡◌, ◌≤◌, ◌*◌, [], ◌∷◌, length, take, IsTrue, ◌^◌};
ghost use Rattle.hash_family.specs.Limits.{is_rows, is_width};
ghost use Rattle.count_sketch.specs.Counters.{plus, counters_of, AllUpTo};
ghost use Rattle.count_sketch.specs.Estimate.{IsMiddle, row_estimates, estimate};
ghost use Rattle.count_sketch.specs.Spots.{AreSpots};

use crate::Spots;
use crate::middle::middle_of;
use flow_keys::FlowKey;
use hash_family::Family;

// Adds the item to one counter in each row, at the spots of its key, and gives the key's estimate after that.
#[inline]
pub(crate) fn update_and_estimate_in(
    counters: &mut [i64],
    rows: u8,
    width: u16,
    spots: &Spots,
    family: &Family,
    level: u8,
    key: &FlowKey,
    weight: u64,
) -> i64
    requires level { level ≤ 16 }
    requires weight { weight ≤ 2 ^ 44 }
    requires rows { IsTrue (is_rows rows) }
    requires width { IsTrue (is_width width) }
    requires shape { length counters.old ≡ rows * width }
    requires small { AllUpTo (2 ^ 61) counters.old }
    requires spots { AreSpots family.now level rows width key.now spots.now }
    ensures next { counters.new ≡ plus counters.old
        (counters_of family.now level rows width (record { key = key.now; weight = weight } ∷ [])) }
    ensures value { result ≡ estimate family.now level rows width counters.new key.now }
    ensures middle { IsMiddle (row_estimates family.now level rows width counters.new key.now) result }
{
    let mut found = [0; 7];
    update_and_fill(
        &mut found, counters, rows, width, spots, family, level, key, weight,
    );
    middle_of(&mut found[..usize::from(rows)])
}

// Adds the item to one counter in each row, and puts what each row then says of the key to the front of `found`.
// Family, level and key are there for the clauses alone: the spots are all that is read of them.
#[inline]
fn update_and_fill(
    found: &mut [i64; 7],
    counters: &mut [i64],
    rows: u8,
    width: u16,
    spots: &Spots,
    family: &Family,
    level: u8,
    key: &FlowKey,
    weight: u64,
)
    requires level { level ≤ 16 }
    requires weight { weight ≤ 2 ^ 44 }
    requires rows { IsTrue (is_rows rows) }
    requires width { IsTrue (is_width width) }
    requires shape { length counters.old ≡ rows * width }
    requires small { AllUpTo (2 ^ 61) counters.old }
    requires spots { AreSpots family.now level rows width key.now spots.now }
    ensures next { counters.new ≡ plus counters.old
        (counters_of family.now level rows width (record { key = key.now; weight = weight } ∷ [])) }
    ensures found { take rows found.new ≡ row_estimates family.now level rows width counters.new key.now }
{
    for row in 0..rows {
        let says = spots.in_row(row).add(counters, weight);
        found[usize::from(row)] = says;
    }
}
