//! Where a key counts in the rows of a level.
ghost use Rattle.std.specs.Prelude.{◌≡◌, ◌≤◌, ◌<◌, ◌+◌, ◌*◌, ◌^◌, length, slice_set, slice_index_or};
ghost use Rattle.std.specs.Prelude.{IsTrue, pos, ◌+ℤ◌, ◌*ℤ◌, unsigned_abs};
ghost use Rattle.hash_family.specs.Limits.{is_rows, is_width};
ghost use Rattle.count_sketch.specs.Spots.{IsSpot, AreSpots, no_spots};

use crate::update::{add_at, place_of, sign_of, signed};
use flow_keys::FlowKey;
use hash_family::Family;

/// Where a key counts in a row: the place of its counter, and its sign, 1 or -1.
#[derive(Clone, Copy, Debug)]
pub struct Spot {
    place: u16,
    sign: i8,
}

/// Where a key counts in each row of a level. Only as many spots as there are rows are used.
#[derive(Clone, Copy, Debug)]
pub struct Spots {
    rows: [Spot; 7],
}

impl Spots {
    /// Spots of no key, to fill a table with: each is the first place, with the sign 1.
    #[inline]
    pub fn none() -> Spots
        ensures value { result ≡ no_spots }
    {
        Spots {
            rows: [Spot { place: 0, sign: 1 }; 7],
        }
    }

    /// The key's spots in the rows of a level (0 to 16), where each row has `width` counters. Rows and width are within
    /// the limits of `Params`. Takes no memory.
    pub fn of(rows: u8, width: u16, family: &Family, level: u8, key: &FlowKey) -> Spots
        requires level { level ≤ 16 }
        requires rows { IsTrue (is_rows rows) }
        requires width { IsTrue (is_width width) }
        ensures spots { AreSpots family.now level rows width key.now result }
    {
        let mut found = [Spot { place: 0, sign: 1 }; 7];
        for row in 0..rows {
            found[usize::from(row)] = Spot::of(family, level, row, width, key);
        }
        Spots { rows: found }
    }

    // The spot in a row.
    #[inline]
    pub(crate) fn in_row(&self, row: u8) -> Spot
        requires { row ≤ 6 }
        ensures value { (d : Spot) → result ≡ slice_index_or self.now.rows row d }
    {
        self.rows[usize::from(row)]
    }
}

impl Spot {
    // The key's spot in a row.
    #[inline]
    fn of(family: &Family, level: u8, row: u8, width: u16, key: &FlowKey) -> Spot
        requires level { level ≤ 16 }
        requires row { row ≤ 6 }
        requires width { IsTrue (is_width width) }
        ensures spot { IsSpot family.now level row width key.now result }
    {
        let place = place_of(family, level, row, width, key) as u16;
        let sign = sign_of(family, level, row, key) as i8;
        Spot { place, sign }
    }

    // Adds the weight, with the sign, to the counter at the place, and gives the counter after that, with the sign.
    #[inline]
    pub(crate) fn add(self, counters: &mut [i64], weight: u64) -> i64
        requires place { self.place < length counters.old }
        requires sign { unsigned_abs self.sign ≡ 1 }
        requires weight { weight ≤ 2 ^ 44 }
        requires number { unsigned_abs (slice_index_or counters.old self.place (pos 0)) ≤ 2 ^ 61 }
        ensures written { counters.new ≡ slice_set counters.old self.place
            (slice_index_or counters.old self.place (pos 0) +ℤ (self.sign *ℤ pos weight)) }
        ensures says { result ≡ self.sign *ℤ slice_index_or counters.new self.place (pos 0) }
    {
        let at = usize::from(self.place);
        let sign = i64::from(self.sign);
        add_at(counters, at, signed(sign, weight as i64));
        signed(sign, counters[at])
    }
}
