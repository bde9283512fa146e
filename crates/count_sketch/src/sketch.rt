//! The counters of one level.
ghost use Rattle.std.specs.Prelude.{◌≡◌, ◌≤◌, ◌+◌, ◌*◌, ◌^◌, ◌-◌, ℕ, List, [], ◌∷◌, ◌++◌, length, replicate};
ghost use Rattle.std.specs.Prelude.{IfOk, IsTrue, pos, unsigned_abs};
ghost use Rattle.hash_family.specs.Limits.{is_rows, is_width};
ghost use Rattle.count_sketch.specs.Counters.{Item, Grid, plus, minus, counters_of, grid_of, AllUpTo};
ghost use Rattle.count_sketch.specs.Estimate.{IsMiddle, row_estimates, estimate};
ghost use Rattle.count_sketch.specs.Spots.{AreSpots};

use crate::Spots;
use crate::estimate::estimate_in;
use crate::places::{add_places, sub_places};
use crate::update::update_in;
use crate::update_and_estimate::update_and_estimate_in;
use flow_keys::FlowKey;
use hash_family::Family;
use mon_io::Memory;
use std::alloc::Global;
use std::marker::Model;

/// Signed counters in order of row, then bucket. Rows and width are within the limits of `Params`.
#[derive(Drop)]
pub struct Sketch {
    rows: u8,
    width: u16,
    counters: Vec<i64>,
}

impl Model for Sketch {
    ghost use Rattle.count_sketch.specs.Counters.{Grid};
    ghost use Rattle.count_sketch.specs.Shape.{IsShaped};

    ghost Value = { Grid };

    ghost view = { λ sketch. record { rows = sketch.rows; width = sketch.width; counters = sketch.counters.items } };

    ghost invariant = { λ sketch. IsShaped sketch.rows sketch.width sketch.counters.items };
}

impl Sketch {
    /// All counters 0. No other call takes memory.
    pub fn new(alloc: Global, rows: u8, width: u16) -> Result<Sketch, Memory>
        requires rows { IsTrue (is_rows rows) }
        requires width { IsTrue (is_width width) }
        ensures zero { IfOk result (λ sketch.
            sketch ≡ record { rows = rows; width = width; counters = replicate (rows * width) (pos 0) }) }
        ensures empty { IfOk result (λ sketch. (seed level : ℕ) → sketch ≡ grid_of seed level rows width []) }
        ensures bound { IfOk result (λ sketch. AllUpTo 0 sketch.counters) }
    {
        let counters = zeros(alloc, usize::from(rows) * usize::from(width))?;
        Ok(Sketch {
            rows,
            width,
            counters,
        })
    }

    /// Adds the weight, with the key's sign, to the key's counter in each row. The absolute values of the
    /// counters are at most 2^61 before the call.
    pub fn update(&mut self, family: &Family, level: u8, key: &FlowKey, weight: u32)
        requires level { level ≤ 16 }
        requires small { AllUpTo (2 ^ 61) self.old.counters }
        ensures next { self.new ≡ record self.old {
          counters = plus self.old.counters
              (counters_of family.now level self.old.rows self.old.width
              (record { key = key.now; weight = weight } ∷ []));
        } }
        ensures list { (items : List Item)
            → self.old ≡ grid_of family.now level self.old.rows self.old.width items
            → self.new ≡ grid_of family.now level self.old.rows self.old.width
            (items ++ record { key = key.now; weight = weight } ∷ []) }
        ensures bound { (n : ℕ) → AllUpTo n self.old.counters → AllUpTo (n + weight) self.new.counters }
    {
        update_in(
            &mut self.counters,
            self.rows,
            self.width,
            family,
            level,
            key,
            weight,
        );
    }

    /// Updates, and gives the key's estimate after that. It hashes the key once a row for both.
    pub fn update_and_estimate(
        &mut self,
        family: &Family,
        level: u8,
        key: &FlowKey,
        weight: u32,
    ) -> i64
        requires level { level ≤ 16 }
        requires small { AllUpTo (2 ^ 61) self.old.counters }
        ensures next { self.new ≡ record self.old {
          counters = plus self.old.counters
              (counters_of family.now level self.old.rows self.old.width
              (record { key = key.now; weight = weight } ∷ []));
        } }
        ensures list { (items : List Item)
            → self.old ≡ grid_of family.now level self.old.rows self.old.width items
            → self.new ≡ grid_of family.now level self.old.rows self.old.width
            (items ++ record { key = key.now; weight = weight } ∷ []) }
        ensures bound { (n : ℕ) → AllUpTo n self.old.counters → AllUpTo (n + weight) self.new.counters }
        ensures value { result
            ≡ estimate family.now level self.new.rows self.new.width self.new.counters key.now }
        ensures middle { IsMiddle
            (row_estimates family.now level self.new.rows self.new.width self.new.counters key.now) result }
        ensures result_bound { (n : ℕ) → AllUpTo n self.new.counters → unsigned_abs result ≤ n }
    {
        self.update_and_estimate_by(family, level, key, u64::from(weight))
    }

    /// `update_and_estimate` by a weight that need not fit 32 bits, and is at most 2^44.
    pub fn update_and_estimate_by(
        &mut self,
        family: &Family,
        level: u8,
        key: &FlowKey,
        weight: u64,
    ) -> i64
        requires level { level ≤ 16 }
        requires weight { weight ≤ 2 ^ 44 }
        requires small { AllUpTo (2 ^ 61) self.old.counters }
        ensures next { self.new ≡ record self.old {
          counters = plus self.old.counters
              (counters_of family.now level self.old.rows self.old.width
              (record { key = key.now; weight = weight } ∷ []));
        } }
        ensures list { (items : List Item)
            → self.old ≡ grid_of family.now level self.old.rows self.old.width items
            → self.new ≡ grid_of family.now level self.old.rows self.old.width
            (items ++ record { key = key.now; weight = weight } ∷ []) }
        ensures bound { (n : ℕ) → AllUpTo n self.old.counters → AllUpTo (n + weight) self.new.counters }
        ensures value { result
            ≡ estimate family.now level self.new.rows self.new.width self.new.counters key.now }
        ensures middle { IsMiddle
            (row_estimates family.now level self.new.rows self.new.width self.new.counters key.now) result }
        ensures result_bound { (n : ℕ) → AllUpTo n self.new.counters → unsigned_abs result ≤ n }
    {
        let spots = Spots::of(self.rows, self.width, family, level, key);
        self.update_and_estimate_at(&spots, family, level, key, weight)
    }

    /// `update_and_estimate_by` at the key's spots. It reads no hash: family, level and key are there for the clauses.
    #[inline]
    pub fn update_and_estimate_at(
        &mut self,
        spots: &Spots,
        family: &Family,
        level: u8,
        key: &FlowKey,
        weight: u64,
    ) -> i64
        requires level { level ≤ 16 }
        requires weight { weight ≤ 2 ^ 44 }
        requires small { AllUpTo (2 ^ 61) self.old.counters }
        requires spots { AreSpots family.now level self.old.rows self.old.width key.now spots.now }
        ensures next { self.new ≡ record self.old {
          counters = plus self.old.counters
              (counters_of family.now level self.old.rows self.old.width
              (record { key = key.now; weight = weight } ∷ []));
        } }
        ensures list { (items : List Item)
            → self.old ≡ grid_of family.now level self.old.rows self.old.width items
            → self.new ≡ grid_of family.now level self.old.rows self.old.width
            (items ++ record { key = key.now; weight = weight } ∷ []) }
        ensures bound { (n : ℕ) → AllUpTo n self.old.counters → AllUpTo (n + weight) self.new.counters }
        ensures value { result
            ≡ estimate family.now level self.new.rows self.new.width self.new.counters key.now }
        ensures middle { IsMiddle
            (row_estimates family.now level self.new.rows self.new.width self.new.counters key.now) result }
        ensures result_bound { (n : ℕ) → AllUpTo n self.new.counters → unsigned_abs result ≤ n }
    {
        update_and_estimate_in(
            &mut self.counters,
            self.rows,
            self.width,
            spots,
            family,
            level,
            key,
            weight,
        )
    }

    /// The estimate of a key's weight: the middle of the rows' counters of the key, each with the key's sign.
    pub fn estimate(&self, family: &Family, level: u8, key: &FlowKey) -> i64
        requires level { level ≤ 16 }
        ensures value { result
            ≡ estimate family.now level self.now.rows self.now.width self.now.counters key.now }
        ensures middle { IsMiddle
            (row_estimates family.now level self.now.rows self.now.width self.now.counters key.now) result }
        ensures bound { (n : ℕ) → AllUpTo n self.now.counters → unsigned_abs result ≤ n }
    {
        estimate_in(&self.counters, self.rows, self.width, family, level, key)
    }

    /// The counters in order of row, then bucket. None of them is the least i64.
    pub fn counters(&self) -> &[i64]
        ensures value { result.now ≡ self.now.counters }
        ensures shape { length result.now ≡ self.now.rows * self.now.width }
        ensures none_is_least { AllUpTo (2 ^ 63 - 1) result.now }
    {
        &self.counters
    }

    /// Adds the counters of a sketch of the same shape. All absolute values are below 2^62. The counters of two
    /// lists of items become those of the lists joined.
    pub fn add(&mut self, other: &Sketch)
        requires rows { self.old.rows ≡ other.now.rows }
        requires width { self.old.width ≡ other.now.width }
        requires small { AllUpTo (2 ^ 62 - 1) self.old.counters }
        requires other_small { AllUpTo (2 ^ 62 - 1) other.now.counters }
        ensures next { self.new ≡ record self.old { counters = plus self.old.counters other.now.counters } }
        ensures list { (seed level : ℕ) (xs ys : List Item)
            → self.old ≡ grid_of seed level self.old.rows self.old.width xs
            → other.now ≡ grid_of seed level self.old.rows self.old.width ys
            → self.new ≡ grid_of seed level self.old.rows self.old.width (xs ++ ys) }
    {
        add_places(&mut self.counters, &other.counters);
    }

    /// Takes away the counters of a sketch of the same shape. All absolute values are below 2^62. Of the counters
    /// of two lists joined, and those of the second, those of the first are left.
    pub fn sub(&mut self, other: &Sketch)
        requires rows { self.old.rows ≡ other.now.rows }
        requires width { self.old.width ≡ other.now.width }
        requires small { AllUpTo (2 ^ 62 - 1) self.old.counters }
        requires other_small { AllUpTo (2 ^ 62 - 1) other.now.counters }
        ensures next { self.new ≡ record self.old { counters = minus self.old.counters other.now.counters } }
        ensures list { (seed level : ℕ) (xs ys : List Item)
            → self.old ≡ grid_of seed level self.old.rows self.old.width (xs ++ ys)
            → other.now ≡ grid_of seed level self.old.rows self.old.width ys
            → self.new ≡ grid_of seed level self.old.rows self.old.width xs }
    {
        sub_places(&mut self.counters, &other.counters);
    }
}

// So many counters, all 0.
fn zeros(alloc: Global, number: usize) -> Result<Vec<i64>, Memory>
    ensures { IfOk result (λ counters. counters.items ≡ replicate number (pos 0)) }
{
    match vec![in alloc; 0; number] {
        Ok(counters) => Ok(counters),
        Err(_) => Err(Memory),
    }
}
