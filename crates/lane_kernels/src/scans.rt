//! Numbers that aren't 0.
ghost use Rattle.std.specs.Prelude.{◌≡◌, ◌≤◌, ◌<◌, ◌+◌, ℕ, true, false, length, map, pos};
ghost use Rattle.std.specs.Prelude.{IfSome, IfNone, slice_index_or};
ghost use Rattle.std.specs.Simd.Lanes.{mask_l, chunk};
ghost use Rattle.lane_kernels.specs.Nonzero.{nonzero_count, is_nonzero};

use std::simd::prelude::*;

/// How many numbers aren't 0. It takes no memory.
pub fn nonzero(a: &[i64]) -> usize
    ensures value { result ≡ nonzero_count a.now }
{
    let mut count = 0;
    let mut at = 0;
    while a.len() - at >= 8 {
        count += marks_from(a, at).count_ones() as usize;
        at += 8;
    }
    count + nonzero_one_by_one(&a[at..])
}

/// The first place, from this one on, whose number isn't 0. It takes no memory.
pub fn next_nonzero(a: &[i64], from: usize) -> Option<usize>
    requires within { from ≤ length a.now }
    ensures found { IfSome result (λ place. (from ≤ place) × (place < length a.now)
        × (is_nonzero (slice_index_or a.now place (pos 0)) ≡ true)
        × ((i : ℕ) → from ≤ i → i < place → is_nonzero (slice_index_or a.now i (pos 0)) ≡ false)) }
    ensures none { IfNone result
        ((i : ℕ) → from ≤ i → i < length a.now → is_nonzero (slice_index_or a.now i (pos 0)) ≡ false) }
{
    let mut at = from;
    while a.len() - at >= 8 {
        let bits = marks_from(a, at);
        if bits != 0 {
            return Some(at + bits.trailing_zeros() as usize);
        }
        at += 8;
    }
    next_one_by_one(a, at)
}

// A bit for each of eight numbers from a place on, the lowest for the first: 1 where the number isn't 0.
#[inline]
fn marks_from(a: &[i64], at: usize) -> u64
    requires { at + 8 ≤ length a.now }
    ensures { result ≡ mask_l (map is_nonzero (chunk at 8 a.now)) }
{
    nonzero_bits(eight_from(a, at))
}

// A bit for each of eight numbers, the lowest for the first: 1 where the number isn't 0.
#[inline]
fn nonzero_bits(lanes: [i64; 8]) -> u64
    ensures { result ≡ mask_l (map is_nonzero lanes) }
{
    // What is read here is known to fit its type.
    let [_a, _b, _c, _d, _e, _f, _g, _h] = lanes;
    i64x8::from_array(lanes)
        .simd_ne(i64x8::splat(0))
        .to_bitmask()
}

// Eight numbers from a place on.
#[inline]
fn eight_from(a: &[i64], at: usize) -> [i64; 8]
    requires { at + 8 ≤ length a.now }
    ensures { result ≡ chunk at 8 a.now }
{
    let mut lanes = [0; 8];
    lanes.copy_from_slice(&a[at..at + 8]);
    lanes
}

fn nonzero_one_by_one(a: &[i64]) -> usize
    ensures { result ≡ nonzero_count a.now }
{
    a.iter().filter(|x| **x != 0).count()
}

fn next_one_by_one(a: &[i64], from: usize) -> Option<usize>
    requires { from ≤ length a.now }
    ensures found { IfSome result (λ place. (from ≤ place) × (place < length a.now)
        × (is_nonzero (slice_index_or a.now place (pos 0)) ≡ true)
        × ((i : ℕ) → from ≤ i → i < place → is_nonzero (slice_index_or a.now i (pos 0)) ≡ false)) }
    ensures none { IfNone result
        ((i : ℕ) → from ≤ i → i < length a.now → is_nonzero (slice_index_or a.now i (pos 0)) ≡ false) }
{
    for i in from..a.len() {
        if a[i] != 0 {
            return Some(i);
        }
    }
    None
}
