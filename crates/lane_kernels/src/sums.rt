//! Sums and differences place by place.
ghost use Rattle.std.specs.Prelude.{◌≡◌, ◌≤◌, ◌<◌, ◌+◌, ◌-◌, ◌^◌, length, ◌+ℤ◌, ◌-ℤ◌, unsigned_abs};
ghost use Rattle.std.specs.Simd.Lanes.{chunk, put_chunk};
ghost use Rattle.lane_kernels.specs.Sums.{plus, minus, AllUpTo};

use std::simd::prelude::*;

/// Adds the numbers of the other list, place by place. The lists are of one length, and absolute values are below
/// 2^62. It takes no memory.
pub fn add_into(a: &mut [i64], b: &[i64])
    requires shape { length a.old ≡ length b.now }
    requires small { AllUpTo (2 ^ 62 - 1) a.old }
    requires other_small { AllUpTo (2 ^ 62 - 1) b.now }
    ensures value { a.new ≡ plus a.old b.now }
{
    let mut at = 0;
    while a.len() - at >= 8 {
        add_eight(a, b, at);
        at += 8;
    }
    add_one_by_one(&mut a[at..], &b[at..]);
}

/// Takes away the numbers of the other list, place by place. The lists are of one length, and absolute values are
/// below 2^62. It takes no memory.
pub fn sub_into(a: &mut [i64], b: &[i64])
    requires shape { length a.old ≡ length b.now }
    requires small { AllUpTo (2 ^ 62 - 1) a.old }
    requires other_small { AllUpTo (2 ^ 62 - 1) b.now }
    ensures value { a.new ≡ minus a.old b.now }
{
    let mut at = 0;
    while a.len() - at >= 8 {
        sub_eight(a, b, at);
        at += 8;
    }
    sub_one_by_one(&mut a[at..], &b[at..]);
}

// Adds eight numbers, from a place on.
#[inline]
fn add_eight(a: &mut [i64], b: &[i64], at: usize)
    requires room { at + 8 ≤ length a.old }
    requires other_room { at + 8 ≤ length b.now }
    requires small { AllUpTo (2 ^ 62 - 1) (chunk at 8 a.old) }
    requires other_small { AllUpTo (2 ^ 62 - 1) b.now }
    ensures { a.new ≡ put_chunk at a.old (plus (chunk at 8 a.old) (chunk at 8 b.now)) }
{
    let sum = i64x8::from_slice(&a[at..]) + i64x8::from_slice(&b[at..]);
    sum.copy_to_slice(&mut a[at..]);
}

// Takes away eight numbers, from a place on.
#[inline]
fn sub_eight(a: &mut [i64], b: &[i64], at: usize)
    requires room { at + 8 ≤ length a.old }
    requires other_room { at + 8 ≤ length b.now }
    requires small { AllUpTo (2 ^ 62 - 1) (chunk at 8 a.old) }
    requires other_small { AllUpTo (2 ^ 62 - 1) b.now }
    ensures { a.new ≡ put_chunk at a.old (minus (chunk at 8 a.old) (chunk at 8 b.now)) }
{
    let difference = i64x8::from_slice(&a[at..]) - i64x8::from_slice(&b[at..]);
    difference.copy_to_slice(&mut a[at..]);
}

fn add_one_by_one(a: &mut [i64], b: &[i64])
    requires shape { length a.old ≡ length b.now }
    requires small { AllUpTo (2 ^ 62 - 1) a.old }
    requires other_small { AllUpTo (2 ^ 62 - 1) b.now }
    ensures { a.new ≡ plus a.old b.now }
{
    for i in 0..a.len() {
        a[i] = sum_of(a[i], b[i]);
    }
}

fn sub_one_by_one(a: &mut [i64], b: &[i64])
    requires shape { length a.old ≡ length b.now }
    requires small { AllUpTo (2 ^ 62 - 1) a.old }
    requires other_small { AllUpTo (2 ^ 62 - 1) b.now }
    ensures { a.new ≡ minus a.old b.now }
{
    for i in 0..a.len() {
        a[i] = difference_of(a[i], b[i]);
    }
}

#[inline]
fn sum_of(a: i64, b: i64) -> i64
    requires first { unsigned_abs a < 2 ^ 62 }
    requires second { unsigned_abs b < 2 ^ 62 }
    ensures { result ≡ a +ℤ b }
{
    a + b
}

#[inline]
fn difference_of(a: i64, b: i64) -> i64
    requires first { unsigned_abs a < 2 ^ 62 }
    requires second { unsigned_abs b < 2 ^ 62 }
    ensures { result ≡ a -ℤ b }
{
    a - b
}
