//! Sums and differences of 3 i - 7 and 1 - 2 i, which are i - 6 and 5 i - 8, and of the greatest numbers.
ghost use Rattle.std.specs.Prelude.{◌≡◌, ◌≤◌, ◌-◌, ◌^◌, length, unsigned_abs};
ghost use Rattle.lane_kernels.specs.Sums.{AllUpTo};

use lane_kernels::{add_into, sub_into};
use std::process::Abort;

// Place i becomes factor * i + start.
fn fill(numbers: &mut [i64], factor: i64, start: i64)
    requires few { length numbers.old ≤ 2048 }
    requires factor { unsigned_abs factor ≤ 8 }
    requires start { unsigned_abs start ≤ 8 }
    ensures { AllUpTo (2 ^ 62 - 1) numbers.new }
{
    for i in 0..numbers.len() {
        numbers[i] = line(i, factor, start);
    }
}

fn line(i: usize, factor: i64, start: i64) -> i64
    requires place { i ≤ 2048 }
    requires factor { unsigned_abs factor ≤ 8 }
    requires start { unsigned_abs start ≤ 8 }
    ensures { unsigned_abs result ≤ 2 ^ 62 - 1 }
{
    factor * i as i64 + start
}

fn are_on<R: Abort>(rt: &R, numbers: &[i64], factor: i64, start: i64)
    requires few { length numbers.now ≤ 2048 }
    requires factor { unsigned_abs factor ≤ 8 }
    requires start { unsigned_abs start ≤ 8 }
{
    for i in 0..numbers.len() {
        assert_eq!(rt; numbers[i], line(i, factor, start), "at {i}");
    }
}

fn sum_of_length<R: Abort + AllocGlobal>(rt: &R, n: usize)
    requires { n ≤ 2048 }
{
    let mut first = vec![in rt.alloc(); 0; n].expect(rt, "ample memory");
    let mut second = vec![in rt.alloc(); 0; n].expect(rt, "ample memory");
    fill(&mut first, 3, -7);
    fill(&mut second, -2, 1);
    add_into(&mut first, &second);
    are_on(rt, &first, 1, -6);
}

fn difference_of_length<R: Abort + AllocGlobal>(rt: &R, n: usize)
    requires { n ≤ 2048 }
{
    let mut first = vec![in rt.alloc(); 0; n].expect(rt, "ample memory");
    let mut second = vec![in rt.alloc(); 0; n].expect(rt, "ample memory");
    fill(&mut first, 3, -7);
    fill(&mut second, -2, 1);
    sub_into(&mut first, &second);
    are_on(rt, &first, 5, -8);
}

#[test]
fn sums_of_each_length(rt: HostRuntime) {
    for n in 0..18 {
        sum_of_length(&rt, n);
    }
    sum_of_length(&rt, 2048);
}

#[test]
fn differences_of_each_length(rt: HostRuntime) {
    for n in 0..18 {
        difference_of_length(&rt, n);
    }
    difference_of_length(&rt, 2048);
}

// The greatest absolute value that is taken, 2^62 - 1.
const MOST: i64 = 4611686018427387903;

fn nine(number: i64) -> [i64; 9]
    requires { unsigned_abs number ≤ 2 ^ 62 - 1 }
    ensures { AllUpTo (2 ^ 62 - 1) result }
{
    [number; 9]
}

fn nine_sums(rt: &impl Abort, first: i64, second: i64, sum: i64)
    requires first { unsigned_abs first ≤ 2 ^ 62 - 1 }
    requires second { unsigned_abs second ≤ 2 ^ 62 - 1 }
{
    let mut numbers = nine(first);
    add_into(&mut numbers, &nine(second));
    assert_eq!(rt; numbers, [sum; 9]);
}

fn nine_differences(rt: &impl Abort, first: i64, second: i64, difference: i64)
    requires first { unsigned_abs first ≤ 2 ^ 62 - 1 }
    requires second { unsigned_abs second ≤ 2 ^ 62 - 1 }
{
    let mut numbers = nine(first);
    sub_into(&mut numbers, &nine(second));
    assert_eq!(rt; numbers, [difference; 9]);
}

#[test]
fn the_greatest_sums(rt: HostRuntime) {
    nine_sums(&rt, MOST, MOST, 9223372036854775806);
    nine_sums(&rt, MOST, -MOST, 0);
    nine_sums(&rt, -MOST, MOST, 0);
    nine_sums(&rt, -MOST, -MOST, -9223372036854775806);
}

#[test]
fn the_greatest_differences(rt: HostRuntime) {
    nine_differences(&rt, MOST, MOST, 0);
    nine_differences(&rt, MOST, -MOST, 9223372036854775806);
    nine_differences(&rt, -MOST, MOST, -9223372036854775806);
    nine_differences(&rt, -MOST, -MOST, 0);
}
