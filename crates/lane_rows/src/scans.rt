//! Counts and places of numbers that aren't 0.
ghost use Rattle.std.specs.Prelude.{◌≤◌, ◌<◌, length};

use lane_kernels::{next_nonzero, nonzero};
use std::process::Abort;

// Of these numbers, each third is 0, from the first on.
fn count_in_thirds<R: Abort + AllocGlobal>(rt: &R, n: usize)
    requires { n ≤ 2048 }
{
    let mut numbers = vec![in rt.alloc(); 0; n].expect(rt, "ample memory");
    for i in 0..n {
        numbers[i] = (i % 3) as i64 * (5 - (i % 7) as i64 * 2);
    }
    assert_eq!(rt; nonzero(&numbers), n - n.div_ceil(3), "of {n}");
}

#[test]
fn counts_at_each_length(rt: HostRuntime) {
    for n in 0..18 {
        count_in_thirds(&rt, n);
    }
    count_in_thirds(&rt, 2048);
}

#[test]
fn counts_of_the_least_and_the_greatest(rt: HostRuntime) {
    assert_eq!(rt; nonzero(&[i64::MIN; 9]), 9);
    assert_eq!(rt; nonzero(&[i64::MAX; 9]), 9);
    assert_eq!(rt; nonzero(&[-1; 17]), 17);
    assert_eq!(rt; nonzero(&[0; 17]), 0);
}

// The only number that isn't 0 stands at the place.
fn find_one<R: Abort + AllocGlobal>(rt: &R, n: usize, place: usize)
    requires few { n ≤ 2048 }
    requires within { place < n }
{
    let mut numbers = vec![in rt.alloc(); 0; n].expect(rt, "ample memory");
    numbers[place] = i64::MIN;
    for from in 0..place + 1 {
        assert_eq!(rt;
            next_nonzero(&numbers, from),
            Some(place),
            "from {from} of {n}"
        );
    }
    assert_eq!(rt;
        next_nonzero(&numbers, place + 1),
        None,
        "behind {place} of {n}"
    );
}

#[test]
fn one_at_each_place(rt: HostRuntime) {
    for n in 1..18 {
        for place in 0..n {
            find_one(&rt, n, place);
        }
    }
}

#[test]
fn one_at_the_end_of_many(rt: HostRuntime) {
    find_one(&rt, 2048, 2047);
    find_one(&rt, 2048, 1024);
}

#[test]
fn none_at_each_length(rt: HostRuntime) {
    let zeros = [0; 17];
    for n in 0..18 {
        assert_eq!(rt; next_nonzero(&zeros[..n], 0), None, "of {n}");
        assert_eq!(rt; next_nonzero(&zeros[..n], n), None, "at the end of {n}");
    }
}
