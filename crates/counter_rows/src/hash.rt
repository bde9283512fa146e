//! Values of `bench/hash_values.py`, which has a ChaCha20 of its own, and the edges of the limits.

use crate::keys::{V4, V6};
use flow_keys::FlowKey;
use hash_family::{Family, Params};

// The samples at levels 1, 2, 9 and 16, and whether the key is live at levels 0 to 3.
fn levels_of(family: &Family, key: &FlowKey) -> ([bool; 4], [bool; 4]) {
    let samples = [
        family.sample(1, key),
        family.sample(2, key),
        family.sample(9, key),
        family.sample(16, key),
    ];
    let lives = [
        family.live(0, key),
        family.live(1, key),
        family.live(2, key),
        family.live(3, key),
    ];
    (samples, lives)
}

// Bucket and sign at level 0 and row 0, level 3 and row 4, level 16 and row 6, at widths 16, 1024 and 2048.
fn places_of(family: &Family, key: &FlowKey) -> ([usize; 3], [i64; 3]) {
    let buckets = [
        family.bucket(0, 0, 16, key),
        family.bucket(3, 4, 1024, key),
        family.bucket(16, 6, 2048, key),
    ];
    let signs = [
        family.sign(0, 0, key),
        family.sign(3, 4, key),
        family.sign(16, 6, key),
    ];
    (buckets, signs)
}

#[test]
fn values_from_outside(rt: HostRuntime) {
    let (yes, no) = (true, false);
    let table = [
        (
            0,
            V4,
            [yes, no, no, no],
            [yes, yes, no, no],
            [1, 392, 1200],
            [-1, 1, -1],
        ),
        (
            0,
            V6,
            [yes, no, no, yes],
            [yes, yes, no, no],
            [11, 50, 916],
            [-1, -1, -1],
        ),
        (
            1,
            V4,
            [no, yes, yes, yes],
            [yes, no, no, no],
            [2, 43, 136],
            [1, -1, 1],
        ),
        (
            1,
            V6,
            [yes, yes, yes, no],
            [yes, yes, yes, yes],
            [13, 967, 1390],
            [-1, 1, 1],
        ),
        (
            u64::MAX,
            V4,
            [no, no, yes, yes],
            [yes, no, no, no],
            [4, 142, 1024],
            [-1, 1, 1],
        ),
        (
            u64::MAX,
            V6,
            [yes, no, yes, no],
            [yes, yes, no, no],
            [13, 908, 922],
            [-1, 1, 1],
        ),
    ];
    for (seed, words, samples, lives, buckets, signs) in table {
        let family = Family::new(rt.alloc(), seed).expect(&rt, "ample memory");
        let key = FlowKey::from_words(words).expect(&rt, "a valid key");
        assert_eq!(rt;
            levels_of(&family, &key),
            (samples, lives),
            "levels at seed {seed}"
        );
        assert_eq!(rt;
            places_of(&family, &key),
            (buckets, signs),
            "places at seed {seed}"
        );
    }
}

#[test]
fn even_seeds(rt: HostRuntime) {
    let table = [
        (2, 1383, 11, true),
        (4, 10, 1680, false),
        (1000, 1862, 888, false),
        (1 << 32, 1355, 1611, true),
        (1 << 63, 1444, 1709, false),
    ];
    for (seed, first, last, sample) in table {
        let family = Family::new(rt.alloc(), seed).expect(&rt, "ample memory");
        let key = FlowKey::from_words(V4).expect(&rt, "a valid key");
        assert_eq!(rt; family.bucket(0, 0, 2048, &key), first, "seed {seed}");
        assert_eq!(rt; family.bucket(16, 6, 2048, &key), last, "seed {seed}");
        assert_eq!(rt; family.sample(1, &key), sample, "seed {seed}");
    }
}

#[test]
fn limits(rt: HostRuntime) {
    let cases = [
        (0, 1, 16, 1, true),
        (16, 7, 2048, 1024, true),
        (12, 3, 1024, 64, true),
        (12, 5, 1024, 64, true),
        (17, 5, 1024, 64, false),
        (12, 0, 1024, 64, false),
        (12, 2, 1024, 64, false),
        (12, 9, 1024, 64, false),
        (12, 5, 8, 64, false),
        (12, 5, 24, 64, false),
        (12, 5, 4096, 64, false),
        (12, 5, 1024, 0, false),
        (12, 5, 1024, 1025, false),
    ];
    for (levels, rows, width, heap, within) in cases {
        let found = Params::new(levels, rows, width, heap, 7);
        assert_eq!(rt; found.is_some(), within, "{levels} {rows} {width} {heap}");
    }
}
