//! Differences of merged sketches.

use crate::gathered::{key, merged_of};
use hash_family::{Family, Params};

// A heap of one key, of two keys, dropped one.
#[test]
fn differences(rt: HostRuntime) {
    let family = Family::new(rt.alloc(), 1).expect(&rt, "ample memory");
    let params = Params::new(0, 3, 16, 1, 1).expect(&rt, "within the limits");
    let before = merged_of(&rt, rt.alloc(), params, &[(1, 3), (2, 0)]);
    let same = merged_of(&rt, rt.alloc(), params, &[(1, 5)]);
    let other = merged_of(&rt, rt.alloc(), params, &[(3, 7)]);
    let less = same.minus(rt.alloc(), &before).expect(&rt, "ample memory");
    assert_eq!(rt; less.estimate(&family, 0, &key(&rt, 1)), 2);
    assert_eq!(rt; less.keys(0), &[key(&rt, 1), key(&rt, 2)][..]);
    assert_eq!(rt; less.weight(), 5);
    assert!(rt; less.dropped());
    let apart = same.minus(rt.alloc(), &other).expect(&rt, "ample memory");
    assert_eq!(rt; apart.keys(0), &[key(&rt, 1), key(&rt, 3)][..]);
    assert_eq!(rt; apart.counters(0).len(), 48);
    assert!(rt; !apart.dropped());
}
