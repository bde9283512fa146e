//! The lines of an epoch and of a change.

use crate::gathered::{key, merged_of};
use change_report::{LevelCount, change, change_text, epoch_text};
use hash_family::{Family, Params};

#[test]
fn a_change_of_one_key(rt: HostRuntime) {
    for seed in [1, 77] {
        let family = Family::new(rt.alloc(), seed).expect(&rt, "ample memory");
        let params = Params::new(0, 5, 1024, 64, seed).expect(&rt, "within the limits");
        let before = merged_of(&rt, rt.alloc(), params, &[(1, 3)]);
        let after = merged_of(&rt, rt.alloc(), params, &[(1, 5)]);
        let changed = change(rt.alloc(), &family, &before, &after, 10).expect(&rt, "ample memory");
        assert_eq!(rt; changed.0, 2);
        assert_eq!(rt; changed.1.as_slice(), &[(key(&rt, 1), 2)][..]);
        let text = change_text(rt.alloc(), &family, 1, &before, &after, 10).expect(
            &rt,
            "ample memory",
        );
        assert_eq!(rt;
            text.as_str(),
            "change 0 1 total 2\nchanged 0:1:0:0:0:0:0:0 0 0:0:0:0:0:0:0:0 0 17 by 2\n"
        );
        let text = change_text(rt.alloc(), &family, 255, &after, &before, 1000).expect(
            &rt,
            "ample memory",
        );
        assert_eq!(rt;
            text.as_str(),
            "change 254 255 total 2\nchanged 0:1:0:0:0:0:0:0 0 0:0:0:0:0:0:0:0 0 17 by -2\n"
        );
    }
}

#[test]
fn lines_of_an_epoch(rt: HostRuntime) {
    let family = Family::new(rt.alloc(), 1).expect(&rt, "ample memory");
    let params = Params::new(0, 5, 1024, 64, 1).expect(&rt, "within the limits");
    let merged = merged_of(&rt, rt.alloc(), params, &[(1, 3)]);
    let count = LevelCount {
        packets: 3,
        weight: 3,
        keys: 1,
        nonzero: 5,
    };
    let text = epoch_text(rt.alloc(), &family, 7, 3, &merged, &[count], 10).expect(
        &rt,
        "ample memory",
    );
    let expected = "\
epoch 7 packets 3 weight 3 heaps kept
level 0 packets 3 weight 3 keys 1 nonzero 5
cardinality 1
total 3
heavy 0:1:0:0:0:0:0:0 0 0:0:0:0:0:0:0:0 0 17 weight 3
";
    assert_eq!(rt; text.as_str(), expected);
}
