//! Keys in a table, and counters at their spots.
use crate::SpotTable;
use count_sketch::Sketch;
use flow_keys::FlowKey;
use hash_family::{Family, Params};

// The IPv4 key 10.0.0.1 1000 10.1.0.2 53 17.
const FIRST: [u32; 11] = [
    4,
    0x0a00_0001,
    0,
    0,
    0,
    0x0a01_0002,
    0,
    0,
    0,
    65_536_053,
    17,
];

// The same with another port of the destination, 18129, and in the same slot.
const SECOND: [u32; 11] = [
    4,
    0x0a00_0001,
    0,
    0,
    0,
    0x0a01_0002,
    0,
    0,
    0,
    65_554_129,
    17,
];

// The numbers of levels are those that bench/hash_values.py gives by `live` at seed 1.
#[test]
fn two_keys_of_one_slot_stay_apart(rt: HostRuntime) {
    let params = Params::new(8, 3, 16, 10, 1).expect(&rt, "within the limits");
    let family = Family::new(rt.alloc(), params.seed).expect(&rt, "ample memory");
    let mut table = SpotTable::new(rt.alloc(), &params).expect(&rt, "ample memory");
    let first = FlowKey::from_words(FIRST).expect(&rt, "a valid key");
    let second = FlowKey::from_words(SECOND).expect(&rt, "a valid key");
    assert_eq!(rt; table.known(&family, &first).live(), 1);
    assert_eq!(rt; table.known(&family, &second).live(), 7);
    assert_eq!(rt; table.known(&family, &first).live(), 1);
    assert_eq!(rt; table.known(&family, &first).live(), 1);
}

#[test]
fn a_key_counts_at_its_known_spots(rt: HostRuntime) {
    let params = Params::new(8, 3, 16, 10, 1).expect(&rt, "within the limits");
    let family = Family::new(rt.alloc(), params.seed).expect(&rt, "ample memory");
    let mut table = SpotTable::new(rt.alloc(), &params).expect(&rt, "ample memory");
    let key = FlowKey::from_words(FIRST).expect(&rt, "a valid key");
    let known = table.known(&family, &key);
    assert!(rt; known.live() > 0);
    let mut at_spots = Sketch::new(rt.alloc(), 3, 16).expect(&rt, "ample memory");
    let mut by_key = Sketch::new(rt.alloc(), 3, 16).expect(&rt, "ample memory");
    let estimate = at_spots.update_and_estimate_at(known.spots(0), &family, 0, &key, 5);
    assert_eq!(rt;
        estimate,
        by_key.update_and_estimate_by(&family, 0, &key, 5)
    );
    assert_eq!(rt; at_spots.counters(), by_key.counters());
}
