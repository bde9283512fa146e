//! Values of `bench/sketch_values.py`, at level 2 of seed 1 and width 16.
ghost use Rattle.std.specs.Prelude.{◌≡◌, ◌≤◌, ◌+◌, ◌-◌, ◌^◌, ℕ, length, IsTrue};
ghost use Rattle.hash_family.specs.Limits.{is_rows};
ghost use Rattle.count_sketch.specs.Counters.{AllUpTo};

use crate::keys::{V4, V6};
use count_sketch::Sketch;
use flow_keys::FlowKey;
use hash_family::Family;
use std::process::Abort;

// Feeds a new sketch.
fn feed(sketch: &mut Sketch, family: &Family, items: &[(FlowKey, u32)])
    requires new { AllUpTo 0 sketch.old.counters }
    requires few { length items.now ≤ 1000 }
{
    for (key, weight) in items {
        feed_one(sketch, family, key, *weight);
    }
}

fn feed_one(sketch: &mut Sketch, family: &Family, key: &FlowKey, weight: u32)
    requires { AllUpTo (2 ^ 61) sketch.old.counters }
    ensures rows { sketch.new.rows ≡ sketch.old.rows }
    ensures width { sketch.new.width ≡ sketch.old.width }
    ensures bound { (n : ℕ) → AllUpTo n sketch.old.counters → AllUpTo (n + 2 ^ 32) sketch.new.counters }
{
    sketch.update(family, 2, key, weight);
}

// The counters in three rows of weight 6 of the IPv4 key and weight 70,002 of the IPv6 key.
const PAIR: [i64; 48] = [
    0, 70002, 0, 6, 0, 0, 0, 0, 0, 0, 0, 0, 0, 0, 0, 0, 0, 0, 0, 0, 0, 0, -70002, 0, 0, 0, 0, 0, 0,
    0, 6, 0, 0, 0, 0, 0, 0, 6, 0, 0, 0, 0, 0, 0, 0, 0, -70002, 0,
];

#[test]
fn counters_of_two_keys(rt: HostRuntime) {
    let family = Family::new(rt.alloc(), 1).expect(&rt, "ample memory");
    let v4 = FlowKey::from_words(V4).expect(&rt, "a valid key");
    let v6 = FlowKey::from_words(V6).expect(&rt, "a valid key");
    let mut sketch = Sketch::new(rt.alloc(), 3, 16).expect(&rt, "ample memory");
    feed(
        &mut sketch,
        &family,
        &[(v4, 5), (v6, 2), (v4, 1), (v6, 70000)],
    );
    assert_eq!(rt; sketch.counters(), &PAIR[..]);
    assert_eq!(rt; sketch.estimate(&family, 2, &v4), 6);
    assert_eq!(rt; sketch.estimate(&family, 2, &v6), 70002);
    let mut other = Sketch::new(rt.alloc(), 3, 16).expect(&rt, "ample memory");
    assert_eq!(rt; other.update_and_estimate(&family, 2, &v6, 9), 9);
}

// The sketch in three rows of packets of these weights of the two keys.
fn sketch_of<R: Abort + AllocGlobal>(rt: &R, first: u32, second: u32) -> Sketch
    ensures rows { result.rows ≡ 3 }
    ensures width { result.width ≡ 16 }
    ensures small { AllUpTo (2 ^ 62 - 1) result.counters }
{
    let family = Family::new(rt.alloc(), 1).expect(rt, "ample memory");
    let v4 = FlowKey::from_words(V4).expect(rt, "a valid key");
    let v6 = FlowKey::from_words(V6).expect(rt, "a valid key");
    let mut sketch = Sketch::new(rt.alloc(), 3, 16).expect(rt, "ample memory");
    feed_one(&mut sketch, &family, &v4, first);
    feed_one(&mut sketch, &family, &v6, second);
    sketch
}

#[test]
fn a_sum_and_a_difference(rt: HostRuntime) {
    let mut first = sketch_of(&rt, 6, 0);
    let second = sketch_of(&rt, 0, 70002);
    let mut both = sketch_of(&rt, 6, 70002);
    both.sub(&second);
    assert_eq!(rt; both.counters(), first.counters());
    first.add(&second);
    assert_eq!(rt; first.counters(), &PAIR[..]);
}

#[test]
fn the_widest_sketch(rt: HostRuntime) {
    let sketch = Sketch::new(rt.alloc(), 7, 2048).expect(&rt, "ample memory");
    let family = Family::new(rt.alloc(), 1).expect(&rt, "ample memory");
    let v4 = FlowKey::from_words(V4).expect(&rt, "a valid key");
    assert_eq!(rt; sketch.counters().len(), 14336);
    assert_eq!(rt; sketch.estimate(&family, 16, &v4), 0);
}

// Sixty keys, each with a weight of its own.
fn crowd(rt: &impl Abort) -> [(FlowKey, u32); 60] {
    let first = FlowKey::from_words(V4).expect(rt, "a valid key");
    let mut items = [(first, 0); 60];
    for host in 0..60 {
        let words = [4, host as u32, 0, 0, 0, 7, 0, 0, 0, 0, 17];
        items[host] = (
            FlowKey::from_words(words).expect(rt, "a valid key"),
            10 * host as u32 + 1,
        );
    }
    items
}

// The estimate of key 30 of the crowd, with so many rows.
fn estimate_in_crowd<R: Abort + AllocGlobal>(rt: &R, family: &Family, rows: u8) -> i64
    requires { IsTrue (is_rows rows) }
{
    let items = crowd(rt);
    let mut sketch = Sketch::new(rt.alloc(), rows, 16).expect(rt, "ample memory");
    feed(&mut sketch, family, &items);
    sketch.estimate(family, 2, &items[30].0)
}

#[test]
fn estimates_in_a_crowd(rt: HostRuntime) {
    let family = Family::new(rt.alloc(), 1).expect(&rt, "ample memory");
    assert_eq!(rt; estimate_in_crowd(&rt, &family, 1), 603);
    assert_eq!(rt; estimate_in_crowd(&rt, &family, 3), -50);
    assert_eq!(rt; estimate_in_crowd(&rt, &family, 5), -50);
    assert_eq!(rt; estimate_in_crowd(&rt, &family, 7), 150);
}
