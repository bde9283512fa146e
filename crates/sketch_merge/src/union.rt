//! The keys of two ascending lists in one.
ghost use Rattle.std.specs.Prelude.{◌≡◌, [], map, length, All, IfOk, IfSome, IfNone};
ghost use Rattle.std.specs.Cmp.Lexicographic.{slice_cmp};
ghost use Rattle.std.specs.Ordering.{nat_cmp};
ghost use Rattle.std.specs.List.Sorted.{IsStrictlySortedBy};
ghost use Rattle.std.specs.Simd.Lanes.{zip2};
ghost use Rattle.sketch_merge.specs.Merged.{united};
ghost use Rattle.sketch_merge.specs.Next.{BeginsWith};

use flow_keys::FlowKey;
use mon_io::Memory;
use reply_format::Heap;
use std::alloc::Global;
use std::cmp::Ordering;

// The keys of each level and those of the same level of the others.
pub(crate) fn unions(
    alloc: Global,
    levels: &[Vec<FlowKey>],
    others: &[Vec<FlowKey>],
) -> Result<Vec<Vec<FlowKey>>, Memory>
    requires number { length levels.now ≡ length others.now }
    requires ascending { All (IsStrictlySortedBy (slice_cmp nat_cmp)) (map (λ level. level.items) others.now) }
    ensures value { IfOk result (λ all. map (λ level. level.items) all.items
        ≡ zip2 united (map (λ level. level.items) levels.now) (map (λ level. level.items) others.now)) }
{
    let Ok(mut all) = Vec::with_capacity(alloc, levels.len()) else {
        return Err(Memory);
    };
    for i in 0..levels.len() {
        let level = union(alloc, &levels[i], &others[i])?;
        if all.push(level).is_err() {
            return Err(Memory);
        }
    }
    Ok(all)
}

// The keys of each level and those of the heap of the same level.
pub(crate) fn unions_with_heaps(
    alloc: Global,
    levels: &[Vec<FlowKey>],
    heaps: &[Heap],
) -> Result<Vec<Vec<FlowKey>>, Memory>
    requires number { length levels.now ≡ length heaps.now }
    requires ascending { All (IsStrictlySortedBy (slice_cmp nat_cmp)) (map (λ heap. heap.keys) heaps.now) }
    ensures value { IfOk result (λ all. map (λ level. level.items) all.items
        ≡ zip2 united (map (λ level. level.items) levels.now) (map (λ heap. heap.keys) heaps.now)) }
{
    let Ok(mut all) = Vec::with_capacity(alloc, levels.len()) else {
        return Err(Memory);
    };
    for i in 0..levels.len() {
        let level = union(alloc, &levels[i], heaps[i].keys.as_slice())?;
        if all.push(level).is_err() {
            return Err(Memory);
        }
    }
    Ok(all)
}

// The keys of both lists, of which the second ascends strictly, in time linear in their lengths where both do.
fn union(alloc: Global, keys: &[FlowKey], more: &[FlowKey]) -> Result<Vec<FlowKey>, Memory>
    requires { IsStrictlySortedBy (slice_cmp nat_cmp) more.now }
    ensures value { IfOk result (λ all. all.items ≡ united keys.now more.now) }
{
    let Ok(mut all) = Vec::with_capacity(alloc, keys.len().saturating_add(more.len())) else {
        return Err(Memory);
    };
    let mut of_keys = 0;
    let mut of_more = 0;
    while let Some(next) = next_of(&keys[of_keys..], &more[of_more..]) {
        if all.push(next.key).is_err() {
            return Err(Memory);
        }
        of_keys += next.of_keys;
        of_more += next.of_more;
    }
    Ok(all)
}

// The first key of a union, and how many keys at the front of each list it stands for.
#[derive(Clone, Copy)]
struct Next {
    key: FlowKey,
    of_keys: usize,
    of_more: usize,
}

impl Next {
    fn new(key: &FlowKey, of_keys: usize, of_more: usize) -> Next
        ensures value { result ≡ record { key = key.now; of_keys = of_keys; of_more = of_more } }
    {
        Next {
            key: *key,
            of_keys,
            of_more,
        }
    }
}

// The first key of the union of two lists, None where both are empty.
fn next_of(keys: &[FlowKey], more: &[FlowKey]) -> Option<Next>
    requires { IsStrictlySortedBy (slice_cmp nat_cmp) more.now }
    ensures first { IfSome result (λ next. BeginsWith keys.now more.now next.key next.of_keys next.of_more) }
    ensures none { IfNone result (united keys.now more.now ≡ []) }
{
    let Some(key) = keys.first() else {
        let Some(other) = more.first() else {
            return None;
        };
        return Some(Next::new(other, 0, 1));
    };
    let Some(other) = more.first() else {
        return Some(Next::new(key, 1, 0));
    };
    match key.cmp(other) {
        Ordering::Less => Some(Next::new(key, 1, 0)),
        Ordering::Equal => Some(Next::new(key, 1, 1)),
        Ordering::Greater => Some(Next::new(other, 0, 1)),
    }
}
