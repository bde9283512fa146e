//! Which of four pairs are selected.
ghost use Rattle.std.specs.Prelude.{◌≤◌, ◌^◌, unsigned_abs};
ghost use Rattle.recursive_sum.specs.Select.{HaveOwnKeys};

use crate::gathered::key;
use flow_keys::FlowKey;
use recursive_sum::select;
use std::alloc::Global;
use std::process::Abort;

// Keys 2, 1, 3 and 4 with these numbers.
fn four(rt: &impl Abort, alloc: Global, numbers: [i128; 4]) -> Vec<(FlowKey, i128)>
    ensures { HaveOwnKeys result.items }
{
    let [second, first, third, fourth] = numbers;
    let pairs = vec![in alloc;
        (key(rt, 2), second),
        (key(rt, 1), first),
        (key(rt, 3), third),
        (key(rt, 4), fourth),
    ];
    pairs.expect(rt, "ample memory")
}

// Compares what is selected with these keys and numbers.
fn selects(
    rt: &impl Abort,
    alloc: Global,
    numbers: [i128; 4],
    per_mille: u32,
    total: i128,
    wanted: &[(u32, i128)],
)
    requires per_mille { per_mille ≤ 1000 }
    requires total { unsigned_abs total ≤ 2 ^ 100 }
{
    let pairs = four(rt, alloc, numbers);
    let selected = select(alloc, pairs, per_mille, total).expect(rt, "ample memory");
    assert_eq!(rt; selected.len(), wanted.len());
    for (found, (n, number)) in selected.iter().zip(wanted) {
        assert_eq!(rt; found.0, key(rt, *n));
        assert_eq!(rt; found.1, *number);
    }
}

#[test]
fn selected_pairs(rt: HostRuntime) {
    let numbers = [5, 5, 10, 4];
    selects(
        &rt,
        rt.alloc(),
        numbers,
        250,
        20,
        &[(3, 10), (1, 5), (2, 5)],
    );
    selects(
        &rt,
        rt.alloc(),
        [-7, 0, 7, 1],
        0,
        20,
        &[(2, -7), (3, 7), (4, 1)],
    );
    selects(
        &rt,
        rt.alloc(),
        [-7, 0, 7, 1],
        1000,
        -20,
        &[(2, -7), (3, 7), (4, 1)],
    );
    selects(&rt, rt.alloc(), numbers, 1000, 11, &[]);
}
