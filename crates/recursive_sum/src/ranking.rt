//! The keys with the greatest absolute numbers.
ghost use Rattle.std.specs.Prelude.{◌≡◌, ◌≤◌, ◌^◌, ℕ, nat_le, filter, IfOk, unsigned_abs};
ghost use Rattle.std.specs.List.Sorted.{IsPermutation, IsStrictlySortedBy};
ghost use Rattle.recursive_sum.specs.Select.{HaveOwnKeys, is_great, is_selected, by_rank, in_order, selection};

use flow_keys::FlowKey;
use mon_io::Memory;
use std::alloc::Global;
use std::cmp::Ordering;

/// Keeps the pairs whose number has an absolute value above 0 and of at least `per_mille` (0 to 1,000) thousandths
/// of the total, which may be negative: the greater absolute values first, and of equal ones the lesser key. No key
/// stands twice, and the total's absolute value is at most 2^100. The sort may take memory.
pub fn select(
    alloc: Global,
    mut pairs: Vec<(FlowKey, i128)>,
    per_mille: u32,
    total: i128,
) -> Result<Vec<(FlowKey, i128)>, Memory>
    requires distinct { HaveOwnKeys pairs.items }
    requires total { unsigned_abs total ≤ 2 ^ 100 }
    requires per_mille { per_mille ≤ 1000 }
    ensures value { IfOk result (λ selected. selected.items ≡ selection per_mille total pairs.items) }
    ensures kept { IfOk result (λ selected.
        IsPermutation (filter (is_selected per_mille total) pairs.items) selected.items) }
    ensures order { IfOk result (λ selected. IsStrictlySortedBy by_rank selected.items) }
{
    keep_great(&mut pairs, per_mille, total);
    sort_by_rank(alloc, &mut pairs)?;
    Ok(pairs)
}

// Keeps the selected pairs, in their order.
fn keep_great(pairs: &mut Vec<(FlowKey, i128)>, per_mille: u32, total: i128)
    requires total { unsigned_abs total ≤ 2 ^ 100 }
    requires per_mille { per_mille ≤ 1000 }
    ensures { pairs.new.items ≡ filter (is_selected per_mille total) pairs.old.items }
{
    let least = least_great(per_mille, total);
    pairs.retain(|pair| least <= pair.1.unsigned_abs());
}

// The least absolute value above 0 that is of at least so many thousandths of the total.
fn least_great(per_mille: u32, total: i128) -> u128
    requires total { unsigned_abs total ≤ 2 ^ 100 }
    requires per_mille { per_mille ≤ 1000 }
    ensures { (size : ℕ) → nat_le result size ≡ is_great per_mille total size }
{
    if total <= 0 || per_mille == 0 {
        return 1;
    }
    (u128::from(per_mille) * total.unsigned_abs()).div_ceil(1000)
}

// Puts the pairs into the order of the selected.
fn sort_by_rank(alloc: Global, pairs: &mut [(FlowKey, i128)]) -> Result<(), Memory>
    requires { HaveOwnKeys pairs.old }
    ensures moved { IsPermutation pairs.old pairs.new }
    ensures order { IfOk result (λ _. IsStrictlySortedBy by_rank pairs.new) }
    ensures value { IfOk result (λ _. pairs.new ≡ in_order pairs.old) }
{
    match pairs.sort_by(alloc, |a, b| ranked(a, b)) {
        Ok(()) => Ok(()),
        Err(_) => Err(Memory),
    }
}

// The greater absolute value first, then the lesser key.
#[tactic(auto, unfolding(crate::specs::Select::by_rank))]
fn ranked(a: &(FlowKey, i128), b: &(FlowKey, i128)) -> Ordering
    ensures { result ≡ by_rank a.now b.now }
{
    let sizes = b.1.unsigned_abs().cmp(&a.1.unsigned_abs());
    sizes.then(a.0.cmp(&b.0))
}
