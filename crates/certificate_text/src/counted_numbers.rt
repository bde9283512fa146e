//! Lists of numbers at the front of a line, behind how many they are.
ghost use Rattle.std.specs.Prelude.{◌≡◌, ◌≤◌, ◌<◌, ◌^◌, ◌∷◌, [], ◌++◌, IfSome, IfNone, IfOk, OnOk};
ghost use Rattle.certificate_text.specs.Numeral.{IsParted, IsSpelled, SpellsNone, IsCounted, CountsNone};

use crate::numeral::{number, spaced_number};
use mon_io::Memory;
use sqlite_items::Items;
use std::alloc::Global;

/// How many numbers there are, up to 64, these numbers, each below 64, and what stands behind them.
pub(crate) fn counted_names(
    alloc: Global,
    bytes: &[u8],
) -> Result<Option<(Items<u8>, &[u8])>, Memory>
    ensures some { IfOk result (λ read. IfSome read (λ found. IsCounted 64 64 bytes.now found.0 found.1.now)) }
    ensures none { IfOk result (λ read. IfNone read (CountsNone 64 64 bytes.now)) }
{
    let Some((count, rest)) = number(bytes, 65) else {
        return Ok(None);
    };
    names(alloc, rest, count)
}

/// How many numbers there are, up to the most, these numbers, each below 2^56, and what stands behind them.
pub(crate) fn counted_prices(
    alloc: Global,
    bytes: &[u8],
    most: u64,
) -> Result<Option<(Items<u64>, &[u8])>, Memory>
    requires { most ≤ 64 }
    ensures some { IfOk result (λ read. IfSome read (λ found. IsCounted (2 ^ 56) most bytes.now found.0 found.1.now)) }
    ensures none { IfOk result (λ read. IfNone read (CountsNone (2 ^ 56) most bytes.now)) }
{
    let Some((count, rest)) = number(bytes, most + 1) else {
        return Ok(None);
    };
    prices(alloc, rest, count)
}

// So many numbers below 64, each behind a space, and what stands behind them.
fn names(alloc: Global, bytes: &[u8], count: u64) -> Result<Option<(Items<u8>, &[u8])>, Memory>
    requires { IsParted bytes.now }
    ensures some { IfOk result (λ read. IfSome read (λ found. IsSpelled 64 count bytes.now found.0 found.1.now)) }
    ensures none { IfOk result (λ read. IfNone read (SpellsNone 64 count bytes.now)) }
{
    let mut names = Items::new(alloc);
    let mut rest = bytes;
    for _ in 0..count {
        let Some((name, after)) = spaced_number(rest, 64) else {
            return Ok(None);
        };
        push(&mut names, name as u8)?;
        rest = after;
    }
    Ok(Some((names, rest)))
}

// So many numbers below 2^56, each behind a space, and what stands behind them.
fn prices(alloc: Global, bytes: &[u8], count: u64) -> Result<Option<(Items<u64>, &[u8])>, Memory>
    requires { IsParted bytes.now }
    ensures some { IfOk result (λ read. IfSome read (λ found. IsSpelled (2 ^ 56) count bytes.now found.0 found.1.now)) }
    ensures none { IfOk result (λ read. IfNone read (SpellsNone (2 ^ 56) count bytes.now)) }
{
    let mut prices = Items::new(alloc);
    let mut rest = bytes;
    for _ in 0..count {
        let Some((price, after)) = spaced_number(rest, 1 << 56) else {
            return Ok(None);
        };
        push(&mut prices, price)?;
        rest = after;
    }
    Ok(Some((prices, rest)))
}

fn push<T: Drop>(items: &mut Items<T>, item: T) -> Result<(), Memory>
    ensures { OnOk result (items.new ≡ items.old ++ item ∷ []) }
{
    match items.push(item) {
        Ok(()) => Ok(()),
        Err(_) => Err(Memory),
    }
}
