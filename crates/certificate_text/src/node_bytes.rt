//! A node without its children from bytes: its kind byte, and then its body.
ghost use Rattle.std.specs.Prelude.{◌≡◌, ◌≤◌, ◌<◌, ◌^◌, ℕ, length, drop, take};
ghost use Rattle.std.specs.Int.{w64, to_le_bytes};
ghost use Rattle.certificate_text.specs.Bytes.{in_eights};
ghost use Rattle.certificate_text.specs.Reading.{Reads, Between, Several};
ghost use Rattle.certificate_text.specs.ReadNode.{
  FitsAt,
  HasKind,
  AreNames,
  ArePriced,
  IsPrice,
  head_bytes,
  head_body,
  counted_eights,
  one_byte,
  no_cost,
  least_kind,
};

use crate::fault::TreeBytesFault;
use crate::node_head::NodeHead;
use bound_certificate::are_names;
use sqlite_items::Items;
use std::alloc::Global;

/// The node at this depth that stands at the front, and how many bytes it takes. A Branch is one only at a depth
/// below 64, where one is left.
pub(crate) fn read_head(
    alloc: Global,
    bytes: &[u8],
    depth: u8,
    left: u16,
) -> Result<(NodeHead, usize), TreeBytesFault>
    ensures { Reads (FitsAt depth left) head_bytes bytes.now result }
{
    let (kind, start) = match read_between(bytes, least_kind(depth, left), 4) {
        Ok(read) => read,
        Err(fault) => return Err(fault),
    };
    match read_body(alloc, rest_of(bytes, start), kind) {
        Ok((head, taken)) => Ok((head, start + taken)),
        Err(fault) => Err(fault),
    }
}

// The least kind byte that may stand there.
fn least_kind(depth: u8, left: u16) -> u8
    ensures value { result ≡ least_kind depth left }
    ensures few { result ≤ 1 }
{
    if depth < 64 && left > 0 { 0 } else { 1 }
}

// One byte, from least to most.
fn read_between(bytes: &[u8], least: u8, most: u8) -> Result<(u8, usize), TreeBytesFault>
    requires { least ≤ most }
    ensures { Reads (Between least most) one_byte bytes.now result }
{
    if bytes.is_empty() {
        return Err(TreeBytesFault::Short);
    }
    let byte = bytes[0];
    if byte < least || byte > most {
        return Err(TreeBytesFault::Shape);
    }
    Ok((byte, 1))
}

// The bytes from a place on.
pub(crate) fn rest_of(bytes: &[u8], taken: usize) -> &[u8]
    requires { taken ≤ length bytes.now }
    ensures { result.now ≡ drop taken bytes.now }
{
    &bytes[taken..]
}

// A node of this kind, behind its kind byte.
fn read_body(alloc: Global, bytes: &[u8], kind: u8) -> Result<(NodeHead, usize), TreeBytesFault>
    requires { kind ≤ 4 }
    ensures { Reads (HasKind kind) head_body bytes.now result }
{
    match kind {
        0 => read_branch(bytes),
        1 => Ok((NodeHead::Over, 0)),
        2 => read_hall(alloc, bytes),
        3 => read_dual(alloc, bytes),
        _ => Ok((NodeHead::Full, 0)),
    }
}

fn read_branch(bytes: &[u8]) -> Result<(NodeHead, usize), TreeBytesFault>
    ensures { Reads (HasKind 0) head_body bytes.now result }
{
    match read_between(bytes, 1, 8) {
        Ok((count, taken)) => Ok((NodeHead::Branch(count), taken)),
        Err(fault) => Err(fault),
    }
}

fn read_hall(alloc: Global, bytes: &[u8]) -> Result<(NodeHead, usize), TreeBytesFault>
    ensures { Reads (HasKind 2) head_body bytes.now result }
{
    let (count, start) = match read_between(bytes, 0, 64) {
        Ok(read) => read,
        Err(fault) => return Err(fault),
    };
    match read_names(alloc, rest_of(bytes, start), count) {
        Ok((names, taken)) => Ok((NodeHead::Hall(names), start + taken)),
        Err(fault) => Err(fault),
    }
}

// So many needs. One that is no need's number is found before the end of the bytes is.
fn read_names(alloc: Global, bytes: &[u8], count: u8) -> Result<(Items<u8>, usize), TreeBytesFault>
    ensures { Reads (AreNames count) (λ names. names) bytes.now result }
{
    let count = count as usize;
    let names = front_of(bytes, count);
    if !are_names(names) {
        return Err(TreeBytesFault::Shape);
    }
    if names.len() < count {
        return Err(TreeBytesFault::Short);
    }
    match Items::from_slice(alloc, names) {
        Ok(names) => Ok((names, count)),
        Err(_) => Err(TreeBytesFault::Memory),
    }
}

// The first so many bytes, or all of them where they are fewer.
fn front_of(bytes: &[u8], count: usize) -> &[u8]
    ensures { result.now ≡ take count bytes.now }
{
    if count < bytes.len() {
        &bytes[..count]
    } else {
        bytes
    }
}

fn read_dual(alloc: Global, bytes: &[u8]) -> Result<(NodeHead, usize), TreeBytesFault>
    ensures { Reads (HasKind 3) head_body bytes.now result }
{
    let (lambda, start) = match read_counted(alloc, bytes, 64) {
        Ok(read) => read,
        Err(fault) => return Err(fault),
    };
    match read_counted(alloc, rest_of(bytes, start), 32) {
        Ok((mu, taken)) => Ok((NodeHead::Dual { lambda, mu }, start + taken)),
        Err(fault) => Err(fault),
    }
}

// Numbers behind their count.
fn read_counted(
    alloc: Global,
    bytes: &[u8],
    limit: u8,
) -> Result<(Items<u64>, usize), TreeBytesFault>
    ensures { Reads (ArePriced limit) counted_eights bytes.now result }
{
    let (count, start) = match read_between(bytes, 0, limit) {
        Ok(read) => read,
        Err(fault) => return Err(fault),
    };
    match read_numbers(alloc, rest_of(bytes, start), count) {
        Ok((numbers, taken)) => Ok((numbers, start + taken)),
        Err(fault) => Err(fault),
    }
}

// So many numbers.
fn read_numbers(
    alloc: Global,
    bytes: &[u8],
    count: u8,
) -> Result<(Items<u64>, usize), TreeBytesFault>
    ensures { Reads (Several IsPrice no_cost count 0) in_eights bytes.now result }
{
    let mut numbers = Items::new(alloc);
    let mut at = 0;
    for _ in 0..count {
        let (number, taken) = match read_number(rest_of(bytes, at)) {
            Ok(read) => read,
            Err(fault) => return Err(fault),
        };
        let Ok(()) = numbers.push(number) else {
            return Err(TreeBytesFault::Memory);
        };
        at += taken;
    }
    Ok((numbers, at))
}

// A number below 2^56.
fn read_number(bytes: &[u8]) -> Result<(u64, usize), TreeBytesFault>
    ensures { Reads IsPrice (λ x. to_le_bytes w64 x) bytes.now result }
{
    if bytes.len() < 8 {
        return Err(TreeBytesFault::Short);
    }
    let number = u64::from_le_bytes([
        bytes[0], bytes[1], bytes[2], bytes[3], bytes[4], bytes[5], bytes[6], bytes[7],
    ]);
    if number >= 1 << 56 {
        return Err(TreeBytesFault::Shape);
    }
    Ok((number, 8))
}
