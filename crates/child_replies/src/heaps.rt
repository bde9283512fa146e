//! The heaps of a replay reply.
ghost use Rattle.std.specs.Prelude.{◌≡◌, ◌∷◌, [], ◌++◌, ◌%◌, ◌-◌, Bool, ℕ, ℤ, List, nat_le, length, IfOk, IfErr};
ghost use Rattle.byte_format.specs.Keys.{key_size};
ghost use Rattle.child_replies.specs.Heads.{head_of_job};
ghost use Rattle.child_replies.specs.Steps.{MayStop, Moves, Stops};
ghost use Rattle.reply_format.specs.Places.{End, HeapKey, HeapLength, behind_heap, behind_key, is_above, is_heap_length};
ghost use Rattle.reply_format.specs.Reply.{ReplayHead};
ghost use Rattle.reply_format.specs.declared.heap.Heap.{Heap as AnyHeap};

use crate::cursor::next_field;
use crate::replay_job::ReplayJob;
use byte_format::key_at;
use byteorder::{ByteOrder, LittleEndian};
use flow_keys::FlowKey;
use reply_format::{Heap, ReplyFault};
use sqlite_items::Items;
use std::alloc::Global;

/// The heap of each level of a reply to the job, and what stands behind them.
pub(crate) fn read_heaps<'a>(
    alloc: Global,
    job: &ReplayJob,
    bytes: &'a [u8],
) -> Result<(Items<Heap>, &'a [u8]), ReplyFault>
    ensures on { IfOk result (λ read. (counters : List ℤ) →
        Moves (head_of_job job.now) (HeapLength counters []) bytes.now
        (End (record { counters = counters; heaps = read.0 })) read.1.now) }
    ensures stop { IfErr result (λ fault. (counters : List ℤ) →
        MayStop (head_of_job job.now) (HeapLength counters []) bytes.now fault) }
{
    let mut heaps = Items::new(alloc);
    let mut rest = bytes;
    for _ in 0..usize::from(job.params.levels) + 1 {
        let (heap, after) = match read_heap(alloc, job, rest) {
            Ok(read) => read,
            Err(fault) => return Err(fault),
        };
        let Ok(()) = heaps.push(heap) else {
            return Err(ReplyFault::Memory);
        };
        rest = after;
    }
    Ok((heaps, rest))
}

// The next heap, and what stands behind it.
fn read_heap<'a>(
    alloc: Global,
    job: &ReplayJob,
    bytes: &'a [u8],
) -> Result<(Heap, &'a [u8]), ReplyFault>
    ensures on { IfOk result (λ read. (counters : List ℤ) (heaps : List AnyHeap) →
        Moves (head_of_job job.now) (HeapLength counters heaps) bytes.now
        (behind_heap (head_of_job job.now) counters (heaps ++ read.0 ∷ [])) read.1.now) }
    ensures stop { IfErr result (λ fault. (counters : List ℤ) (heaps : List AnyHeap) →
        MayStop (head_of_job job.now) (HeapLength counters heaps) bytes.now fault) }
{
    let (length, rest) = match read_heap_length(job, bytes) {
        Ok(read) => read,
        Err(fault) => return Err(fault),
    };
    match read_keys(alloc, job, length >= 32_768, length % 32_768, rest) {
        Ok(read) => Ok(read),
        Err(fault) => Err(fault),
    }
}

// The length of the next heap, with 32768 more where it dropped a key, and what stands behind it.
fn read_heap_length<'a>(job: &ReplayJob, rest: &'a [u8]) -> Result<(u16, &'a [u8]), ReplyFault>
    ensures on { IfOk result (λ read. (counters : List ℤ) (heaps : List AnyHeap) →
        Moves (head_of_job job.now) (HeapLength counters heaps) rest.now
        (behind_key (head_of_job job.now) counters heaps (record { dropped = nat_le 32768 read.0; keys = [] })
        (read.0 % 32768)) read.1.now) }
    ensures stop { IfErr result (λ fault. (counters : List ℤ) (heaps : List AnyHeap) →
        Stops (head_of_job job.now) (HeapLength counters heaps) rest.now fault) }
{
    let Some((field, after)) = next_field(rest, 2) else {
        return Err(ReplyFault::Short);
    };
    let length = LittleEndian::read_u16(field);
    if is_heap_length(job, length) {
        Ok((length, after))
    } else {
        Err(ReplyFault::HeapLength)
    }
}

fn is_heap_length(job: &ReplayJob, length: u16) -> bool
    ensures { result ≡ is_heap_length (head_of_job job.now) length }
{
    let keys = length % 32_768;
    keys <= job.params.heap && (length < 32_768 || keys == job.params.heap)
}

// A heap of so many keys, and what stands behind it.
fn read_keys<'a>(
    alloc: Global,
    job: &ReplayJob,
    dropped: bool,
    count: u16,
    bytes: &'a [u8],
) -> Result<(Heap, &'a [u8]), ReplyFault>
    ensures on { IfOk result (λ read. (counters : List ℤ) (heaps : List AnyHeap) → Moves (head_of_job job.now)
        (behind_key (head_of_job job.now) counters heaps (record { dropped = dropped; keys = [] }) count) bytes.now
        (behind_heap (head_of_job job.now) counters (heaps ++ read.0 ∷ [])) read.1.now) }
    ensures stop { IfErr result (λ fault. (counters : List ℤ) (heaps : List AnyHeap) → MayStop (head_of_job job.now)
        (behind_key (head_of_job job.now) counters heaps (record { dropped = dropped; keys = [] }) count)
        bytes.now fault) }
{
    let mut keys = Items::new(alloc);
    let mut rest = bytes;
    for _ in 0..count {
        let (key, after) = match read_key(keys.as_slice(), rest) {
            Ok(read) => read,
            Err(fault) => return Err(fault),
        };
        let Ok(()) = keys.push(key) else {
            return Err(ReplyFault::Memory);
        };
        rest = after;
    }
    Ok((Heap { dropped, keys }, rest))
}

// The next key of a heap, which is above those before it, and what stands behind it.
fn read_key<'a>(keys: &[FlowKey], rest: &'a [u8]) -> Result<(FlowKey, &'a [u8]), ReplyFault>
    ensures on { IfOk result (λ read. (head : ReplayHead) (counters : List ℤ) (heaps : List AnyHeap) (dropped : Bool)
        (left : ℕ) →
        Moves head (HeapKey counters heaps (record { dropped = dropped; keys = keys.now }) left) rest.now
        (behind_key head counters heaps (record { dropped = dropped; keys = keys.now ++ read.0 ∷ [] }) (left - 1))
        read.1.now) }
    ensures stop { IfErr result (λ fault. (head : ReplayHead) (counters : List ℤ) (heaps : List AnyHeap) (dropped : Bool)
        (left : ℕ) →
        Stops head (HeapKey counters heaps (record { dropped = dropped; keys = keys.now }) left) rest.now fault) }
{
    let Some((field, after)) = next_field(rest, 44) else {
        return Err(ReplyFault::Short);
    };
    let Some(key) = key_at(field) else {
        return Err(ReplyFault::HeapOrder);
    };
    if is_above(keys, &key) {
        Ok((key, after))
    } else {
        Err(ReplyFault::HeapOrder)
    }
}

// Whether a key is above the last of these.
fn is_above(keys: &[FlowKey], key: &FlowKey) -> bool
    ensures { result ≡ is_above keys.now key.now }
{
    let Some(last) = keys.last() else {
        return true;
    };
    last.compare(key).is_lt()
}
