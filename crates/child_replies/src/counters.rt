//! The counters of a replay reply, of either version.
ghost use Rattle.std.specs.Prelude.{◌≡◌, ◌+◌, ◌-◌, ◌^◌, ◌≤◌, ◌<◌, [], ◌++◌, ℕ, List, None, length, IfOk, IfErr, OnOk};
ghost use Rattle.hash_family.specs.Setting.{setting_of};
ghost use Rattle.child_replies.specs.Heads.{head_of_job, next_place};
ghost use Rattle.child_replies.specs.Steps.{MayStop, Moves};
ghost use Rattle.reply_format.specs.Places.{Bucket, Counter, HeapLength, RowCount, behind_row, behind_value, zeros};
ghost use Rattle.reply_format.specs.Reply.{counter_count, row_count};

use crate::counter::{read_bucket, read_counter, read_row_count, read_value};
use crate::replay_job::ReplayJob;
use hash_family::Params;
use mon_io::Memory;
use reply_format::ReplyFault;
use std::alloc::Global;

/// All counters of a reply to the job, in order of level, row and bucket, and what stands behind them.
pub(crate) fn read_counters<'a>(
    alloc: Global,
    job: &ReplayJob,
    version: u8,
    bytes: &'a [u8],
) -> Result<(Vec<i64>, &'a [u8]), ReplyFault>
    ensures on { IfOk result (λ read. Moves (head_of_job job.now) (next_place None version) bytes.now
        (HeapLength read.0.items []) read.1.now) }
    ensures stop { IfErr result (λ fault. MayStop (head_of_job job.now) (next_place None version) bytes.now fault) }
{
    let rows = row_count(&job.params);
    let count = rows * usize::from(job.params.width);
    let Ok(mut counters) = Vec::with_capacity(alloc, count) else {
        return Err(ReplyFault::Memory);
    };
    match read_into(job, version, &mut counters, rows, bytes) {
        Ok(rest) => Ok((counters, rest)),
        Err(fault) => Err(fault),
    }
}

// The counters of so many rows, in the version, appended to none.
fn read_into<'a>(
    job: &ReplayJob,
    version: u8,
    counters: &mut Vec<i64>,
    rows: usize,
    bytes: &'a [u8],
) -> Result<&'a [u8], ReplyFault>
    requires empty { counters.old.items ≡ [] }
    requires rows { rows ≡ row_count (setting_of job.now.params) }
    requires few { rows ≤ 119 }
    ensures on { IfOk result (λ rest. Moves (head_of_job job.now) (next_place None version) bytes.now
        (HeapLength counters.new.items []) rest.now) }
    ensures stop { IfErr result (λ fault. MayStop (head_of_job job.now) (next_place None version) bytes.now fault) }
{
    if version == 1 {
        return read_each(job, counters, rows * usize::from(job.params.width), bytes);
    }
    read_rows(job, counters, rows, bytes)
}

/// How many rows all levels have together.
pub(crate) fn row_count(params: &Params) -> usize
    ensures value { result ≡ row_count (setting_of params.now) }
    ensures some { 0 < result }
    ensures few { result ≤ 119 }
{
    (usize::from(params.levels) + 1) * usize::from(params.rows)
}

// Each counter, as version 1 has them, appended to none.
fn read_each<'a>(
    job: &ReplayJob,
    counters: &mut Vec<i64>,
    count: usize,
    bytes: &'a [u8],
) -> Result<&'a [u8], ReplyFault>
    requires empty { counters.old.items ≡ [] }
    requires count { count ≡ counter_count (setting_of job.now.params) }
    ensures on { IfOk result (λ rest. Moves (head_of_job job.now) (Counter []) bytes.now
        (HeapLength counters.new.items []) rest.now) }
    ensures stop { IfErr result (λ fault. MayStop (head_of_job job.now) (Counter []) bytes.now fault) }
{
    let mut rest = bytes;
    for _ in 0..count {
        let (counter, after) = match read_counter(job, rest) {
            Ok(read) => read,
            Err(fault) => return Err(fault),
        };
        let Ok(()) = counters.push(counter) else {
            return Err(ReplyFault::Memory);
        };
        rest = after;
    }
    Ok(rest)
}

// The counters of so many rows, as version 2 has them, appended to none.
fn read_rows<'a>(
    job: &ReplayJob,
    counters: &mut Vec<i64>,
    count: usize,
    bytes: &'a [u8],
) -> Result<&'a [u8], ReplyFault>
    requires empty { counters.old.items ≡ [] }
    requires count { count ≡ row_count (setting_of job.now.params) }
    ensures on { IfOk result (λ rest. Moves (head_of_job job.now) (RowCount []) bytes.now
        (HeapLength counters.new.items []) rest.now) }
    ensures stop { IfErr result (λ fault. MayStop (head_of_job job.now) (RowCount []) bytes.now fault) }
{
    let mut rest = bytes;
    for _ in 0..count {
        rest = match read_row(job, counters, rest) {
            Ok(after) => after,
            Err(fault) => return Err(fault),
        };
    }
    Ok(rest)
}

// The counters of the next row, appended.
fn read_row<'a>(
    job: &ReplayJob,
    counters: &mut Vec<i64>,
    bytes: &'a [u8],
) -> Result<&'a [u8], ReplyFault>
    ensures on { IfOk result (λ rest. Moves (head_of_job job.now) (RowCount counters.old.items) bytes.now
        (behind_row (head_of_job job.now) counters.new.items) rest.now) }
    ensures width { OnOk result (length counters.new.items ≡ length counters.old.items + job.now.params.width) }
    ensures stop { IfErr result (λ fault. MayStop (head_of_job job.now) (RowCount counters.old.items) bytes.now fault) }
{
    let (count, rest) = match read_row_count(job, bytes) {
        Ok(read) => read,
        Err(fault) => return Err(fault),
    };
    read_entries(job, counters, count, rest)
}

// So many written counters of a row and the zeros between and behind them, appended.
fn read_entries<'a>(
    job: &ReplayJob,
    counters: &mut Vec<i64>,
    count: u16,
    bytes: &'a [u8],
) -> Result<&'a [u8], ReplyFault>
    ensures on { IfOk result (λ rest. Moves (head_of_job job.now)
        (behind_value (head_of_job job.now) counters.old.items 0 count) bytes.now
        (behind_row (head_of_job job.now) counters.new.items) rest.now) }
    ensures width { OnOk result (length counters.new.items ≡ length counters.old.items + job.now.params.width) }
    ensures stop { IfErr result (λ fault. MayStop (head_of_job job.now)
        (behind_value (head_of_job job.now) counters.old.items 0 count) bytes.now fault) }
{
    let mut rest = bytes;
    let mut from = 0;
    let mut left = count;
    while left > 0 {
        (from, rest) = match read_entry(job, counters, from, rest) {
            Ok(read) => read,
            Err(fault) => return Err(fault),
        };
        left -= 1;
    }
    match put_zeros(counters, job.params.width - from) {
        Ok(()) => Ok(rest),
        Err(Memory) => Err(ReplyFault::Memory),
    }
}

// The next written counter of a row and the zeros before it, appended; the bucket behind it, and what stands there.
fn read_entry<'a>(
    job: &ReplayJob,
    counters: &mut Vec<i64>,
    from: u16,
    bytes: &'a [u8],
) -> Result<(u16, &'a [u8]), ReplyFault>
    ensures on { IfOk result (λ read. (left : ℕ) → Moves (head_of_job job.now)
        (Bucket counters.old.items from left) bytes.now
        (behind_value (head_of_job job.now) counters.new.items read.0 (left - 1)) read.1.now) }
    ensures above { IfOk result (λ read. from < read.0) }
    ensures below { IfOk result (λ read. read.0 ≤ job.now.params.width) }
    ensures width { IfOk result (λ read. length counters.new.items + from ≡ length counters.old.items + read.0) }
    ensures stop { IfErr result (λ fault. (left : ℕ) → MayStop (head_of_job job.now)
        (Bucket counters.old.items from left) bytes.now fault) }
{
    let (bucket, rest) = match read_bucket(job, from, bytes) {
        Ok(read) => read,
        Err(fault) => return Err(fault),
    };
    let Ok(()) = put_zeros(counters, bucket - from) else {
        return Err(ReplyFault::Memory);
    };
    let (value, rest) = match read_value(job, rest) {
        Ok(read) => read,
        Err(fault) => return Err(fault),
    };
    let Ok(()) = counters.push(value) else {
        return Err(ReplyFault::Memory);
    };
    Ok((bucket + 1, rest))
}

// Appends so many counters of 0.
fn put_zeros(counters: &mut Vec<i64>, count: u16) -> Result<(), Memory>
    requires { length counters.old.items + count < 2 ^ 64 }
    ensures { OnOk result (counters.new.items ≡ counters.old.items ++ zeros count) }
{
    match counters.resize(counters.len() + usize::from(count), 0) {
        Ok(()) => Ok(()),
        Err(_) => Err(Memory),
    }
}
