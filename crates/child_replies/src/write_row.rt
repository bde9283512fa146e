//! The counters of a replay reply as bytes, in version 2.
ghost use Rattle.std.specs.Prelude.{◌≡◌, ◌≤◌, ◌<◌, ◌+◌, ◌*◌, ◌++◌, length, pos, slice_index_or, OnOk};
ghost use Rattle.byteorder.specs.Endian.{little_bytes};
ghost use Rattle.reply_format.specs.Reply.{counter_bytes, entries_bytes, nonzero_count, row_at, row_bytes, sparse_bytes};

use lane_kernels::{next_nonzero, nonzero};
use mon_io::Memory;

/// Appends the counters, row by row.
pub(crate) fn put_rows(
    counters: &[i64],
    rows: usize,
    width: usize,
    out: &mut Vec<u8>,
) -> Result<(), Memory>
    requires number { length counters.now ≡ rows * width }
    requires few { rows ≤ 119 }
    requires small { width ≤ 2048 }
    ensures { OnOk result (out.new.items ≡ out.old.items ++ sparse_bytes rows width counters.now) }
{
    for row in 0..rows {
        put_row(row_at(counters, row, rows, width), out)?;
    }
    Ok(())
}

// A row by its number.
fn row_at(counters: &[i64], row: usize, rows: usize, width: usize) -> &[i64]
    requires number { length counters.now ≡ rows * width }
    requires few { rows ≤ 119 }
    requires small { width ≤ 2048 }
    requires below { row < rows }
    ensures row { result.now ≡ row_at width counters.now row }
    ensures whole { length result.now ≡ width }
{
    let (_, rest) = counters.split_at(row * width);
    let (row, _) = rest.split_at(width);
    row
}

// Appends a row: how many of its counters aren't 0, and of each of these its bucket and the counter.
fn put_row(row: &[i64], out: &mut Vec<u8>) -> Result<(), Memory>
    requires { length row.now ≤ 2048 }
    ensures { OnOk result (out.new.items ≡ out.old.items ++ row_bytes row.now) }
{
    put_number(row_count(row), out)?;
    put_entries(row, out)
}

fn row_count(row: &[i64]) -> u16
    requires { length row.now ≤ 2048 }
    ensures { result ≡ nonzero_count row.now }
{
    nonzero(row) as u16
}

fn put_entries(row: &[i64], out: &mut Vec<u8>) -> Result<(), Memory>
    requires { length row.now ≤ 2048 }
    ensures { OnOk result (out.new.items ≡ out.old.items ++ entries_bytes 0 row.now) }
{
    let mut from = 0;
    while let Some(place) = next_nonzero(row, from) {
        put_entry(row, place, out)?;
        from = place + 1;
    }
    Ok(())
}

// Appends a bucket of a row and its counter.
fn put_entry(row: &[i64], bucket: usize, out: &mut Vec<u8>) -> Result<(), Memory>
    requires below { bucket < length row.now }
    requires few { length row.now ≤ 2048 }
    ensures { OnOk result (out.new.items ≡ out.old.items
        ++ (little_bytes 2 bucket ++ counter_bytes (slice_index_or row.now bucket (pos 0)))) }
{
    put_number(bucket as u16, out)?;
    put_counter(row[bucket], out)
}

fn put_counter(counter: i64, out: &mut Vec<u8>) -> Result<(), Memory>
    ensures { OnOk result (out.new.items ≡ out.old.items ++ counter_bytes counter) }
{
    match out.extend_from_slice(&counter.cast_unsigned().to_le_bytes()) {
        Ok(()) => Ok(()),
        Err(_) => Err(Memory),
    }
}

/// Appends a number of two bytes.
pub(crate) fn put_number(number: u16, out: &mut Vec<u8>) -> Result<(), Memory>
    ensures { OnOk result (out.new.items ≡ out.old.items ++ little_bytes 2 number) }
{
    match out.extend_from_slice(&number.to_le_bytes()) {
        Ok(()) => Ok(()),
        Err(_) => Err(Memory),
    }
}
