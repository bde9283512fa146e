//! The heaps of a replay reply as bytes.
ghost use Rattle.std.specs.Prelude.{◌≡◌, ◌≤◌, ◌+◌, ◌++◌, length, All, OnOk, if◌then◌else◌};
ghost use Rattle.std.specs.List.{flat_map};
ghost use Rattle.byte_format.specs.Keys.{key_bytes};
ghost use Rattle.reply_format.specs.Reply.{heap_bytes, heaps_bytes};

use crate::write_row::put_number;
use byte_format::put_key;
use flow_keys::FlowKey;
use mon_io::Memory;
use reply_format::Heap;

/// Appends the heaps, in their order.
pub(crate) fn put_heaps(heaps: &[Heap], out: &mut Vec<u8>) -> Result<(), Memory>
    requires { All (λ heap. length heap.keys ≤ 1024) heaps.now }
    ensures { OnOk result (out.new.items ≡ out.old.items ++ heaps_bytes heaps.now) }
{
    for heap in heaps {
        put_heap(heap, out)?;
    }
    Ok(())
}

fn put_heap(heap: &Heap, out: &mut Vec<u8>) -> Result<(), Memory>
    requires { length heap.now.keys ≤ 1024 }
    ensures { OnOk result (out.new.items ≡ out.old.items ++ heap_bytes heap.now) }
{
    put_number(heap_length(heap), out)?;
    put_keys(heap.keys.as_slice(), out)
}

// How many keys there are, with 32768 more where one was dropped.
fn heap_length(heap: &Heap) -> u16
    requires { length heap.now.keys ≤ 1024 }
    ensures { result ≡ length heap.now.keys + (if heap.now.dropped then 32768 else 0) }
{
    let keys = heap.keys.len() as u16;
    if heap.dropped { keys + 32_768 } else { keys }
}

fn put_keys(keys: &[FlowKey], out: &mut Vec<u8>) -> Result<(), Memory>
    ensures { OnOk result (out.new.items ≡ out.old.items ++ flat_map key_bytes keys.now) }
{
    for key in keys {
        put_key(key, out)?;
    }
    Ok(())
}
