//! A replay reply as bytes.
ghost use Rattle.std.specs.Prelude.{◌≡◌, ◌≤◌, ◌++◌, length, All, OnOk};
ghost use Rattle.hash_family.specs.Setting.{setting_of};
ghost use Rattle.reply_format.specs.Reply.{IsReplayReply, counter_count, counters_bytes, head_of, heaps_bytes, replay_bytes};

use crate::counters::row_count;
use crate::write_head::head_bytes;
use crate::write_heap::put_heaps;
use crate::write_row::put_rows;
use crate::write_solve::put_bytes;
use hash_family::Params;
use mon_io::Memory;
use reply_format::ReplayBody;

/// Appends the bytes of a replay reply.
pub(crate) fn put_replay(
    number: u32,
    params: &Params,
    items: u32,
    weight: u64,
    body: &ReplayBody,
    out: &mut Vec<u8>,
) -> Result<(), Memory>
    requires within { IsReplayReply (record {
      head = head_of number (setting_of params.now) items weight;
      counters = body.now.counters;
      heaps = body.now.heaps;
    }) }
    ensures { OnOk result (out.new.items ≡ out.old.items ++ replay_bytes 2 (record {
      head = head_of number (setting_of params.now) items weight;
      counters = body.now.counters;
      heaps = body.now.heaps;
    })) }
{
    put_bytes(&head_bytes(number, params, items, weight), out)?;
    match put_body(params, body, out) {
        Ok(()) => Ok(()),
        Err(Memory) => Err(Memory),
    }
}

// Appends the counters and the heaps.
fn put_body(params: &Params, body: &ReplayBody, out: &mut Vec<u8>) -> Result<(), Memory>
    requires number { length body.now.counters ≡ counter_count (setting_of params.now) }
    requires heaps { All (λ heap. length heap.keys ≤ 1024) body.now.heaps }
    ensures { OnOk result (out.new.items ≡ out.old.items
        ++ (counters_bytes 2 (setting_of params.now) body.now.counters ++ heaps_bytes body.now.heaps)) }
{
    put_rows(
        body.counters.as_slice(),
        row_count(params),
        usize::from(params.width),
        out,
    )?;
    put_heaps(body.heaps.as_slice(), out)
}
