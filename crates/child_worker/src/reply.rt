//! The reply to a job that was read whole.
ghost use Rattle.std.specs.Prelude.{◌≡◌, ◌≤◌, ◌+◌, ℕ, List, IfOk, All, length};
ghost use Rattle.count_sketch.specs.Counters.{AllUpTo, Item as Fed};
ghost use Rattle.flow_keys.specs.Key.{IsKey};
ghost use Rattle.job_format.specs.declared.item.Item.{Item as AnItem};
ghost use Rattle.reply_format.specs.Reply.{IsHeap, IsReply, counter_count, level_count, reply_bytes, reply_of};
ghost use Rattle.reply_format.specs.Reply as replies;
ghost use Rattle.sketch_levels.specs.Levels.{Holds};
ghost use Rattle.child_worker.specs.Replies.{all_counters, all_heaps, fed, level_heap, replay_reply};
ghost use Rattle.child_worker.specs.Work.{IsEnded, IsReplyTo, IsSketchOf, RepliesTo};
ghost use Rattle.child_jobs.specs.Heads.{head_of};
ghost use Rattle.job_format.specs.Job.{IsSolveJob, Solve};
ghost use Rattle.std.specs.Option.{option_map};

use bound_certificate::Problem;
use child_jobs::{JobEnd, JobHead};
use child_replies::write_reply;
use flow_keys::FlowKey;
use mon_io::Memory;
use placement_search::search;
use reply_format::{Heap, ReplayBody, Reply};
use sketch_levels::Levels;
use sqlite_items::Items;
use std::alloc::Global;

/// The reply to a job with this head that ended so, from the levels of so many items of it. It takes memory.
pub(crate) fn reply_to(
    alloc: Global,
    head: Option<JobHead>,
    levels: Option<Levels>,
    items: u32,
    end: JobEnd,
) -> Result<Reply, Memory>
    requires ended { (bytes : List ℕ) × IsEnded levels items (option_map head_of head) end bytes }
    ensures within { IfOk result (λ reply. IsReply (reply_of reply)) }
    ensures replies { IfOk result (λ reply. (bytes : List ℕ) → IsEnded levels items (option_map head_of head) end bytes
        → RepliesTo bytes (reply_of reply)) }
{
    let Some(head) = head else {
        unreachable!();
    };
    match end {
        JobEnd::Replay => {
            let Some(levels) = levels else {
                unreachable!();
            };
            replay_reply(alloc, head.job, &levels, items)
        }
        JobEnd::Solve { nodes, problem } => solve_reply(alloc, head.job, &problem, nodes),
    }
}

/// The bytes of a reply within its limits. It takes memory.
pub(crate) fn bytes_of(alloc: Global, reply: Reply) -> Result<Vec<u8>, Memory>
    requires within { IsReply (reply_of reply) }
    ensures written { IfOk result (λ bytes. bytes.items ≡ reply_bytes 2 (reply_of reply)) }
{
    let mut bytes = Vec::new(alloc);
    write_reply(alloc, &reply, &mut bytes)?;
    Ok(bytes)
}

// The reply to a solve job: the outcome of a search of so many nodes.
fn solve_reply(alloc: Global, job: u32, problem: &Problem, nodes: u32) -> Result<Reply, Memory>
    requires job { IsSolveJob (record { number = job; nodes = nodes; problem = problem.now }) }
    ensures within { IfOk result (λ reply. IsReply (reply_of reply)) }
    ensures reply { IfOk result (λ reply.
        IsReplyTo (Solve (record { number = job; nodes = nodes; problem = problem.now })) (reply_of reply)) }
{
    let outcome = search(alloc, problem, nodes)?;
    Ok(Reply::Solve { job, outcome })
}

// The reply to a replay job of this number and so many items, which the levels hold.
fn replay_reply(alloc: Global, job: u32, levels: &Levels, items: u32) -> Result<Reply, Memory>
    ensures reply { IfOk result (λ reply. (given : List AnItem) → IsSketchOf levels.now items given
        → reply_of reply
        ≡ replies.Replay (replay_reply (record { number = job; setting = levels.now.setting; items = given }))) }
    ensures within { IfOk result (λ reply. (given : List AnItem) → IsSketchOf levels.now items given
        → IsReply (reply_of reply)) }
{
    let counters = all_counters(alloc, levels)?;
    let heaps = all_heaps(alloc, levels)?;
    Ok(Reply::Replay {
        job,
        params: *levels.params(),
        items,
        weight: levels.weight(),
        body: ReplayBody { counters, heaps },
    })
}

// The counters of all levels, in order of level, row and bucket.
fn all_counters(alloc: Global, levels: &Levels) -> Result<Items<i64>, Memory>
    ensures list { IfOk result (λ counters. (items : List Fed) → Holds levels.now items
        → counters ≡ all_counters levels.now.setting items) }
    ensures number { IfOk result (λ counters. length counters ≡ counter_count levels.now.setting) }
    ensures bound { IfOk result (λ counters. AllUpTo levels.now.weight counters) }
{
    let mut counters = Vec::new(alloc);
    for level in 0..levels.params().levels + 1 {
        let Ok(()) = counters.extend_from_slice(levels.counters(level)) else {
            return Err(Memory);
        };
    }
    Ok(Items::from_vec(counters))
}

// The heaps of all levels, by level.
fn all_heaps(alloc: Global, levels: &Levels) -> Result<Items<Heap>, Memory>
    ensures list { IfOk result (λ heaps. (items : List Fed) → Holds levels.now items
        → heaps ≡ all_heaps levels.now.setting items) }
    ensures number { IfOk result (λ heaps. length heaps ≡ level_count levels.now.setting) }
    ensures each { IfOk result (λ heaps. (items : List Fed) → Holds levels.now items
        → All (IsHeap levels.now.setting.heap) heaps) }
{
    let mut heaps = Items::new(alloc);
    for level in 0..levels.params().levels + 1 {
        let heap = heap_of(alloc, levels, level)?;
        let Ok(()) = heaps.push(heap) else {
            return Err(Memory);
        };
    }
    Ok(heaps)
}

// The heap of a level: the keys that it kept, and whether it dropped one.
fn heap_of(alloc: Global, levels: &Levels, level: u8) -> Result<Heap, Memory>
    requires known { level ≤ levels.now.setting.levels }
    ensures list { IfOk result (λ heap. (items : List Fed) → Holds levels.now items
        → heap ≡ level_heap levels.now.setting items level) }
    ensures within { IfOk result (λ heap. (items : List Fed) → Holds levels.now items
        → IsHeap levels.now.setting.heap heap) }
{
    let keys = levels.keys(alloc, level)?;
    check_keys(&keys);
    Ok(Heap {
        dropped: levels.dropped(level),
        keys: Items::from_vec(keys),
    })
}

// Each key is valid, as its type says.
fn check_keys(keys: &[FlowKey])
    ensures { All IsKey keys.now }
{
    for key in keys {
        let _ = key.words();
    }
}
