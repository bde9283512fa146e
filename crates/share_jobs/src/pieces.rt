//! The pieces of a replay job.
ghost use Rattle.std.specs.Prelude.{◌≡◌, ◌+◌, ◌≤◌, [], ◌∷◌, ◌++◌, IfOk, OnOk, OnErr, List, length, map};
ghost use Rattle.hash_family.specs.Setting.{setting_of};
ghost use Rattle.job_format.specs.Job.{AreFrames, frame_bytes, frame_limit, item_limit, replay_head};
ghost use Rattle.job_format.specs.declared.item.Item.{Item as AnItem};
ghost use Rattle.share_jobs.specs.Pieces.{HasPieces};

use child_jobs::{write_frame, write_head};
use hash_family::Params;
use job_format::Item;
use mon_io::Memory;
use std::alloc::Global;

// The most items of a frame.
const FRAME: usize = 4096;

// How many bytes a frame's count and an item take.
const COUNT: usize = 2;

const ITEM: usize = 48;

/// The pieces of the replay job of this number: its head, each frame of the items, and the closing count. It takes
/// memory.
pub(crate) fn pieces_of(
    alloc: Global,
    number: u32,
    params: &Params,
    items: &[Item],
) -> Result<Vec<Vec<u8>>, Memory>
    requires few { length items.now ≤ item_limit }
    ensures pieces { IfOk result (λ pieces. HasPieces number (setting_of params.now) items.now
        (map (λ piece. piece.items) pieces.items)) }
    ensures few { IfOk result (λ pieces. length pieces.items ≤ length items.now + 2) }
{
    let mut pieces = Vec::new(alloc);
    let head = head_piece(alloc, number, params)?;
    if pieces.push(head).is_err() {
        return Err(Memory);
    }
    add_frames(alloc, items, &mut pieces)?;
    let last = frame_piece(alloc, &[])?;
    if pieces.push(last).is_err() {
        return Err(Memory);
    }
    Ok(pieces)
}

// Adds a piece for each frame: frames of 4,096 items, and one of the rest.
fn add_frames(alloc: Global, items: &[Item], pieces: &mut Vec<Vec<u8>>) -> Result<(), Memory>
    ensures added { OnOk result ((frames : List (List AnItem)) × AreFrames frames items.now
        × (map (λ piece. piece.items) pieces.new.items
        ≡ map (λ piece. piece.items) pieces.old.items ++ map frame_bytes frames)) }
    ensures few { length pieces.new.items ≤ length pieces.old.items + length items.now }
{
    let mut done = 0;
    while done < items.len() {
        let end = items.len().min(done + FRAME);
        let piece = frame_piece(alloc, &items[done..end])?;
        if pieces.push(piece).is_err() {
            return Err(Memory);
        }
        done = end;
    }
    Ok(())
}

fn head_piece(alloc: Global, number: u32, params: &Params) -> Result<Vec<u8>, Memory>
    ensures { IfOk result (λ piece. piece.items ≡ replay_head number (setting_of params.now)) }
{
    let mut piece = Vec::new(alloc);
    write_head(number, params, &mut piece)?;
    Ok(piece)
}

fn frame_piece(alloc: Global, items: &[Item]) -> Result<Vec<u8>, Memory>
    requires { length items.now ≤ frame_limit }
    ensures { IfOk result (λ piece. piece.items ≡ frame_bytes items.now) }
{
    let Ok(mut piece) = Vec::with_capacity(alloc, COUNT + ITEM * items.len()) else {
        return Err(Memory);
    };
    write_frame(items, &mut piece)?;
    Ok(piece)
}
