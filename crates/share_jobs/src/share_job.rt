//! The job of a share.
ghost use Rattle.std.specs.Prelude.{◌≡◌, ◌<◌, ◌≤◌, ◌^◌, All, IfOk, IfSome, Some, false, is_some, length, map, option_map, slice_get};
ghost use Rattle.hash_family.specs.Setting.{setting_of};
ghost use Rattle.job_format.specs.Job.{IsItem, IsSetting, SpellsReplay, item_limit, weight_limit, weight_of};
ghost use Rattle.reply_format.specs.Reply.{head_of, reply_of};
ghost use Rattle.share_jobs.specs.Heads.{head_spelled, joined};
ghost use Rattle.share_jobs.specs.Reading.{IsReplyOf, is_good};
ghost use Rattle.share_jobs.specs.Pieces.{HasPieces};

use crate::judge::reply_to;
use crate::pieces::pieces_of;
use hash_family::Params;
use job_format::Item;
use mon_io::Memory;
use reply_format::Reply;
use std::alloc::Global;

/// The replay job of a share: the pieces that are fed to a child, its number, how many items it has, what they weigh
/// together, and whether a reply was taken.
#[derive(Drop)]
pub struct ShareJob {
    params: Params,
    number: u32,
    items: u32,
    weight: u64,
    pieces: Vec<Vec<u8>>,
    is_taken: bool,
    pub ghost few: { length pieces.items < 2 ^ 32 },
    pub ghost spelled: { head_spelled (joined (map (λ piece. piece.items) pieces.items))
        ≡ Some (head_of number (setting_of params) items weight) },
}

impl ShareJob {
    ghost use Rattle.share_jobs.specs.Share.{share_of, with_taken};

    /// The job of this number with these items, for which no reply was taken. It takes memory.
    pub fn new(
        alloc: Global,
        number: u32,
        params: &Params,
        items: &[Item],
    ) -> Result<ShareJob, Memory>
        requires few { length items.now ≤ item_limit }
        requires light { weight_of items.now ≤ weight_limit }
        ensures head { IfOk result (λ job. (share_of job).head
            ≡ head_of number (setting_of params.now) (length items.now) (weight_of items.now)) }
        ensures pieces { IfOk result (λ job. HasPieces number (setting_of params.now) items.now (share_of job).pieces) }
        ensures spells { IfOk result (λ job. SpellsReplay
            (record { number = number; setting = setting_of params.now; items = items.now })
            (joined (share_of job).pieces)) }
        ensures taken { IfOk result (λ job. (share_of job).taken ≡ false) }
    {
        check_setting(params);
        check_items(items);
        let weight = weight_of(items);
        let pieces = pieces_of(alloc, number, params, items)?;
        Ok(ShareJob {
            params: *params,
            number,
            items: items.len() as u32,
            weight,
            pieces,
            is_taken: false,
        })
    }

    /// How many pieces there are, and a piece by its index; None exactly past the last one.
    pub fn piece(&self, index: u32) -> Option<&[u8]>
        ensures piece { option_map (λ piece. piece.now) result ≡ slice_get (share_of self.now).pieces index }
    {
        match self.pieces.get(index as usize) {
            Some(piece) => Some(piece.as_slice()),
            None => None,
        }
    }

    /// The reply that bytes spell to this job; None exactly where they spell none. It takes memory.
    pub fn reply(&self, alloc: Global, bytes: &[u8]) -> Result<Option<Reply>, Memory>
        ensures good { IfOk result (λ found. is_some found ≡ is_good (share_of self.now).head bytes.now) }
        ensures spelled { IfOk result (λ found. IfSome found (λ reply.
            IsReplyOf (share_of self.now).head (reply_of reply) bytes.now)) }
    {
        reply_to(
            alloc,
            self.number,
            self.params,
            self.items,
            self.weight,
            bytes,
        )
    }

    /// A reply was taken.
    pub fn set_taken(&mut self)
        ensures taken { share_of self.new ≡ with_taken (share_of self.old) }
    {
        self.is_taken = true;
    }
}

// The numbers of a sketch fit into their fields, as their types say.
fn check_setting(params: &Params)
    ensures { IsSetting (setting_of params.now) }
{
    let _seed = params.seed;
}

// Each item is within its limits, as its type says.
fn check_items(items: &[Item])
    ensures { All IsItem items.now }
{
    for item in items {
        check_item(item);
    }
}

fn check_item(item: &Item)
    ensures { IsItem item.now }
{
    let (_key, _weight) = (item.key.words(), item.weight);
}

// What items weigh together.
fn weight_of(items: &[Item]) -> u64
    requires light { weight_of items.now ≤ weight_limit }
    ensures weight { result ≡ weight_of items.now }
{
    let mut sum = 0;
    for item in items {
        sum += u64::from(item.weight);
    }
    sum
}
