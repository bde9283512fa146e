//! A reply taken for a share.
ghost use Rattle.std.specs.Prelude.{◌≡◌, ◌<◌, ◌/◌, false, length, map};
ghost use Rattle.hash_family.specs.Setting.{Setting};
ghost use Rattle.share_jobs.specs.Share.{share_of};
ghost use Rattle.replay_places.specs.Epochs.{AreEpochs, Takes, share_at};

use mon_io::Memory;
use share_jobs::ShareJob;
use sketch_merge::Merged;
use std::alloc::Global;

/// Takes bytes for the share of a job's number, for which no reply was taken: true exactly where they spell a reply to
/// it, which is merged for its epoch then. Nothing changes where they spell none, or where memory is refused. It takes
/// memory.
pub(crate) fn take_share(
    alloc: Global,
    switches: u8,
    shares: &mut [ShareJob],
    merged: &mut [Merged],
    job: u32,
    bytes: &[u8],
) -> Result<bool, Memory>
    requires known { job < length shares.old }
    requires free { (share_at (map share_of shares.old) job).taken ≡ false }
    requires fit { (setting : Setting) × AreEpochs setting switches (map share_of shares.old) merged.old }
    ensures took { Takes (job / switches) job bytes.now (map share_of shares.old) (map share_of shares.new)
        merged.old merged.new result }
    ensures fit { (setting : Setting) → AreEpochs setting switches (map share_of shares.old) merged.old
        → AreEpochs setting switches (map share_of shares.new) merged.new }
{
    let number = job as usize;
    let Some(reply) = shares[number].reply(alloc, bytes)? else {
        return Ok(false);
    };
    merged[number / usize::from(switches)].take(alloc, &reply)?;
    shares[number].set_taken();
    Ok(true)
}
