//! The shares of all epochs and switches.
ghost use Rattle.std.specs.Prelude.{◌≡◌, ◌≤◌, ◌<◌, ◌*◌, ◌/◌, ◌%◌, ◌^◌, [], ℕ, List, All, IfOk, length, map};
ghost use Rattle.hash_family.specs.Setting.{setting_of};
ghost use Rattle.path_shares.specs.Shares.{AreOn, share_job};
ghost use Rattle.routed_trace.specs.Routed.{weight_of_routed};
ghost use Rattle.share_jobs.specs.Share.{share_of};
ghost use Rattle.count_sketch.specs.Counters.{AllUpTo};
ghost use Rattle.sketch_merge.specs.Merged.{HaveUpTo};
ghost use Rattle.sketch_merge.specs.Merging.{merged_view};
ghost use Rattle.replay_places.specs.Epochs.{share_at};
ghost use Rattle.replay_jobs.specs.Grouped.{IsShareOf, job_number};

use crate::share::{items_of, job_numbers};
use flow_keys::Routed;
use hash_family::Params;
use mon_io::Memory;
use share_jobs::ShareJob;
use sketch_merge::Merged;
use std::alloc::Global;

/// The shares of 1 to 8 epochs and 1 to 32 switches, one epoch behind the other. It takes memory.
pub(crate) fn all_shares(
    alloc: Global,
    params: &Params,
    epochs: u8,
    switches: u8,
    placement: &[u8],
    routed: &[Routed],
) -> Result<Vec<ShareJob>, Memory>
    requires epochs_few { epochs ≤ 8 }
    requires switches_some { 1 ≤ switches }
    requires switches_few { switches ≤ 32 }
    requires paths { All (λ packet. packet.path < length placement.now) routed.now }
    requires placed { AreOn switches placement.now routed.now }
    requires few { length routed.now ≤ 1048576 }
    requires light { weight_of_routed routed.now ≤ 2 ^ 44 }
    ensures number { IfOk result (λ shares. length shares.items ≡ epochs * switches) }
    ensures each { IfOk result (λ shares. (job : ℕ) → job < epochs * switches
        → IsShareOf (share_job (setting_of params.now) switches placement.now routed.now (job / switches) (job % switches))
        (share_at (map share_of shares.items) job)) }
{
    let numbers = job_numbers(alloc, switches, placement, routed)?;
    let mut shares = Vec::new(alloc);
    for number in 0..u16::from(epochs) * u16::from(switches) {
        let share = share_numbered(alloc, params, number, &numbers, routed)?;
        if shares.push(share).is_err() {
            return Err(Memory);
        }
    }
    Ok(shares)
}

// The share of a job's number.
fn share_numbered(
    alloc: Global,
    params: &Params,
    number: u16,
    numbers: &[u16],
    routed: &[Routed],
) -> Result<ShareJob, Memory>
    requires few { length routed.now ≤ 1048576 }
    requires light { weight_of_routed routed.now ≤ 2 ^ 44 }
    requires numbered { (switches : ℕ) × (placement : List ℕ)
        × (numbers.now ≡ map (job_number switches placement) routed.now) }
    ensures share { IfOk result (λ share. (switches : ℕ) (placement : List ℕ) → 1 ≤ switches
        → AreOn switches placement routed.now → numbers.now ≡ map (job_number switches placement) routed.now
        → IsShareOf
        (share_job (setting_of params.now) switches placement routed.now (number / switches) (number % switches))
        (share_of share)) }
{
    let items = items_of(alloc, numbers, routed, number)?;
    ShareJob::new(alloc, u32::from(number), params, &items)
}

/// As many values of nothing merged as there are epochs. It takes memory.
pub(crate) fn all_merged(alloc: Global, params: Params, epochs: u8) -> Result<Vec<Merged>, Memory>
    ensures number { IfOk result (λ merged. length merged.items ≡ epochs) }
    ensures each { IfOk result (λ merged. All (λ view. view ≡ merged_view (setting_of params) 0 []) merged.items) }
    ensures small { IfOk result (λ merged. All (λ view. All (AllUpTo view.weight) view.counters) merged.items) }
    ensures few { IfOk result (λ merged. All (λ view. HaveUpTo 0 view.keys) merged.items) }
{
    let mut merged = Vec::new(alloc);
    for _ in 0..epochs {
        let none = Merged::new(alloc, params)?;
        if merged.push(none).is_err() {
            return Err(Memory);
        }
    }
    Ok(merged)
}
