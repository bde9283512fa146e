//! The replay jobs of a placement.
ghost use Rattle.std.specs.Prelude.{◌≡◌, ◌*◌, ◌<◌, ◌≤◌, ◌^◌, ℕ, List, false, All, IfOk, length, map};
ghost use Rattle.flow_keys.specs.declared.routed.Routed.{Routed as AnyRouted};
ghost use Rattle.hash_family.specs.Setting.{Setting, setting_of};
ghost use Rattle.count_sketch.specs.Counters.{AllUpTo};
ghost use Rattle.path_shares.specs.Shares.{AreOn};
ghost use Rattle.replay_places.specs.Epochs.{AreEpochs, key_limit};
ghost use Rattle.replay_jobs.specs.Replays.{AreGathered, IsReplayWork};
ghost use Rattle.replay_supervisor.specs.Jobs.{Places};
ghost use Rattle.routed_trace.specs.Routed.{weight_of_routed};
ghost use Rattle.share_jobs.specs.Share.{share_of};
ghost use Rattle.sketch_merge.specs.Merged.{HaveUpTo};

use crate::grouping::{all_merged, all_shares};
use crate::taking::take_share;
use bound_certificate::Placement;
use flow_keys::Routed;
use hash_family::Params;
use mon_io::Memory;
use replay_supervisor::Jobs;
use share_jobs::ShareJob;
use sketch_merge::Merged;
use std::alloc::Global;

/// The replay jobs of a placement, one for each epoch and switch, numbered by epoch and then by switch. Each takes one
/// reply with the sketch of the switch's share, which is merged with the others of its epoch.
#[derive(Drop)]
pub struct ReplayJobs {
    alloc: Global,
    params: Params,
    switches: u8,
    shares: Vec<ShareJob>,
    merged: Vec<Merged>,
    pub ghost fit: { AreEpochs (setting_of params) switches (map share_of shares.items) merged.items },
}

impl ReplayJobs {
    ghost use Rattle.replay_jobs.specs.ReplayJobs.{replay_state, replay_stands};

    /// The jobs of 1 to 8 epochs and 1 to 32 switches, of which none has taken a reply. The placement gives the path of
    /// each of at most 1,048,576 packets to one of the switches; the packets weigh at most 2^44 together. It takes
    /// memory, 48 bytes a packet, and doesn't keep the packets.
    pub fn new(
        alloc: Global,
        params: Params,
        epochs: u8,
        switches: u8,
        placement: &Placement,
        routed: &[Routed],
    ) -> Result<ReplayJobs, Memory>
        requires epochs_some { 1 ≤ epochs }
        requires epochs_few { epochs ≤ 8 }
        requires switches_some { 1 ≤ switches }
        requires switches_few { switches ≤ 32 }
        requires paths { All (λ packet. packet.path < length placement.now.sites) routed.now }
        requires placed { AreOn switches placement.now.sites routed.now }
        requires few { length routed.now ≤ 1048576 }
        requires light { weight_of_routed routed.now ≤ 2 ^ 44 }
        ensures work { IfOk result (λ jobs. IsReplayWork (setting_of params) epochs switches placement.now.sites
            routed.now (replay_state jobs).work) }
        ensures fresh { IfOk result (λ jobs. (job : ℕ) → (replay_state jobs).has_taken job ≡ false) }
    {
        let merged = all_merged(alloc, params, epochs)?;
        let placement = placement.sites.as_slice();
        let shares = all_shares(alloc, &params, epochs, switches, placement, routed)?;
        Ok(ReplayJobs {
            alloc,
            params,
            switches,
            shares,
            merged,
        })
    }

    /// What the replies were merged to, one value an epoch. It takes no memory.
    pub fn merged(self) -> Vec<Merged>
        // Of any placement and packets of whose shares these are the jobs, and any places that the jobs stand for.
        ensures gathered { (setting : Setting) (epochs switches : ℕ) (placement : List ℕ) (routed : List AnyRouted)
            (places : Places) → IsReplayWork setting epochs switches placement routed (replay_state self).work
            → replay_stands self places
            → AreGathered setting epochs switches placement routed places result.items }
        ensures small { All (λ view. All (AllUpTo view.weight) view.counters) result.items }
        ensures light { All (λ view. view.weight ≤ 2 ^ 44) result.items }
        ensures few { All (λ view. HaveUpTo key_limit view.keys) result.items }
    {
        self.merged
    }
}

impl Jobs for ReplayJobs {
    ghost use Rattle.replay_jobs.specs.ReplayJobs.{replay_state, replay_stands};
    ghost use Rattle.replay_jobs.specs.ReplayLaws.{replay_starts, replay_few};

    ghost state = { replay_state };

    ghost stands = { replay_stands };

    ghost starts = { λ s fresh. replay_starts s fresh };

    ghost few = { λ s job. replay_few s job };

    fn count(&self) -> u32 {
        self.shares.len() as u32
    }

    fn piece(&mut self, job: u32, index: u32) -> Option<&[u8]> {
        self.shares[job as usize].piece(index)
    }

    fn take(&mut self, job: u32, bytes: &[u8]) -> Result<bool, Memory> {
        take_share(
            self.alloc,
            self.switches,
            &mut self.shares,
            &mut self.merged,
            job,
            bytes,
        )
    }
}
