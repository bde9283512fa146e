//! The replays by children.
ghost use Rattle.std.specs.Prelude.{◌≡◌, ◌^◌, ◌<◌, ◌≤◌, ℕ, false, All, IfOk};
ghost use Rattle.count_sketch.specs.Counters.{AllUpTo};
ghost use Rattle.replay_jobs.specs.ReplayJobs.{replay_state};
ghost use Rattle.replay_jobs.specs.Replays.{IsReplayWork};
ghost use Rattle.replay_phase.specs.Merged.{merged_of};
ghost use Rattle.replay_phase.specs.Phase.{Replaying, Replays};
ghost use Rattle.replay_places.specs.Epochs.{key_limit};
ghost use Rattle.sketch_merge.specs.Merged.{HaveUpTo};

use crew::Spawner;
use replay_jobs::ReplayJobs;
use replay_supervisor::{Stop, supervise};
use sketch_merge::Merged;
use std::alloc::Global;

/// Has children of the crew replay all jobs, of which none has taken a reply, until each has its first good one, and gives
/// what these were merged to, one value an epoch. At most `window` (1 to 32) children are out together, and a job may have
/// up to `restarts` (0 to 16) bad attempts. The crew has no ticket out, also on every return, and has issued fewer than
/// 2^31. It may wait for children. Takes memory.
pub fn replay<S: Spawner>(
    alloc: Global,
    crew: &mut S,
    jobs: ReplayJobs,
    window: u32,
    restarts: u32,
) -> Result<Vec<Merged>, Stop>
    requires jobs_some { 1 ≤ (replay_state jobs).work.count }
    requires jobs_few { (replay_state jobs).work.count ≤ 256 }
    requires fresh { (job : ℕ) → (replay_state jobs).has_taken job ≡ false }
    requires window_some { 1 ≤ window }
    requires window_few { window ≤ 32 }
    requires restarts { restarts ≤ 16 }
    requires issued { (S.state crew.old).issued < 2 ^ 31 }
    requires none_out { (t : ℕ) → (S.state crew.old).is_out t ≡ false }
    ensures replayed { (r : Replaying) → r.window ≡ window → r.restarts ≡ restarts
        → IsReplayWork r.setting r.epochs r.switches r.placement r.routed (replay_state jobs).work
        → Replays r (S.state crew.old) (S.state crew.new) (merged_of result) }
    ensures small { IfOk result (λ merged. All (λ view. All (AllUpTo view.weight) view.counters) merged.items) }
    ensures light { IfOk result (λ merged. All (λ view. view.weight ≤ 2 ^ 44) merged.items) }
    ensures few { IfOk result (λ merged. All (λ view. HaveUpTo key_limit view.keys) merged.items) }
{
    let mut jobs = jobs;
    match supervise(alloc, crew, &mut jobs, window, restarts) {
        Ok(()) => Ok(jobs.merged()),
        Err(stop) => Err(stop),
    }
}
