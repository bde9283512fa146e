//! What taking a reply does to the list that jobs stand for.
ghost use Rattle.std.specs.Prelude.{◌≡◌, ◌+◌, ◌*◌, ◌<◌, ℕ, List, Some, false, length, slice_set};
ghost use Rattle.hash_family.specs.Setting.{Setting};
ghost use Rattle.replay_supervisor.specs.Jobs.{Places};
ghost use Rattle.share_jobs.specs.Share.{Share};
ghost use Rattle.sketch_merge.specs.Merged.{View};
ghost use Rattle.replay_places.specs.Epochs.{StandsFor, TookShare, share_at};

/// Where a share that has taken no reply takes one, and it is merged for its epoch, what the shares stood for they stand
/// for with these bytes at the job's place. No code.
pub fn taken_places()
    ensures stands { (setting : Setting) (switches epoch switch : ℕ) (bytes : List ℕ) (old new : List Share)
        (merged after : List View) (places : Places) → switch < switches
        → epoch * switches + switch < length old → epoch < length merged → length old ≡ length merged * switches
        → (share_at old (epoch * switches + switch)).taken ≡ false
        → (share_at old (epoch * switches + switch)).head.setting ≡ setting
        → TookShare epoch (epoch * switches + switch) bytes old new merged after
        → StandsFor setting switches old merged places
        → StandsFor setting switches new after (slice_set places (epoch * switches + switch) (Some bytes)) }
{}
