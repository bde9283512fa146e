//! What honest children give.
ghost use Rattle.std.specs.Prelude.{◌≡◌, ◌<◌, ℕ, List, sum_by};
ghost use Rattle.std.specs.List.{range_with_len};
ghost use Rattle.flow_keys.specs.declared.routed.Routed.{Routed};
ghost use Rattle.hash_family.specs.Setting.{Setting};
ghost use Rattle.job_format.specs.Job as jobs;
ghost use Rattle.routed_trace.specs.Routed.{items_in};
ghost use Rattle.sketch_levels.specs.Items.{weight_of};
ghost use Rattle.sketch_merge.specs.Merged.{View};
ghost use Rattle.sketch_merge.specs.Merging.{merged_view};
ghost use Rattle.path_shares.specs.Honest.{IsUnited, IsWhole, honest_replies};
ghost use Rattle.path_shares.specs.Shares.{AreOn, share};

/// The replies of honest children to the jobs of an epoch are merged to one sketch of its packets, with the keys and
/// the marks of the shares. No code.
pub fn honest_replies_unite()
    ensures united { (setting : Setting) (switches : ℕ) (placement : List ℕ) (routed : List Routed) (epoch : ℕ)
        → AreOn switches placement routed
        → IsUnited setting switches placement routed epoch
        (merged_view setting (weight_of (items_in epoch routed))
        (honest_replies setting switches placement routed epoch)) }
{}

/// Where no heap dropped a key, the lines of an epoch and of a change are those of a sketch with every live key. No
/// code.
pub fn honest_epochs()
    ensures whole { (setting : Setting) (switches : ℕ) (placement : List ℕ) (routed : List Routed) (epochs : ℕ)
        (view : ℕ → View) → AreOn switches placement routed
        → ((epoch : ℕ) → epoch < epochs → (view epoch).setting ≡ setting)
        → ((epoch : ℕ) → epoch < epochs → IsUnited setting switches placement routed epoch (view epoch))
        → IsWhole setting routed epochs view }
{}

/// The weights of the shares of an epoch are together that of its packets. No code.
pub fn shares_weigh()
    ensures weight { (switches : ℕ) (placement : List ℕ) (routed : List Routed) (epoch : ℕ)
        → AreOn switches placement routed
        → sum_by (λ switch. jobs.weight_of (share placement epoch switch routed)) (range_with_len 0 switches)
        ≡ weight_of (items_in epoch routed) }
{}
