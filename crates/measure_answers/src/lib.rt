//! What a measure answers: each status with its cause. No code.
//!
//! `specs/Measure.antt` says each status with its cause, `specs/Replayed.antt` what the children have given,
//! `specs/Text.antt` the text, and `specs/Reported.antt` how the shares of a placement were replayed and reported.
#![tactic(auto)]

ghost use Rattle.std.specs.Prelude.{◌≡◌, ◌<◌, ℕ, List};
ghost use Rattle.crew.specs.Log.{Entry};
ghost use Rattle.path_shares.specs.Shares.{AreOn};
ghost use Rattle.replay_phase.specs.Phase.{Gathers, Replaying};
ghost use Rattle.replay_places.specs.Epochs.{view_at};
ghost use Rattle.routed_trace.specs.Routed.{items_in};
ghost use Rattle.sketch_levels.specs.Items.{weight_of};
ghost use Rattle.sketch_merge.specs.Merged.{View};

/// What was merged for an epoch weighs what its packets weigh, whether the children are honest or not.
pub fn merged_weights()
    ensures weighed { (r : Replaying) (first : ℕ) (replay : List Entry) (merged : List View)
        → AreOn r.switches r.placement r.routed → Gathers r first replay merged → (epoch : ℕ) → epoch < r.epochs
        → (view_at merged epoch).weight ≡ weight_of (items_in epoch r.routed) }
{}
