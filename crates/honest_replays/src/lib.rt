//! What the replays of a placement give where the children are honest: in each epoch one sketch of its packets, with the
//! keys that the switches' shares keep. No code.
#![tactic(auto)]

ghost use Rattle.std.specs.Prelude.{ℕ, ◌<◌, List};
ghost use Rattle.crew.specs.Log.{Entry};
ghost use Rattle.honest_logs.specs.Honest.{IsHonest};
ghost use Rattle.path_shares.specs.Honest.{IsUnited, IsWhole};
ghost use Rattle.path_shares.specs.Shares.{AreOn};
ghost use Rattle.replay_phase.specs.Phase.{Gathers, Replaying};
ghost use Rattle.replay_places.specs.Epochs.{view_at};
ghost use Rattle.sketch_merge.specs.Merged.{View};

/// Where the children whose replies were accepted are honest, what was merged for an epoch has the counters of one sketch
/// that is fed each of its packets once, and the keys and the mark of the shares. Where no heap dropped a key, the lines of
/// an epoch are those of a sketch with every live key, and so are those of a change where none did in either epoch.
pub fn honest_replays()
    ensures united { (r : Replaying) (first : ℕ) (replay : List Entry) (merged : List View)
        → AreOn r.switches r.placement r.routed → (g : Gathers r first replay merged) → IsHonest g.plan replay
        → (epoch : ℕ) → epoch < r.epochs
        → IsUnited r.setting r.switches r.placement r.routed epoch (view_at merged epoch) }
    ensures whole { (r : Replaying) (first : ℕ) (replay : List Entry) (merged : List View)
        → AreOn r.switches r.placement r.routed → (g : Gathers r first replay merged) → IsHonest g.plan replay
        → IsWhole r.setting r.routed r.epochs (view_at merged) }
{}
