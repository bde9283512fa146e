//! What a finished measure tells where its children are honest.
ghost use Rattle.std.specs.Prelude.{◌≡◌, ◌-◌, ◌<◌, ℕ, false, List, [], length, Some};
ghost use Rattle.change_report.specs.Block.{block_text, level_lines};
ghost use Rattle.change_report.specs.Form.{Form, Whole, change_block, epoch_block};
ghost use Rattle.flow_keys.specs.declared.routed.Routed.{Routed};
ghost use Rattle.honest_logs.specs.Honest.{IsHonest};
ghost use Rattle.measure_answers.specs.Replayed.{Contents, HasReplies, IsMeasured};
ghost use Rattle.measure_answers.specs.Text.{epochs_of, measure_text, sketch_setting};
ghost use Rattle.measure_laws.specs.Central.{IsWithout, all_kept, central_at, epoch_items};
ghost use Rattle.mon_call.specs.CrewCall.{CrewCall};
ghost use Rattle.mon_call.specs.declared.setting.Setting.{Setting};
ghost use Rattle.mon_central.specs.Central.{block_of, central_view, change_of, level_counts};
ghost use Rattle.path_shares.specs.Honest.{whole_view};
ghost use Rattle.replay_places.specs.Epochs.{view_at};
ghost use Rattle.routed_trace.specs.Routed.{items_in};
ghost use Rattle.solve_phase.specs.declared.solving.Solving.{Solving};

/// Two finished measures of one told input, with the same numbers and the same accepted outcome, have one text, where the
/// children whose replies were accepted are honest. The calls may differ in all else: in the tickets and the order of the
/// log, in who failed, was restarted or repeated an answer, and in the numbers of the search and of its children.
pub fn equal_texts()
    ensures same { (form : Form) (contents : Contents) (setting : Setting) (topology trace : List ℕ)
        → contents.topology ≡ Some topology → contents.trace ≡ Some trace
        → (solving more_solving : Solving) (c other : CrewCall) (text more : List ℕ)
        → (m : IsMeasured contents setting solving c form text)
        → (n : IsMeasured contents setting more_solving other form more)
        → m.has.placed.placement ≡ n.has.placed.placement → m.has.placed.tree ≡ n.has.placed.tree
        → IsHonest m.has.gathers.plan m.has.replay → IsHonest n.has.gathers.plan n.has.replay → text ≡ more }
{}

/// The sketch of an epoch with every live key is the one that `central` keeps with a heap of 0. So its lines are those of
/// `central`, but for the lines of the levels, and so are those of the change to it.
pub fn central_blocks()
    ensures view { (setting : Setting) (routed : List Routed) (epoch : ℕ)
        → whole_view (sketch_setting setting) routed epoch ≡ central_view (all_kept setting) (items_in epoch routed) }
    ensures block { (setting : Setting) (routed : List Routed) (epoch : ℕ) →
        let items = items_in epoch routed in
        epoch_block Whole setting.seed setting.heavy epoch (length items)
        (whole_view (sketch_setting setting) routed epoch)
        ≡ block_text setting.seed epoch (length items) (central_view (all_kept setting) items) [] setting.heavy }
    ensures without_levels { (setting : Setting) (routed : List Routed) (epoch : ℕ) →
        let items = items_in epoch routed in
        IsWithout (block_of (all_kept setting) epoch items) (level_lines 0 (level_counts (all_kept setting) items))
        (epoch_block Whole setting.seed setting.heavy epoch (length items)
        (whole_view (sketch_setting setting) routed epoch)) }
    ensures change { (setting : Setting) (routed : List Routed) (epoch : ℕ)
        → change_block Whole setting.seed setting.heavy epoch (whole_view (sketch_setting setting) routed (epoch - 1))
        (whole_view (sketch_setting setting) routed epoch)
        ≡ change_of (all_kept setting) epoch (items_in (epoch - 1) routed) (items_in epoch routed) }
{}

/// Where the children are honest and no heap of an epoch dropped a key, the lines of the epoch are those that `central`
/// writes with a heap of 0 and that topology, but for those of the levels. So are the lines of a change where none dropped
/// a key in either epoch; and where none did in any epoch, the text is that of the sketches of `central`.
pub fn as_central()
    ensures block { (contents : Contents) (setting : Setting) (solving : Solving) (c : CrewCall)
        (has : HasReplies contents setting solving c) → IsHonest has.gathers.plan has.replay →
        let placed = has.placed in
        let items = epoch_items setting placed.topo placed.traced.header placed.traced.members in
        (epoch : ℕ) → epoch < epochs_of setting placed.traced.header placed.traced.members
        → (view_at has.merged epoch).dropped ≡ false
        → IsWithout (block_of (all_kept setting) epoch (items epoch))
        (level_lines 0 (level_counts (all_kept setting) (items epoch)))
        (epoch_block Whole setting.seed setting.heavy epoch (length (items epoch)) (view_at has.merged epoch)) }
    ensures change { (contents : Contents) (setting : Setting) (solving : Solving) (c : CrewCall)
        (has : HasReplies contents setting solving c) → IsHonest has.gathers.plan has.replay →
        let placed = has.placed in
        let items = epoch_items setting placed.topo placed.traced.header placed.traced.members in
        (epoch : ℕ) → 0 < epoch → epoch < epochs_of setting placed.traced.header placed.traced.members
        → (view_at has.merged (epoch - 1)).dropped ≡ false → (view_at has.merged epoch).dropped ≡ false
        → change_block Whole setting.seed setting.heavy epoch (view_at has.merged (epoch - 1))
        (view_at has.merged epoch) ≡ change_of (all_kept setting) epoch (items (epoch - 1)) (items epoch) }
    ensures text { (form : Form) (contents : Contents) (setting : Setting) (solving : Solving) (c : CrewCall)
        (text : List ℕ) (m : IsMeasured contents setting solving c form text)
        → IsHonest m.has.gathers.plan m.has.replay →
        let placed = m.has.placed in
        ((epoch : ℕ) → epoch < epochs_of setting placed.traced.header placed.traced.members
        → (view_at m.has.merged epoch).dropped ≡ false)
        → text ≡ measure_text form setting placed.topo placed.traced.header placed.traced.members
        placed.placement.sites m.bound (central_at setting placed.topo placed.traced.header placed.traced.members) }
{}
