//! What the text depends on.
ghost use Rattle.std.specs.Prelude.{◌≡◌, ◌<◌, ℕ, ℤ, Bool, List};
ghost use Rattle.hash_family.specs.Setting.{Setting};
ghost use Rattle.topology.specs.Topology.{Topo};
ghost use Rattle.sketch_merge.specs.Merged.{View};
ghost use Rattle.change_report.specs.Form.{Form};
ghost use Rattle.measure_report.specs.Report.{report_text};

/// Where the packets and the sketches of each epoch are the same below the number of epochs, so is the text. No code.
pub fn one_report()
    ensures same { (form : Form) (topo : Topo) (setting : Setting) (bytes : Bool)
        (heavy packets keyed routed epochs : ℕ) (packets_in others_in : ℕ → ℕ) (placement : List ℕ) (bound : ℤ)
        (view other : ℕ → View)
        → ((epoch : ℕ) → epoch < epochs → packets_in epoch ≡ others_in epoch)
        → ((epoch : ℕ) → epoch < epochs → view epoch ≡ other epoch)
        → report_text form topo setting bytes heavy packets keyed routed epochs packets_in placement bound view
        ≡ report_text form topo setting bytes heavy packets keyed routed epochs others_in placement bound other }
{}
