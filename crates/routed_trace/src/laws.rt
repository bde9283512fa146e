//! What is said of the bytes of a trace.
ghost use Rattle.std.specs.Prelude.{◌≡◌, ℕ, List};
ghost use Rattle.routed_trace.specs.Scan.{HasDividedTrace, HasTraceFault};
ghost use Rattle.routed_trace.specs.declared.division.Division.{Division};
ghost use Rattle.routed_trace.specs.declared.fault.TraceFault.{TraceFault};

/// Bytes that are a trace without a late or a heavy record have no fault, and other bytes have no two.
pub fn one_ending()
    ensures not_both { (division : Division) (bytes : List ℕ) (fault : TraceFault) →
        HasDividedTrace division bytes → HasTraceFault division bytes fault → ⊥ }
    ensures one_fault { (division : Division) (bytes : List ℕ) (fault other : TraceFault) →
        HasTraceFault division bytes fault → HasTraceFault division bytes other → other ≡ fault }
{}
