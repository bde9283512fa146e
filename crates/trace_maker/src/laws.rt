//! What holds of every made trace.
ghost use Rattle.std.specs.Prelude.{◌≡◌, ◌+◌, ◌*◌, ℕ, length};
ghost use Rattle.trace_maker.specs.Trace.{generated_trace};

/// A made trace has 24 bytes, and 58 for each packet.
pub fn one_size()
    ensures size { (seed packets flows : ℕ) → length (generated_trace seed packets flows) ≡ 24 + 58 * packets }
{}
