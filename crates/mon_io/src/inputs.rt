//! Named inputs, of which one at a time is read from its front.
ghost use Rattle.std.specs.Prelude.{◌≡◌, ℕ, List, [], ◌∷◌, OnOk, OnErr, is_some};
ghost use Rattle.std.specs.Io.{ReadsAtMost};
ghost use Rattle.mon_io.specs.Faults.{HasCause};
ghost use Rattle.mon_io.specs.Inputs.{InputState, Picked, PickedNothing, Reads};

use crate::Fault;

/// Inputs by name. The name `-` is standard input.
pub trait Inputs {
    /// The contents by name, the rest of the picked input, and the count of faults.
    ghost state: { Self → InputState };
    /// The lists of names that stand for what was picked so far, in order.
    ghost picks: { Self → List (List ℕ) → Type 0 };

    /// Makes the rest that of the named input, from its front. A `Fault` leaves the rest as it was.
    /// Whether the rest is told never changes. The name counts as picked, also where it is a `Fault`.
    fn pick(&mut self, name: &str) -> Result<(), Fault>
        ensures picked { OnOk result ((state self.new).rest ≡ (state self.old).contents name.now) }
        ensures kept { OnErr result ((state self.new).rest ≡ (state self.old).rest) }
        ensures told { is_some (state self.new).rest ≡ is_some (state self.old).rest }
        ensures stays { (state self.new).contents ≡ (state self.old).contents }
        ensures picks { Picked (picks self.old) (picks self.new) (name.now ∷ []) }
        ensures cause { HasCause (state self.old).faults (state self.new).faults result };

    /// Takes at most `buf.len()` bytes off the rest, into the front of `buf`, and gives their number.
    /// For a nonempty `buf` it gives 0 only at the end. A `Fault` leaves the rest as it was.
    fn read(&mut self, buf: &mut [u8]) -> Result<usize, Fault>
        ensures bound { ReadsAtMost result buf.new }
        ensures bytes { Reads (state self.old).rest (state self.new).rest result buf.new }
        ensures picks { PickedNothing (picks self.old) (picks self.new) }
        ensures stays { (state self.new).contents ≡ (state self.old).contents }
        ensures cause { HasCause (state self.old).faults (state self.new).faults result };
}
