//! Inputs in memory that never fail.
ghost use Rattle.std.specs.Prelude.{◌≡◌, [], ◌∷◌, IfOk, OnOk, OnErr, IsOk, Some, is_some, length, min};
ghost use Rattle.std.specs.Io.{ReadsAtMost};
ghost use Rattle.mon_io.specs.Faults.{HasCause};
ghost use Rattle.mon_io.specs.Files.{contents_or_empty};
ghost use Rattle.mon_io.specs.Inputs.{Picked, PickedAny, PickedNothing, Reads};
ghost use Rattle.mon_io.specs.NeverInputs.{never_inputs_state, never_inputs_rest};

use crate::shelf::Shelf;
use crate::{Fault, Inputs};

/// Files in memory, of which the first with a name counts; an unknown name has empty contents.
/// They tell their bytes, and no call fails.
#[derive(Drop)]
pub struct NeverInputs {
    shelf: Shelf,
}

impl NeverInputs {
    /// Inputs with these files, of which none is picked.
    pub fn new(files: Vec<(String, Vec<u8>)>) -> Self
        ensures contents { (never_inputs_state result).contents ≡ contents_or_empty files.items }
        ensures rest { (never_inputs_state result).rest ≡ Some [] }
        ensures faults { (never_inputs_state result).faults ≡ 0 }
    {
        NeverInputs {
            shelf: Shelf::new(files),
        }
    }
}

impl Inputs for NeverInputs {
    ghost state = { never_inputs_state };

    ghost picks = { PickedAny };

    fn pick(&mut self, name: &str) -> Result<(), Fault>
        ensures picked { OnOk result
            ((never_inputs_state self.new).rest ≡ (never_inputs_state self.old).contents name.now) }
        ensures kept { OnErr result ((never_inputs_state self.new).rest ≡ (never_inputs_state self.old).rest) }
        ensures told { is_some (never_inputs_state self.new).rest ≡ is_some (never_inputs_state self.old).rest }
        ensures stays { (never_inputs_state self.new).contents ≡ (never_inputs_state self.old).contents }
        ensures picks { Picked (PickedAny self.old) (PickedAny self.new) (name.now ∷ []) }
        ensures cause { HasCause (never_inputs_state self.old).faults (never_inputs_state self.new).faults result }
        ensures never { IsOk result }
    {
        if !self.shelf.pick(name) {
            self.shelf.pick_nothing();
        }
        Ok(())
    }

    /// It gives as much as there is or fits.
    fn read(&mut self, buf: &mut [u8]) -> Result<usize, Fault>
        ensures bound { ReadsAtMost result buf.new }
        ensures bytes { Reads (never_inputs_state self.old).rest (never_inputs_state self.new).rest result buf.new }
        ensures stays { (never_inputs_state self.new).contents ≡ (never_inputs_state self.old).contents }
        ensures picks { PickedNothing (PickedAny self.old) (PickedAny self.new) }
        ensures cause { HasCause (never_inputs_state self.old).faults (never_inputs_state self.new).faults result }
        ensures count { IfOk result (λ n. n ≡ min (length (never_inputs_rest self.old)) (length buf.new)) }
        ensures never { IsOk result }
    {
        Ok(self.shelf.read(buf))
    }
}
