//! Inputs in memory, with calls that fail on demand.
ghost use Rattle.std.specs.Prelude.{◌≡◌, ◌≤◌, ◌||◌, [], ◌∷◌, OnOk, OnErr, Some, IfOk, is_err, is_some, is_none, length, min};
ghost use Rattle.std.specs.Io.{ReadsAtMost};
ghost use Rattle.mon_io.specs.Faults.{HasCause, CountsFailure, is_due, next_count};
ghost use Rattle.mon_io.specs.Files.{contents_of};
ghost use Rattle.mon_io.specs.Inputs.{Picked, PickedAny, PickedNothing, Reads};
ghost use Rattle.mon_io.specs.MemInputs.{mem_inputs_state, mem_inputs_rest, failing_calls, calls_made};

use crate::fault_count::FaultCount;
use crate::script::Script;
use crate::shelf::Shelf;
use crate::{Fault, Inputs};

/// Files in memory, of which the first with a name counts. They tell their bytes.
#[derive(Drop)]
pub struct MemInputs {
    shelf: Shelf,
    script: Script,
    faults: FaultCount,
}

impl MemInputs {
    /// Inputs with these files, of which the calls with these numbers, counted from 0, fail; nothing is picked.
    pub fn new(files: Vec<(String, Vec<u8>)>, fails: Vec<u32>) -> Self
        ensures contents { (mem_inputs_state result).contents ≡ contents_of files.items }
        ensures rest { (mem_inputs_state result).rest ≡ Some [] }
        ensures faults { (mem_inputs_state result).faults ≡ 0 }
        ensures fails { failing_calls result ≡ fails.items }
        ensures calls { calls_made result ≡ 0 }
    {
        MemInputs {
            shelf: Shelf::new(files),
            script: Script::new(fails),
            faults: FaultCount::new(),
        }
    }
}

impl Inputs for MemInputs {
    ghost state = { mem_inputs_state };

    ghost picks = { PickedAny };

    fn pick(&mut self, name: &str) -> Result<(), Fault>
        ensures picked { OnOk result
            ((mem_inputs_state self.new).rest ≡ (mem_inputs_state self.old).contents name.now) }
        ensures kept { OnErr result ((mem_inputs_state self.new).rest ≡ (mem_inputs_state self.old).rest) }
        ensures told { is_some (mem_inputs_state self.new).rest ≡ is_some (mem_inputs_state self.old).rest }
        ensures stays { (mem_inputs_state self.new).contents ≡ (mem_inputs_state self.old).contents }
        ensures picks { Picked (PickedAny self.old) (PickedAny self.new) (name.now ∷ []) }
        ensures cause { HasCause (mem_inputs_state self.old).faults (mem_inputs_state self.new).faults result }
        ensures faults { CountsFailure (mem_inputs_state self.old).faults (mem_inputs_state self.new).faults result }
        // Exactly the calls of the list fail, and the picking of an unknown name.
        ensures fails { is_err result ≡ (is_due (failing_calls self.old) (calls_made self.old)
            || is_none ((mem_inputs_state self.old).contents name.now)) }
        ensures counts { calls_made self.new ≡ next_count (calls_made self.old) }
        ensures script { failing_calls self.new ≡ failing_calls self.old }
    {
        if self.script.next_fails() {
            return Err(self.faults.next());
        }
        if self.shelf.pick(name) {
            Ok(())
        } else {
            Err(self.faults.next())
        }
    }

    /// It gives as much as there is or fits.
    fn read(&mut self, buf: &mut [u8]) -> Result<usize, Fault>
        ensures bound { ReadsAtMost result buf.new }
        ensures bytes { Reads (mem_inputs_state self.old).rest (mem_inputs_state self.new).rest result buf.new }
        ensures stays { (mem_inputs_state self.new).contents ≡ (mem_inputs_state self.old).contents }
        ensures picks { PickedNothing (PickedAny self.old) (PickedAny self.new) }
        ensures cause { HasCause (mem_inputs_state self.old).faults (mem_inputs_state self.new).faults result }
        ensures count { IfOk result (λ n. n ≡ min (length (mem_inputs_rest self.old)) (length buf.new)) }
        ensures faults { CountsFailure (mem_inputs_state self.old).faults (mem_inputs_state self.new).faults result }
        // Exactly the calls of the list fail.
        ensures fails { is_err result ≡ is_due (failing_calls self.old) (calls_made self.old) }
        ensures counts { calls_made self.new ≡ next_count (calls_made self.old) }
        ensures script { failing_calls self.new ≡ failing_calls self.old }
    {
        if self.script.next_fails() {
            return Err(self.faults.next());
        }
        Ok(self.shelf.read(buf))
    }
}
