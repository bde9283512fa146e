//! Files and standard input as inputs: a trusted edge.
ghost use Rattle.std.specs.Prelude.{◌≡◌, [], ◌∷◌, OnOk, OnErr, is_some};
ghost use Rattle.std.specs.Io.{ReadsAtMost};
ghost use Rattle.std.specs.Io.KnownBytes.{ReadConsumes};
ghost use Rattle.mon_io.specs.Faults.{HasCause};
ghost use Rattle.mon_io.specs.HostInputs.{host_inputs_state, host_ahead, host_picked, host_remaining};
ghost use Rattle.mon_io.specs.Inputs.{Picked, PickedAny, PickedNothing, Reads};

use crate::fault_count::FaultCount;
use crate::read_ahead::ReadAhead;
use crate::source::Source;
use crate::{Fault, Inputs};
use std::rt::Files;
use std::{fs, io};

/// The files and the standard input of `R`, read ahead by 64 KiB. They tell no bytes, and count each
/// failure. Standard input is to be picked once, since what was read ahead of it isn't given back.
#[derive(Drop)]
pub struct HostInputs<'a, R: Files + Input> {
    rt: &'a R,
    picked: ReadAhead<Source<R::File, R::Reader>>,
    faults: FaultCount,
}

impl<'a, R: Files + Input> HostInputs<'a, R> {
    /// Nothing picked, and no fault so far.
    pub fn new(rt: &'a R) -> Self
        ensures faults { (⟦<HostInputs<'a, R> as Inputs>⟧.state result).faults ≡ 0 }
        ensures ahead { host_ahead result ≡ [] }
    {
        HostInputs {
            rt,
            picked: ReadAhead::new(Source::Nothing),
            faults: FaultCount::new(),
        }
    }
}

// What the name stands for: `-` is standard input.
fn opened<R: Files + Input>(rt: &R, name: &str) -> io::Result<Source<R::File, R::Reader>> {
    if name == "-" {
        Ok(Source::Standard(rt.reader()))
    } else {
        Ok(Source::File(fs::open(rt, name)?))
    }
}

impl<'a, R: Files + Input> Inputs for HostInputs<'a, R> {
    ghost state = { host_inputs_state };

    ghost picks = { PickedAny };

    /// A `Fault` where the name can't be opened.
    fn pick(&mut self, name: &str) -> Result<(), Fault>
        ensures picked { OnOk result
            ((host_inputs_state self.new).rest ≡ (host_inputs_state self.old).contents name.now) }
        ensures kept { OnErr result ((host_inputs_state self.new).rest ≡ (host_inputs_state self.old).rest) }
        ensures told { is_some (host_inputs_state self.new).rest ≡ is_some (host_inputs_state self.old).rest }
        ensures stays { (host_inputs_state self.new).contents ≡ (host_inputs_state self.old).contents }
        ensures picks { Picked (PickedAny self.old) (PickedAny self.new) (name.now ∷ []) }
        ensures cause { HasCause (host_inputs_state self.old).faults (host_inputs_state self.new).faults result }
        // Nothing stays ahead of what was picked before, and a failed pick changes nothing of it.
        ensures fresh { OnOk result (host_ahead self.new ≡ []) }
        ensures same { OnErr result (host_picked self.new ≡ host_picked self.old) }
    {
        let Ok(source) = opened(self.rt, name) else {
            return Err(self.faults.next());
        };
        self.picked = ReadAhead::new(source);
        Ok(())
    }

    /// A `Fault` where the system's read fails, as that of a folder does.
    #[inline]
    fn read(&mut self, buf: &mut [u8]) -> Result<usize, Fault>
        ensures bound { ReadsAtMost result buf.new }
        ensures bytes { Reads (host_inputs_state self.old).rest (host_inputs_state self.new).rest result buf.new }
        ensures stays { (host_inputs_state self.new).contents ≡ (host_inputs_state self.old).contents }
        ensures picks { PickedNothing (PickedAny self.old) (PickedAny self.new) }
        ensures cause { HasCause (host_inputs_state self.old).faults (host_inputs_state self.new).faults result }
        // What was read ahead comes first, and then what the stream gives.
        ensures remaining { ReadConsumes (host_remaining R.File.remaining R.Reader.remaining self.old)
            (host_remaining R.File.remaining R.Reader.remaining self.new) result buf.new }
    {
        match self.picked.read(buf) {
            Ok(count) => Ok(count),
            Err(_) => Err(self.faults.next()),
        }
    }
}
