//! Buffers filled from an input, in however many reads.
ghost use Rattle.std.specs.Prelude.{◌≡◌, ◌≤◌, ◌<◌, MatchResult, length, take};
ghost use Rattle.mon_io.specs.Faults.{HasCause};
ghost use Rattle.mon_io.specs.Inputs.{IsRestOf, PickedNothing};
ghost use Rattle.pcap_reader.specs.Filling.{Filled};

use mon_io::{Fault, Inputs};

/// Fills `into` from the front, less of it only where the input ends, and gives how much.
#[inline]
pub(crate) fn fill<I: Inputs>(inputs: &mut I, into: &mut [u8]) -> Result<usize, Fault>
    ensures bytes { MatchResult result
        (λ n. Filled (I.state inputs.old).rest (I.state inputs.new).rest into.new n)
        (λ _. IsRestOf (I.state inputs.old).rest (I.state inputs.new).rest) }
    ensures picks { PickedNothing (I.picks inputs.old) (I.picks inputs.new) }
    ensures stays { (I.state inputs.new).contents ≡ (I.state inputs.old).contents }
    ensures cause { HasCause (I.state inputs.old).faults (I.state inputs.new).faults result }
{
    let mut filled = 0;
    while filled < into.len() {
        let Ok(count) = inputs.read(&mut into[filled..]) else {
            return Err(Fault);
        };
        if count == 0 {
            return Ok(filled);
        }
        filled += count;
    }
    Ok(filled)
}
