//! The name of an entry.
ghost use Rattle.std.specs.Prelude.{◌≡◌, ◌≢◌, ◌<◌, [], ◌∷◌, ◌++◌, None, Some, IfErr, OnOk, length};
ghost use Rattle.std.specs.List.{list_all};
ghost use Rattle.toml.specs.View.{view};
ghost use Rattle.topology.specs.Fields.{text_at};
ghost use Rattle.topology.specs.Names.{is_name, is_name_byte, name_fault};
ghost use Rattle.topology.specs.Place.{key_of};

use crate::TopologyFault;
use crate::fields::text_at;
use crate::names::Names;
use crate::place::Place;
use std::alloc::Global;
use toml::Value;

/// Reads the name of an entry, and numbers it next to the names of the entries before it.
pub(crate) fn number_name(
    alloc: Global,
    entry: &Value,
    place: Place,
    names: &mut Names,
) -> Result<(), TopologyFault>
    requires room { length names.old < 64 }
    ensures numbered { OnOk result (names.new ≡ names.old ++ (text_at (key_of place) (view entry.now) ∷ [])) }
    ensures right { OnOk result (name_fault names.old place (view entry.now) ≡ None) }
    ensures fault { IfErr result (λ fault. fault ≢ TopologyFault.Memory
        → name_fault names.old place (view entry.now) ≡ Some fault) }
{
    let Place {
        entry: list,
        index,
        what: _,
    } = place;
    let name = text_at(entry, place)?;
    if !is_name(name) {
        return Err(TopologyFault::BadName { entry: list, index });
    }
    if names.contains(name) {
        return Err(TopologyFault::TwiceNamed { entry: list, index });
    }
    names.push(alloc, name)
}

// Whether it is 1 to 32 bytes of those that a name can have.
fn is_name(name: &str) -> bool
    ensures value { result ≡ is_name name.now }
{
    match name.len() {
        1..=32 => are_name_bytes(name.as_bytes()),
        _ => false,
    }
}

fn are_name_bytes(bytes: &[u8]) -> bool
    ensures value { result ≡ list_all is_name_byte bytes.now }
{
    bytes.iter().all(|byte| is_name_byte(*byte))
}

fn is_name_byte(byte: u8) -> bool
    ensures value { result ≡ is_name_byte byte }
{
    matches!(byte, b'a'..=b'z' | b'0'..=b'9' | b'_' | b'-')
}
