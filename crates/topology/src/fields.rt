//! The values of an entry by their keys.
ghost use Rattle.std.specs.Prelude.{◌≡◌, ◌≤◌, None, Some, IfOk, IfErr, OnOk, pos, nat_abs, map, length};
ghost use Rattle.toml.specs.Data.{as_str, as_integer, as_array};
ghost use Rattle.toml.specs.View.{view};
ghost use Rattle.topology.specs.Fields.{text_at, integer_at, number_at, is_between, kind_fault, number_fault};
ghost use Rattle.topology.specs.Place.{key_of};

use crate::TopologyFault;
use crate::place::Place;
use toml::Value;

/// The text at a place.
pub(crate) fn text_at(entry: &Value, place: Place) -> Result<&str, TopologyFault>
    ensures text { IfOk result (λ text. text.now ≡ text_at (key_of place) (view entry.now)) }
    ensures right { OnOk result (kind_fault as_str place (view entry.now) ≡ None) }
    ensures fault { IfErr result (λ fault. kind_fault as_str place (view entry.now) ≡ Some fault) }
{
    let Some(value) = entry.get(place.key()) else {
        return Err(place.missing());
    };
    let Some(text) = value.as_str() else {
        return Err(place.wrong_kind());
    };
    Ok(text)
}

/// The integer at a place.
pub(crate) fn integer_at(entry: &Value, place: Place) -> Result<i64, TopologyFault>
    ensures integer { IfOk result (λ integer. integer ≡ integer_at (key_of place) (view entry.now)) }
    ensures right { OnOk result (kind_fault as_integer place (view entry.now) ≡ None) }
    ensures fault { IfErr result (λ fault. kind_fault as_integer place (view entry.now) ≡ Some fault) }
{
    let Some(value) = entry.get(place.key()) else {
        return Err(place.missing());
    };
    let Some(integer) = value.as_integer() else {
        return Err(place.wrong_kind());
    };
    Ok(integer)
}

/// The number at a place, between two limits.
pub(crate) fn number_at(
    entry: &Value,
    place: Place,
    least: u32,
    most: u32,
) -> Result<u32, TopologyFault>
    ensures number { IfOk result (λ number. number ≡ number_at (key_of place) (view entry.now)) }
    ensures least { IfOk result (λ number. least ≤ number) }
    ensures most { IfOk result (λ number. number ≤ most) }
    ensures right { OnOk result (number_fault least most place (view entry.now) ≡ None) }
    ensures fault { IfErr result (λ fault. number_fault least most place (view entry.now) ≡ Some fault) }
{
    let integer = integer_at(entry, place)?;
    if !is_between(integer, least, most) {
        return Err(place.out_of_range());
    }
    Ok(integer as u32)
}

// Whether an integer is between two limits.
fn is_between(integer: i64, least: u32, most: u32) -> bool
    ensures value { result ≡ is_between least most integer }
{
    i64::from(least) <= integer && integer <= i64::from(most)
}
