//! The two lists of entries, and the elements of arrays.
ghost use Rattle.std.specs.Prelude.{◌≡◌, ◌≤◌, None, Some, IfOk, IfErr, OnOk, map, length, position};
ghost use Rattle.toml.specs.Data.{as_array};
ghost use Rattle.toml.specs.View.{view};
ghost use Rattle.topology.specs.Fields.{elements_at, kind_fault, count_fault, element_fault, list_fault, entries_of, shown, is_no_table};
ghost use Rattle.topology.specs.Place.{key_of};

use crate::place::Place;
use crate::{Entry, TopologyFault, What};
use toml::Value;

/// The entries of a list, which has 1 to `most`.
pub(crate) fn entries_at(root: &Value, entry: Entry, most: u32) -> Result<&[Value], TopologyFault>
    ensures entries { IfOk result (λ entries. map view entries.now ≡ entries_of entry (view root.now)) }
    ensures some { IfOk result (λ entries. 1 ≤ length entries.now) }
    ensures few { IfOk result (λ entries. length entries.now ≤ most) }
    ensures right { OnOk result (list_fault most entry (view root.now) ≡ None) }
    ensures fault { IfErr result (λ fault. list_fault most entry (view root.now) ≡ Some fault) }
{
    let place = Place {
        entry,
        index: 0,
        what: What::List,
    };
    let elements = elements_at(root, place)?;
    check_tables(elements, entry)?;
    check_count(elements.len(), place, most)?;
    Ok(elements)
}

/// The elements of the array at a place.
#[tactic(auto, using(crate::proofs::SeenLists::seen_lists))]
pub(crate) fn elements_at(entry: &Value, place: Place) -> Result<&[Value], TopologyFault>
    ensures elements { IfOk result (λ elements. map view elements.now ≡ elements_at (key_of place) (view entry.now)) }
    ensures right { OnOk result (kind_fault as_array place (view entry.now) ≡ None) }
    ensures fault { IfErr result (λ fault. kind_fault as_array place (view entry.now) ≡ Some fault) }
{
    let Some(value) = entry.get(place.key()) else {
        return Err(place.missing());
    };
    let Some(array) = value.as_array() else {
        return Err(place.wrong_kind());
    };
    Ok(array.as_slice())
}

/// That a list has 1 to `most` elements.
pub(crate) fn check_count(found: usize, place: Place, most: u32) -> Result<(), TopologyFault>
    ensures some { OnOk result (1 ≤ found) }
    ensures few { OnOk result (found ≤ most) }
    ensures right { OnOk result (count_fault most place found ≡ None) }
    ensures fault { IfErr result (λ fault. count_fault most place found ≡ Some fault) }
{
    if found >= 1 && found <= most as usize {
        return Ok(());
    }
    let Place { entry, index, what } = place;
    Err(TopologyFault::Count {
        entry,
        index,
        what,
        found: shown(found),
    })
}

// That each element is a table.
#[tactic(auto, using(crate::proofs::SeenLists::seen_lists))]
fn check_tables(elements: &[Value], entry: Entry) -> Result<(), TopologyFault>
    ensures right { OnOk result (element_fault entry (map view elements.now) ≡ None) }
    ensures fault { IfErr result (λ fault. element_fault entry (map view elements.now) ≡ Some fault) }
{
    match first_other(elements) {
        None => Ok(()),
        Some(index) => Err(TopologyFault::WrongKind {
            entry,
            index: shown(index),
            what: What::List,
        }),
    }
}

// The first element that is no table.
fn first_other(elements: &[Value]) -> Option<usize>
    ensures value { result ≡ position (λ element. is_no_table (view element)) elements.now }
{
    elements.iter().position(|element| !element.is_table())
}

// A count in 32 bits, with the greatest number for more.
fn shown(count: usize) -> u32
    ensures value { result ≡ shown count }
{
    count.min(u32::MAX as usize) as u32
}
