//! The via of a path.
ghost use Rattle.std.specs.Prelude.{◌≡◌, ◌≢◌, ◌<◌, ◌≤◌, ◌==◌, [], ◌∷◌, ◌++◌, None, Some, IfOk, IfErr, IfSome, IsFalse, OnOk, All, AllPairs, map, length};
ghost use Rattle.std.specs.List.{list_any};
ghost use Rattle.toml.specs.View.{view};
ghost use Rattle.topology.specs.Faults.{first_from};
ghost use Rattle.topology.specs.Fields.{elements_at};
ghost use Rattle.topology.specs.Place.{key_of};
ghost use Rattle.topology.specs.Via.{is_no_text, text_of, number_of, hop_fault, hop_fault_in, via_of, via_fault};

use crate::lists::{check_count, elements_at};
use crate::names::Names;
use crate::place::Place;
use crate::{Entry, TopologyFault, What};
use std::alloc::Global;
use toml::Value;

/// The numbers of the switches that path `index` crosses, 1 to 8 of them and none twice.
#[tactic(auto, unfolding(crate::specs::Via::via_of, crate::specs::Via::via_fault))]
pub(crate) fn read_via(
    alloc: Global,
    entry: &Value,
    index: u32,
    switches: &Names,
) -> Result<Vec<u8>, TopologyFault>
    ensures via { IfOk result (λ via. via.items ≡ via_of switches.now (view entry.now)) }
    ensures some { IfOk result (λ via. 1 ≤ length via.items) }
    ensures few { IfOk result (λ via. length via.items ≤ 8) }
    ensures known { IfOk result (λ via. All (λ number. number < length switches.now) via.items) }
    ensures distinct { IfOk result (λ via. AllPairs (λ a b. a ≢ b) via.items) }
    ensures right { OnOk result (via_fault switches.now index (view entry.now) ≡ None) }
    ensures fault { IfErr result (λ fault. fault ≢ TopologyFault.Memory
        → via_fault switches.now index (view entry.now) ≡ Some fault) }
{
    let place = Place {
        entry: Entry::Path,
        index,
        what: What::Via,
    };
    let elements = elements_at(entry, place)?;
    if has_other(elements) {
        return Err(place.wrong_kind());
    }
    check_count(elements.len(), place, 8)?;
    number_each(alloc, elements, index, switches)
}

// Whether an element is no text.
#[tactic(auto, using(crate::proofs::SeenLists::seen_lists))]
fn has_other(elements: &[Value]) -> bool
    ensures value { result ≡ list_any is_no_text (map view elements.now) }
{
    any_other(elements)
}

fn any_other(elements: &[Value]) -> bool
    ensures value { result ≡ list_any (λ element. is_no_text (view element)) elements.now }
{
    elements.iter().any(|element| !element.is_str())
}

// The number of the switch that each element names.
fn number_each(
    alloc: Global,
    elements: &[Value],
    path: u32,
    switches: &Names,
) -> Result<Vec<u8>, TopologyFault>
    ensures via { IfOk result (λ via. via.items ≡ map (number_of switches.now) (map view elements.now)) }
    ensures known { IfOk result (λ via. All (λ number. number < length switches.now) via.items) }
    ensures distinct { IfOk result (λ via. AllPairs (λ a b. a ≢ b) via.items) }
    ensures right { OnOk result
        (first_from (hop_fault_in switches.now path (map view elements.now)) 0 (length elements.now) ≡ None) }
    ensures fault { IfErr result (λ fault. fault ≢ TopologyFault.Memory
        → first_from (hop_fault_in switches.now path (map view elements.now)) 0 (length elements.now) ≡ Some fault) }
{
    let mut via = Vec::new(alloc);
    for element in elements {
        let number = number_hop(element, &via, path, switches)?;
        let Ok(()) = via.push(number) else {
            return Err(TopologyFault::Memory);
        };
    }
    Ok(via)
}

// The number of the switch that an element names, which is none of these.
#[tactic(auto, unfolding(crate::specs::Via::number_of, crate::specs::Via::hop_fault))]
fn number_hop(
    element: &Value,
    earlier: &[u8],
    path: u32,
    switches: &Names,
) -> Result<u8, TopologyFault>
    ensures number { IfOk result (λ number. number ≡ number_of switches.now (view element.now)) }
    ensures known { IfOk result (λ number. number < length switches.now) }
    ensures new { IfOk result (λ number. All (λ before. before ≢ number) earlier.now) }
    ensures right { OnOk result (hop_fault switches.now path earlier.now (view element.now) ≡ None) }
    ensures fault { IfErr result (λ fault. hop_fault switches.now path earlier.now (view element.now) ≡ Some fault) }
{
    let Some(number) = switches.number_of(text_of(element)) else {
        return Err(TopologyFault::UnknownSwitch { path });
    };
    if is_among(earlier, number) {
        return Err(TopologyFault::TwiceVia { path });
    }
    Ok(number)
}

// The text of an element, and none where it is of another kind.
fn text_of(element: &Value) -> &str
    ensures value { result.now ≡ text_of (view element.now) }
{
    match element.as_str() {
        Some(text) => text,
        None => "",
    }
}

// Whether a number is one of these.
fn is_among(numbers: &[u8], number: u8) -> bool
    ensures value { result ≡ list_any (λ other. other == number) numbers.now }
    ensures new { IsFalse result → All (λ other. other ≢ number) numbers.now }
{
    numbers.iter().any(|other| *other == number)
}
