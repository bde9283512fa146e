//! Names that are numbered.
ghost use Rattle.std.specs.Prelude.{◌≡◌, ◌+◌, ◌<◌, ◌≤◌, [], ◌∷◌, ◌++◌, false, IfErr, IfSome, OnOk, length, map, string_bytes, slice_index_or};
ghost use Rattle.topology.specs.Names.{is_among};
ghost use Rattle.topology.specs.Via.{switch_of};

use crate::TopologyFault;
use indexmap::IndexSet;
use std::alloc::Global;
use std::marker::Model;

/// Names by their numbers from 0, at most 64.
#[derive(Drop)]
pub(crate) struct Names {
    keys: IndexSet<String>,
}

impl Model for Names {
    ghost use Rattle.std.specs.Prelude.{◌≤◌, List, ℕ, length, map, string_bytes};

    ghost Value = { List (List ℕ) };

    ghost view = { λ names. map string_bytes names.keys.keys };

    ghost invariant = { λ names. length names.keys.keys ≤ 64 };
}

impl Names {
    /// No name.
    pub(crate) fn new(alloc: Global) -> Names
        ensures none { result ≡ [] }
    {
        Names {
            keys: IndexSet::new(alloc),
        }
    }

    /// How many there are.
    pub(crate) fn len(&self) -> usize
        ensures count { result ≡ length self.now }
    {
        self.keys.len()
    }

    /// The name of a number.
    pub(crate) fn get(&self, number: usize) -> &str
        requires { number < length self.now }
        ensures name { result.now ≡ slice_index_or self.now number [] }
    {
        name_at(&self.keys, number)
    }

    /// Whether a name is among them.
    pub(crate) fn contains(&self, name: &str) -> bool
        ensures value { result ≡ is_among self.now name.now }
    {
        is_among(&self.keys, name)
    }

    /// The number of a name.
    pub(crate) fn number_of(&self, name: &str) -> Option<u8>
        ensures number { result ≡ switch_of self.now name.now }
        ensures within { IfSome result (λ number. number < length self.now) }
    {
        number_of(&self.keys, name)
    }

    /// Numbers a name that is new.
    pub(crate) fn push(&mut self, alloc: Global, name: &str) -> Result<(), TopologyFault>
        requires room { length self.old < 64 }
        requires new { is_among self.old name.now ≡ false }
        ensures pushed { OnOk result (self.new ≡ self.old ++ (name.now ∷ [])) }
        ensures memory { IfErr result (λ fault. fault ≡ TopologyFault.Memory) }
    {
        push(alloc, &mut self.keys, name)
    }
}

// The name of a number.
fn name_at(keys: &IndexSet<String>, number: usize) -> &str
    requires { number < length keys.now.keys }
    ensures value { result.now ≡ slice_index_or (map string_bytes keys.now.keys) number [] }
{
    match keys.get_index(number) {
        Some(name) => name.as_str(),
        None => "",
    }
}

// Whether a name is among keys.
#[tactic(auto, using(crate::proofs::SeenLists::seen_lists))]
fn is_among(keys: &IndexSet<String>, name: &str) -> bool
    ensures value { result ≡ is_among (map string_bytes keys.now.keys) name.now }
{
    keys.contains(name)
}

// The number of a name among at most 64 keys.
#[tactic(auto, using(crate::proofs::SeenLists::seen_lists))]
fn number_of(keys: &IndexSet<String>, name: &str) -> Option<u8>
    requires { length keys.now.keys ≤ 64 }
    ensures number { result ≡ switch_of (map string_bytes keys.now.keys) name.now }
    ensures within { IfSome result (λ number. number < length keys.now.keys) }
{
    match keys.get_index_of(name) {
        Some(number) => Some(number as u8),
        None => None,
    }
}

// One more key behind those that there are.
#[tactic(auto, using(crate::proofs::SeenLists::seen_lists))]
fn push(alloc: Global, keys: &mut IndexSet<String>, name: &str) -> Result<(), TopologyFault>
    requires { is_among (map string_bytes keys.old.keys) name.now ≡ false }
    ensures pushed { OnOk result (map string_bytes keys.new.keys ≡ map string_bytes keys.old.keys ++ (name.now ∷ [])) }
    ensures one { length keys.new.keys ≤ length keys.old.keys + 1 }
    ensures memory { IfErr result (λ fault. fault ≡ TopologyFault.Memory) }
{
    let Ok(name) = String::from_str(alloc, name) else {
        return Err(TopologyFault::Memory);
    };
    let Ok(_) = keys.insert(name) else {
        return Err(TopologyFault::Memory);
    };
    Ok(())
}
