//! Where a value stands in a file.
ghost use Rattle.std.specs.Prelude.{◌≡◌};
ghost use Rattle.topology.specs.Place.{list_key, key_of, missing, wrong_kind, out_of_range, at_place};

use crate::{Entry, TopologyFault, What};

/// A value of an entry, or one of the two lists (with index 0).
#[derive(Clone, Copy)]
pub(crate) struct Place {
    pub(crate) entry: Entry,
    pub(crate) index: u32,
    pub(crate) what: What,
}

impl Place {
    /// Another value of the same entry.
    pub(crate) fn to(self, what: What) -> Place
        ensures value { result ≡ at_place self.entry self.index what }
    {
        Place { what, ..self }
    }

    /// The key at which the value stands.
    pub(crate) fn key(self) -> &'static str
        ensures value { result.now ≡ key_of self }
    {
        match self.what {
            What::List => list_key(self.entry),
            What::Name => "name",
            What::Capacity => "capacity",
            What::Opening => "open",
            What::Unit => "unit",
            What::From => "from",
            What::To => "to",
            What::Load => "load",
            What::Via => "via",
        }
    }

    /// That no value stands there.
    pub(crate) fn missing(self) -> TopologyFault
        ensures value { result ≡ missing self }
    {
        let Place { entry, index, what } = self;
        TopologyFault::Missing { entry, index, what }
    }

    /// That the value is of another kind.
    pub(crate) fn wrong_kind(self) -> TopologyFault
        ensures value { result ≡ wrong_kind self }
    {
        let Place { entry, index, what } = self;
        TopologyFault::WrongKind { entry, index, what }
    }

    /// That the number is outside its limits.
    pub(crate) fn out_of_range(self) -> TopologyFault
        ensures value { result ≡ out_of_range self }
    {
        let Place { entry, index, what } = self;
        TopologyFault::Range { entry, index, what }
    }
}

fn list_key(entry: Entry) -> &'static str
    ensures value { result.now ≡ list_key entry }
{
    match entry {
        Entry::Switch => "switch",
        Entry::Path => "path",
    }
}
