//! The two prefixes of a path.
ghost use Rattle.std.specs.Prelude.{◌≡◌, ◌<◌, None, Some, IfOk, IfErr, IfSome, OnOk, length, position};
ghost use Rattle.toml.specs.View.{view};
ghost use Rattle.topology.specs.Paths.{prefix_at, prefix_fault, ends_of, ends_fault};
ghost use Rattle.topology.specs.Place.{key_of};
ghost use Rattle.topology.specs.Takes.{takes};

use crate::fields::text_at;
use crate::place::Place;
use crate::{Entry, TopologyFault, What};
use flow_keys::{FlowKey, Prefix, Side};
use toml::Value;

/// Which sources and which destinations a path takes.
#[derive(Clone, Copy)]
pub(crate) struct Ends {
    pub(crate) from: Prefix,
    pub(crate) to: Prefix,
}

impl Ends {
    // Whether the first prefix holds the source of a key, and the second its destination.
    fn takes(&self, key: &FlowKey) -> bool
        ensures value { result ≡ takes key.now self.now }
    {
        self.from.holds(key, Side::Source) && self.to.holds(key, Side::Destination)
    }
}

/// The prefixes of a path, which are of one family.
#[tactic(auto, unfolding(crate::specs::Paths::ends_of, crate::specs::Paths::ends_fault))]
pub(crate) fn read_ends(entry: &Value, index: u32) -> Result<Ends, TopologyFault>
    ensures ends { IfOk result (λ ends. ends ≡ ends_of (view entry.now)) }
    ensures right { OnOk result (ends_fault index (view entry.now) ≡ None) }
    ensures fault { IfErr result (λ fault. ends_fault index (view entry.now) ≡ Some fault) }
{
    let place = Place {
        entry: Entry::Path,
        index,
        what: What::From,
    };
    let from = prefix_at(entry, place)?;
    let to = prefix_at(entry, place.to(What::To))?;
    if from.family != to.family {
        return Err(TopologyFault::MixedFamily { path: index });
    }
    Ok(Ends { from, to })
}

#[tactic(auto, unfolding(crate::specs::Paths::prefix_at, crate::specs::Paths::prefix_fault))]
fn prefix_at(entry: &Value, place: Place) -> Result<Prefix, TopologyFault>
    ensures prefix { IfOk result (λ prefix. prefix ≡ prefix_at (key_of place) (view entry.now)) }
    ensures right { OnOk result (prefix_fault place (view entry.now) ≡ None) }
    ensures fault { IfErr result (λ fault. prefix_fault place (view entry.now) ≡ Some fault) }
{
    let text = text_at(entry, place)?;
    let Ok(prefix) = Prefix::parse(text) else {
        return Err(TopologyFault::BadPrefix {
            path: place.index,
            what: place.what,
        });
    };
    Ok(prefix)
}

/// The number of the first path that takes a key.
pub(crate) fn first_taking(ends: &[Ends], key: &FlowKey) -> Option<usize>
    ensures value { result ≡ position (takes key.now) ends.now }
    ensures within { IfSome result (λ path. path < length ends.now) }
{
    ends.iter().position(|end| end.takes(key))
}
