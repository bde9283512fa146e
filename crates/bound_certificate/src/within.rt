//! The limits of a problem, as a test.
ghost use Rattle.std.specs.Prelude.{◌≡◌, ◌↔◌, ◌≢◌, ◌<◌, ℕ, length, slice_index_or, IsTrue, All, AllPairs};
ghost use Rattle.std.specs.Bool.{OnTrue, OnFalse};
ghost use Rattle.bound_certificate.specs.Limits.{IsWithin, IsNeed};

use crate::{Need, Site};

/// Whether these sites and needs are within the limits of a problem. Takes no memory.
pub fn is_within(sites: &[Site], needs: &[Need]) -> bool
    ensures value { IsTrue result ↔ IsWithin sites.now needs.now }
{
    let sites_fit = !sites.is_empty() && sites.len() <= 32;
    let needs_fit = !needs.is_empty() && needs.len() <= 64;
    sites_fit && needs_fit && each_is_need(sites.len(), needs)
}

// Whether each need is within the limits, at this many sites.
fn each_is_need(sites: usize, needs: &[Need]) -> bool
    ensures { IsTrue result ↔ All (IsNeed sites) needs.now }
{
    for need in needs {
        if !is_need(sites, need) {
            return false;
        }
    }
    true
}

// Whether a need is within the limits, at this many sites.
fn is_need(sites: usize, need: &Need) -> bool
    ensures { IsTrue result ↔ IsNeed sites need.now }
{
    let via = need.via.as_slice();
    let size_fits = !via.is_empty() && via.len() <= 8;
    need.load >= 1 && size_fits && are_known(sites, via) && are_distinct(via)
}

// Whether each number of a via is that of a site.
fn are_known(sites: usize, via: &[u8]) -> bool
    ensures { IsTrue result ↔ All (λ site. site < sites) via.now }
{
    for site in via {
        if usize::from(*site) >= sites {
            return false;
        }
    }
    true
}

// Whether no number stands twice.
fn are_distinct(via: &[u8]) -> bool
    ensures { IsTrue result ↔ AllPairs (λ a b. a ≢ b) via.now }
{
    for i in 0..via.len() {
        if stands_before(via, i) {
            return false;
        }
    }
    true
}

// Whether the number at a place stands at an earlier place, too.
fn stands_before(via: &[u8], place: usize) -> bool
    requires { place < length via.now }
    ensures earlier { OnTrue result ((i : ℕ) × (i < place)
        × ((d : ℕ) → slice_index_or via.now i d ≡ slice_index_or via.now place d)) }
    ensures none { OnFalse result ((i d : ℕ) → i < place
        → slice_index_or via.now i d ≢ slice_index_or via.now place d) }
{
    for i in 0..place {
        if via[i] == via[place] {
            return true;
        }
    }
    false
}
