//! Needs that are more than the sites of their vias have left.
ghost use Rattle.std.specs.Prelude.{◌≡◌, ◌≤◌, ◌<◌, ◌-◌, ◌*◌, ◌^◌, ◌==◌, ℕ, length, All, slice_index};
ghost use Rattle.std.specs.Bool.{OnTrue};
ghost use Rattle.bound_certificate.specs.Limits.{IsWithin};
ghost use Rattle.bound_certificate.specs.Problem.{site_count, need_count};
ghost use Rattle.bound_certificate.specs.Node.{later, is_reached, named_by, named_load, reached_capacity_by, reached_capacity, reached_given_by, reached_given, is_crowded, is_next_name, is_hall_set};

use crate::Problem;
use crate::choices::given;
use crate::numbers::{Numbers, has};

/// Whether the named needs are more than the sites that they reach have left beside the choices.
#[tactic(auto, unfolding(crate::specs::Node::is_crowded))]
pub fn is_crowded(problem: &Problem, choices: &[u8], names: &[u8]) -> bool
    requires few { length choices.now ≤ need_count problem.now }
    requires known { All (λ need. need < need_count problem.now) names.now }
    ensures value { result ≡ is_crowded problem.now choices.now names.now }
{
    reached_capacity(problem, names)
        < named_load(problem, names) + reached_given(problem, choices, names)
}

/// The needs from a depth on.
#[tactic(auto, unfolding(crate::specs::Node::later))]
pub fn later(problem: &Problem, depth: u8) -> Numbers
    requires { depth ≤ need_count problem.now }
    ensures value { result ≡ later problem.now depth }
    ensures known { All (λ need. need < need_count problem.now) result }
    ensures within { IsWithin problem.now.sites problem.now.needs }
{
    let mut needs = Numbers::new();
    for need in depth..problem.need_count() {
        needs.push(need);
    }
    needs
}

/// Whether these are some needs from the depth on, in ascending order.
#[tactic(auto, unfolding(crate::specs::Node::is_hall_set))]
pub fn is_hall_set(problem: &Problem, depth: usize, names: &[u8]) -> bool
    ensures value { result ≡ is_hall_set problem.now depth names.now }
    ensures known { OnTrue result (All (λ need. need < need_count problem.now) names.now) }
{
    if names.is_empty() {
        return false;
    }
    for k in 0..names.len() {
        if !is_next_name(problem, depth, names, k) {
            return false;
        }
    }
    true
}

// Whether the name at a place is a need from the depth on, and above the name before it.
#[tactic(auto, unfolding(crate::specs::Node::is_next_name))]
fn is_next_name(problem: &Problem, depth: usize, names: &[u8], place: usize) -> bool
    requires { place < length names.now }
    ensures value { result ≡ is_next_name problem.now depth names.now place }
    ensures known { OnTrue result (slice_index names.now place < need_count problem.now) }
{
    let name = names[place];
    let is_later = depth <= usize::from(name) && name < problem.need_count();
    is_later && (place == 0 || names[place - 1] < name)
}

// Whether a site stands in the via of one of the named needs.
#[tactic(auto, unfolding(crate::specs::Node::is_reached))]
fn is_reached(problem: &Problem, names: &[u8], site: u8) -> bool
    requires { All (λ need. need < need_count problem.now) names.now }
    ensures { result ≡ is_reached problem.now names.now site }
{
    for need in names {
        if has(problem.via(usize::from(*need)), site) {
            return true;
        }
    }
    false
}

// The load of the named needs.
#[tactic(auto, unfolding(crate::specs::Node::named_load))]
fn named_load(problem: &Problem, names: &[u8]) -> u64
    ensures value { result ≡ named_load problem.now names.now }
    ensures bound { result ≤ 65535 * 64 }
{
    let mut sum = 0;
    for need in 0..problem.need_count() {
        sum += named_by(problem, names, need);
    }
    sum
}

#[tactic(auto, unfolding(crate::specs::Node::named_by))]
fn named_by(problem: &Problem, names: &[u8], need: u8) -> u64
    requires { need < need_count problem.now }
    ensures value { result ≡ named_by problem.now names.now need }
    ensures bound { result ≤ 65535 }
{
    if has(names, need) {
        u64::from(problem.load(usize::from(need)))
    } else {
        0
    }
}

// The capacity of the sites that the named needs reach.
#[tactic(auto, unfolding(crate::specs::Node::reached_capacity))]
fn reached_capacity(problem: &Problem, names: &[u8]) -> u64
    requires { All (λ need. need < need_count problem.now) names.now }
    ensures value { result ≡ reached_capacity problem.now names.now }
{
    let mut sum = 0;
    for site in 0..problem.site_count() {
        sum += reached_capacity_by(problem, names, site);
    }
    sum
}

#[tactic(auto, unfolding(crate::specs::Node::reached_capacity_by))]
fn reached_capacity_by(problem: &Problem, names: &[u8], site: u8) -> u64
    requires known { All (λ need. need < need_count problem.now) names.now }
    requires site { site < site_count problem.now }
    ensures value { result ≡ reached_capacity_by problem.now names.now site }
    ensures bound { result ≤ 4294967295 }
{
    if is_reached(problem, names, site) {
        u64::from(problem.capacity(usize::from(site)))
    } else {
        0
    }
}

// What the choices give to the sites that the named needs reach.
#[tactic(auto, unfolding(crate::specs::Node::reached_given))]
fn reached_given(problem: &Problem, choices: &[u8], names: &[u8]) -> u64
    requires few { length choices.now ≤ need_count problem.now }
    requires known { All (λ need. need < need_count problem.now) names.now }
    ensures value { result ≡ reached_given problem.now choices.now names.now }
    ensures bound { result ≤ 65535 * 64 * 32 }
{
    let mut sum = 0;
    for site in 0..problem.site_count() {
        sum += reached_given_by(problem, choices, names, site);
    }
    sum
}

#[tactic(auto, unfolding(crate::specs::Node::reached_given_by))]
fn reached_given_by(problem: &Problem, choices: &[u8], names: &[u8], site: u8) -> u64
    requires few { length choices.now ≤ need_count problem.now }
    requires known { All (λ need. need < need_count problem.now) names.now }
    requires site { site < site_count problem.now }
    ensures value { result ≡ reached_given_by problem.now choices.now names.now site }
    ensures bound { result ≤ 65535 * 64 }
{
    if is_reached(problem, names, site) {
        given(problem, choices, site)
    } else {
        0
    }
}
