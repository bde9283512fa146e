//! One site for each need.
ghost use Rattle.std.specs.Prelude.{◌≡◌, ◌≤◌, ◌<◌, IsTrue, length, pos, IfOk, IfSome};
ghost use Rattle.std.specs.Bool.{OnTrue};
ghost use Rattle.std.specs.Option.{option_map};
ghost use Rattle.bound_certificate.specs.Problem.{site_count, need_count};
ghost use Rattle.bound_certificate.specs.Placement.{is_chosen, is_placement, is_within_capacity, fits, cost, first_fit};
ghost use Rattle.bound_certificate.specs.Sums.{all_below};

use crate::Problem;
use crate::choices::{cost_of, is_within_capacity};
use crate::completion::complete;
use crate::numbers::{Numbers, has};
use mon_io::Memory;
use sqlite_items::Items;
use std::alloc::Global;

/// One number of a site for each need, in the order of the needs.
#[derive(Debug, Drop)]
pub struct Placement {
    /// The numbers of the sites.
    pub sites: Items<u8>,
}

/// Whether there is one site of its via for each need, and no site's loads are above its capacity.
/// Takes no memory.
#[tactic(auto, unfolding(crate::specs::Placement::fits))]
pub fn fits(problem: &Problem, placement: &Placement) -> bool
    ensures value { result ≡ fits problem.now placement.now.sites }
    ensures placed { OnTrue result (IsTrue (is_placement problem.now placement.now.sites)) }
{
    let choices = placement.sites.as_slice();
    is_placement(problem, choices) && is_within_capacities(problem, choices)
}

/// The cost of a placement: opening the sites that it uses, and for each need its load times the site's
/// cost per unit. There is one site of its via for each need. Takes no memory.
pub fn cost(problem: &Problem, placement: &Placement) -> i128
    requires { IsTrue (is_placement problem.now placement.now.sites) }
    ensures value { result ≡ pos (cost problem.now placement.now.sites) }
{
    i128::from(cost_of(problem, placement.sites.as_slice()))
}

/// The placement that gives each need, in order, to the first site of its via with room left. It fits. None
/// exactly where some need finds none.
#[tactic(auto, unfolding(crate::specs::Placement::first_fit))]
pub fn first_fit(alloc: Global, problem: &Problem) -> Result<Option<Placement>, Memory>
    ensures value { IfOk result (λ found. option_map (λ placement. placement.sites) found ≡ first_fit problem.now) }
    ensures fits { IfOk result (λ found. IfSome found (λ placement. IsTrue (fits problem.now placement.sites))) }
{
    let Some(choices) = complete(problem, &Numbers::new()) else {
        return Ok(None);
    };
    match Items::from_slice(alloc, choices.as_slice()) {
        Ok(sites) => Ok(Some(Placement { sites })),
        Err(_) => Err(Memory),
    }
}

// Whether there is one site of its via for each need.
#[tactic(auto, unfolding(crate::specs::Placement::is_placement))]
fn is_placement(problem: &Problem, choices: &[u8]) -> bool
    ensures value { result ≡ is_placement problem.now choices.now }
    ensures size { OnTrue result (length choices.now ≡ need_count problem.now) }
{
    choices.len() == usize::from(problem.need_count()) && are_chosen(problem, choices)
}

// Whether each choice is one of the need's via.
#[tactic(auto, unfolding(crate::specs::Placement::is_chosen))]
fn are_chosen(problem: &Problem, choices: &[u8]) -> bool
    requires { length choices.now ≡ need_count problem.now }
    ensures { result ≡ all_below (is_chosen problem.now choices.now) (length choices.now) }
{
    for i in 0..choices.len() {
        if !has(problem.via(i), choices[i]) {
            return false;
        }
    }
    true
}

// Whether no site's loads are above its capacity.
fn is_within_capacities(problem: &Problem, choices: &[u8]) -> bool
    requires { length choices.now ≤ need_count problem.now }
    ensures { result ≡ all_below (is_within_capacity problem.now choices.now) (site_count problem.now) }
{
    for site in 0..problem.site_count() {
        if !is_within_capacity(problem, choices, site) {
            return false;
        }
    }
    true
}
