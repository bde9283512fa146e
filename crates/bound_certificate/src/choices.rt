//! The load that choices give to a site, and their cost.
ghost use Rattle.std.specs.Prelude.{◌≡◌, ◌≤◌, ◌<◌, ◌+◌, ◌*◌, ◌^◌, ℕ, length};
ghost use Rattle.bound_certificate.specs.Problem.{site_count, need_count};
ghost use Rattle.bound_certificate.specs.Placement.{AreChoices, given_by, given, opened_by, opened, served_by, served, cost, is_within_capacity};

use crate::Problem;
use crate::numbers::has;

/// The load that the choices give to a site.
#[tactic(auto, unfolding(crate::specs::Placement::given))]
pub(crate) fn given(problem: &Problem, choices: &[u8], site: u8) -> u64
    requires { length choices.now ≤ need_count problem.now }
    ensures value { result ≡ given problem.now choices.now site }
    ensures bound { result ≤ 65535 * length choices.now }
    ensures small { result ≤ 65535 * 64 }
{
    let mut sum = 0;
    for i in 0..choices.len() {
        sum += given_by(problem, choices, site, i);
    }
    sum
}

// What a need gives to a site: its load, where the site is chosen for it.
#[tactic(auto, unfolding(crate::specs::Placement::given_by))]
fn given_by(problem: &Problem, choices: &[u8], site: u8, need: usize) -> u64
    requires need { need < length choices.now }
    requires few { length choices.now ≤ need_count problem.now }
    ensures value { result ≡ given_by problem.now choices.now site need }
    ensures bound { result ≤ 65535 }
    ensures few { need_count problem.now ≤ 64 }
{
    let load = problem.load(need);
    if choices[need] == site {
        u64::from(load)
    } else {
        0
    }
}

/// The cost of opening the chosen sites, each once.
#[tactic(auto, unfolding(crate::specs::Placement::opened))]
pub(crate) fn opened(problem: &Problem, choices: &[u8]) -> u64
    ensures value { result ≡ opened problem.now choices.now }
    ensures bound { result ≤ 2 ^ 37 }
    ensures few { need_count problem.now ≤ 64 }
{
    let mut sum = 0;
    for site in 0..problem.site_count() {
        sum += opened_by(problem, choices, site);
    }
    sum
}

// What a site costs to open: nothing where it is not chosen.
#[tactic(auto, unfolding(crate::specs::Placement::opened_by))]
fn opened_by(problem: &Problem, choices: &[u8], site: u8) -> u64
    requires { site < site_count problem.now }
    ensures value { result ≡ opened_by problem.now choices.now site }
    ensures bound { result ≤ 4294967295 }
{
    if has(choices, site) {
        u64::from(problem.opening(usize::from(site)))
    } else {
        0
    }
}

/// The cost of serving the needs that have a choice, each from its site.
#[tactic(auto, unfolding(crate::specs::Placement::served))]
pub(crate) fn served(problem: &Problem, choices: &[u8]) -> u64
    requires { AreChoices problem.now choices.now }
    ensures value { result ≡ served problem.now choices.now }
    ensures bound { result ≤ 4294836225 * length choices.now }
{
    let mut sum = 0;
    for i in 0..choices.len() {
        sum += served_by(problem, choices, i);
    }
    sum
}

// What a need costs at its choice.
#[tactic(auto, unfolding(crate::specs::Placement::served_by))]
fn served_by(problem: &Problem, choices: &[u8], need: usize) -> u64
    requires choices { AreChoices problem.now choices.now }
    requires need { need < length choices.now }
    ensures value { result ≡ served_by problem.now choices.now need }
    ensures bound { result ≤ 4294836225 }
    ensures few { need_count problem.now ≤ 64 }
{
    // Its sites are numbers of sites, and so is the choice.
    let _via = problem.via(need);
    problem.service(usize::from(choices[need]), need)
}

/// The cost of the choices: opening the chosen sites, and serving the needs that have a choice.
#[tactic(auto, unfolding(crate::specs::Placement::cost))]
pub fn cost_of(problem: &Problem, choices: &[u8]) -> u64
    requires { AreChoices problem.now choices.now }
    ensures value { result ≡ cost problem.now choices.now }
    ensures bound { result ≤ 2 ^ 37 + 4294836225 * length choices.now }
    ensures few { need_count problem.now ≤ 64 }
{
    opened(problem, choices) + served(problem, choices)
}

/// Whether a site's loads are within its capacity.
#[tactic(auto, unfolding(crate::specs::Placement::is_within_capacity))]
pub(crate) fn is_within_capacity(problem: &Problem, choices: &[u8], site: u8) -> bool
    requires few { length choices.now ≤ need_count problem.now }
    requires known { site < site_count problem.now }
    ensures value { result ≡ is_within_capacity problem.now choices.now site }
{
    given(problem, choices, site) <= u64::from(problem.capacity(usize::from(site)))
}
