//! The floor of a node.
ghost use Rattle.std.specs.Prelude.{◌≡◌, ◌≤◌, ◌<◌, ◌+◌, ◌-◌, ◌*◌, ◌^◌, length};
ghost use Rattle.bound_certificate.specs.Problem.{site_count, need_count};
ghost use Rattle.bound_certificate.specs.Placement.{AreChoices};
ghost use Rattle.bound_certificate.specs.Floor.{need_price, floor_by, floor};

use crate::Problem;
use crate::choices::cost_of;
use crate::dual::dual_limit;

/// The floor of a node: the cost of the choices, and for each later need the least that it costs at a site of
/// its via. The first of them may also have to open that site.
#[tactic(auto, unfolding(crate::specs::Floor::floor))]
pub(crate) fn floor_of(problem: &Problem, choices: &[u8]) -> u64
    requires { AreChoices problem.now choices.now }
    ensures value { result ≡ floor problem.now choices.now }
{
    let mut sum = cost_of(problem, choices);
    let later = usize::from(problem.need_count()) - choices.len();
    for j in 0..later {
        sum += floor_by(problem, choices, j);
    }
    sum
}

/// The least that a later need costs at a site of its via, where the first need without a choice is counted as 0. That
/// one may also have to open the site.
#[tactic(auto, unfolding(crate::specs::Floor::floor_by, crate::specs::Floor::least_by))]
pub fn floor_by(problem: &Problem, choices: &[u8], j: usize) -> u64
    requires need { length choices.now + j < need_count problem.now }
    requires few { need_count problem.now ≤ 64 }
    ensures value { result ≡ floor_by problem.now choices.now j }
    ensures bound { result ≤ 2 ^ 33 }
{
    let via = problem.via(choices.len() + j);
    let mut least = need_price(problem, choices, j, via[0]);
    for site in via {
        least = least.min(need_price(problem, choices, j, *site));
    }
    least
}

// What a later need costs at a site: its service, and for the first one the opening.
#[tactic(auto, unfolding(crate::specs::Floor::need_price))]
fn need_price(problem: &Problem, choices: &[u8], j: usize, site: u8) -> u64
    requires need { length choices.now + j < need_count problem.now }
    requires few { need_count problem.now ≤ 64 }
    requires site { site < site_count problem.now }
    ensures value { result ≡ need_price problem.now choices.now j site }
    ensures bound { result ≤ 2 ^ 33 }
{
    let service = problem.service(usize::from(site), choices.len() + j);
    if j == 0 {
        service + u64::from(dual_limit(problem, choices, site))
    } else {
        service
    }
}
