//! Choices completed to a placement, each need at the first site with room left.
ghost use Rattle.std.specs.Prelude.{◌≡◌, ◌≤◌, ◌<◌, ◌-◌, length, IfSome, IsTrue};
ghost use Rattle.bound_certificate.specs.Problem.{site_count, need_count, via};
ghost use Rattle.bound_certificate.specs.Limits.{IsWithin};
ghost use Rattle.bound_certificate.specs.Placement.{AreChoices, first_with_room, has_room, completed};
ghost use Rattle.bound_certificate.specs.Sums.{has};

use crate::Problem;
use crate::choices::given;
use crate::numbers::Numbers;

/// The choices followed by one for each later need, in order: the first site of its via with room left.
/// None exactly where some need finds none.
#[tactic(auto, unfolding(crate::specs::Placement::completed))]
pub fn complete(problem: &Problem, choices: &Numbers) -> Option<Numbers>
    requires { AreChoices problem.now choices.now }
    ensures value { result ≡ completed problem.now choices.now (need_count problem.now - length choices.now) }
    ensures choices { IfSome result (λ completed. AreChoices problem.now completed) }
    ensures within { IsWithin problem.now.sites problem.now.needs }
{
    let mut completed = choices.copied();
    for _ in choices.len()..usize::from(problem.need_count()) {
        let Some(site) = first_with_room(problem, &completed) else {
            return None;
        };
        completed.push(site);
    }
    Some(completed)
}

// The first site of the next need's via with room left.
#[tactic(auto, unfolding(crate::specs::Placement::first_with_room))]
fn first_with_room(problem: &Problem, choices: &Numbers) -> Option<u8>
    requires { length choices.now < need_count problem.now }
    ensures value { result ≡ first_with_room problem.now choices.now }
    ensures stands { IfSome result (λ site. IsTrue (has (via problem.now (length choices.now)) site)) }
{
    let via = problem.via(choices.len());
    for site in via {
        if has_room(problem, choices, *site) {
            return Some(*site);
        }
    }
    None
}

// Whether a site has room left for the next need.
#[tactic(auto, unfolding(crate::specs::Placement::has_room))]
fn has_room(problem: &Problem, choices: &Numbers, site: u8) -> bool
    requires few { length choices.now < need_count problem.now }
    requires known { site < site_count problem.now }
    ensures { result ≡ has_room problem.now choices.now site }
{
    let load = u64::from(problem.load(choices.len()));
    given(problem, choices.as_slice(), site) + load
        <= u64::from(problem.capacity(usize::from(site)))
}
