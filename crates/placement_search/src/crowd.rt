//! Needs that are more than the sites of their vias have left.
ghost use Rattle.std.specs.Prelude.{◌≡◌, ◌<◌, ◌≤◌, length, None, false, IfSome};
ghost use Rattle.std.specs.Bool.{OnTrue};
ghost use Rattle.bound_certificate.specs.Problem.{need_count};
ghost use Rattle.bound_certificate.specs.Node.{is_crowded, later};
ghost use Rattle.placement_search.specs.Leaf.{IsCrowd};

use crate::room::Room;
use bound_certificate::{Numbers, Problem, has, is_crowded, is_hall_set, later};

/// Some needs without a choice that are more than the sites of their vias have left: all of them where they are,
/// else some that were found. Takes no memory.
pub fn find_crowd(problem: &Problem, choices: &Numbers) -> Option<Numbers>
    requires { length choices.now < need_count problem.now }
    ensures crowd { IfSome result (IsCrowd problem.now choices.now) }
    ensures none { result ≡ None → is_crowded problem.now choices.now (later problem.now (length choices.now)) ≡ false }
{
    let later = later(problem, choices.len() as u8);
    if is_crowded(problem, choices.as_slice(), later.as_slice()) {
        return Some(later);
    }
    smaller_crowd(problem, choices)
}

// The later needs whose vias lie in the via of one of them, where these are a crowd: the first such ones.
fn smaller_crowd(problem: &Problem, choices: &Numbers) -> Option<Numbers>
    requires { length choices.now < need_count problem.now }
    ensures crowd { IfSome result (IsCrowd problem.now choices.now) }
{
    let room = Room::beside(problem, choices.as_slice());
    for need in choices.len()..usize::from(problem.need_count()) {
        let names = confined(problem, choices.len(), need);
        if room.is_short(problem, need, names.as_slice()) && is_crowd(problem, choices, &names) {
            return Some(names);
        }
    }
    None
}

// Whether these needs are a crowd.
fn is_crowd(problem: &Problem, choices: &Numbers, names: &Numbers) -> bool
    requires { length choices.now ≤ need_count problem.now }
    ensures crowd { OnTrue result (IsCrowd problem.now choices.now names.now) }
{
    if !is_hall_set(problem, choices.len(), names.as_slice()) {
        return false;
    }
    is_crowded(problem, choices.as_slice(), names.as_slice())
}

// The needs from a depth on whose vias lie in the via of this one.
fn confined(problem: &Problem, depth: usize, need: usize) -> Numbers
    requires { need < need_count problem.now }
{
    let via = problem.via(need);
    let mut names = Numbers::new();
    for other in depth..usize::from(problem.need_count()) {
        if lies_in(problem.via(other), via) {
            names.push(other as u8);
        }
    }
    names
}

// Whether each of these numbers is one of the others.
fn lies_in(numbers: &[u8], others: &[u8]) -> bool {
    numbers.iter().all(|number| has(others, *number))
}
