//! The load that a placement gives to a switch.
ghost use Rattle.std.specs.Prelude.{◌≡◌, ◌≤◌, ◌<◌, length};
ghost use Rattle.bound_certificate.specs.Problem.{need_count};
ghost use Rattle.bound_certificate.specs.Placement.{given, given_by};

use bound_certificate::Problem;

/// The sum of the loads of the needs that are placed at a switch. There is no more than one number of
/// a switch for each need.
#[tactic(auto, unfolding(bound_certificate::specs::Placement::given))]
pub(crate) fn given_load(problem: &Problem, sites: &[u8], switch: u8) -> u64
    requires { length sites.now ≤ need_count problem.now }
    ensures value { result ≡ given problem.now sites.now switch }
{
    let mut sum = 0;
    for need in 0..sites.len() {
        sum += load_from(problem, sites, switch, need);
    }
    sum
}

// What a need gives to a switch: its load, where it is placed there.
#[tactic(auto, unfolding(bound_certificate::specs::Placement::given_by))]
fn load_from(problem: &Problem, sites: &[u8], switch: u8, need: usize) -> u64
    requires need { need < length sites.now }
    requires few { length sites.now ≤ need_count problem.now }
    ensures value { result ≡ given_by problem.now sites.now switch need }
    ensures bound { result ≤ 65535 }
    ensures few { need_count problem.now ≤ 64 }
{
    let load = problem.load(need);
    if sites[need] == switch {
        u64::from(load)
    } else {
        0
    }
}
