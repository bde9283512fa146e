//! A guess at a good placement: need by need, the site whose dual promises the least cost.
ghost use Rattle.std.specs.Prelude.{◌≡◌, ◌⊎◌, ◌<◌, ◌≤◌, [], ◌∷◌, ◌++◌, length, IfSome, IsTrue};
ghost use Rattle.bound_certificate.specs.Problem.{need_count, via};
ghost use Rattle.bound_certificate.specs.Placement.{AreChoices};
ghost use Rattle.bound_certificate.specs.Sums.{has};

use crate::ascent::Ascent;
use crate::capacity_prices::CapacityPrices;
use bound_certificate::{Numbers, Problem, cost_of, is_over};

// A site for the next need, and what the cost would be at least.
#[derive(Clone, Copy)]
struct Guess {
    site: u8,
    estimate: u64,
}

/// A site of its via for each need, in order: the one with room left whose estimate is the least. None where some
/// need finds none. Takes no memory.
pub fn dive(problem: &Problem) -> Option<Numbers>
    ensures chosen { IfSome result (AreChoices problem.now) }
    ensures all { IfSome result (λ sites. length sites ≡ need_count problem.now) }
{
    let mut choices = Numbers::new();
    for _ in 0..problem.need_count() {
        let Some(guess) = best_guess(problem, &choices) else {
            return None;
        };
        choices.push(guess.site);
    }
    Some(choices)
}

// The site of the next need with the least estimate.
fn best_guess(problem: &Problem, choices: &Numbers) -> Option<Guess>
    requires above { length choices.now < need_count problem.now }
    requires choices { AreChoices problem.now choices.now }
    ensures stands { IfSome result (λ guess. IsTrue (has (via problem.now (length choices.now)) guess.site)) }
{
    let mut best = None;
    for site in problem.via(choices.len()) {
        let guess = estimate(problem, choices, *site);
        best = lesser(best, guess);
    }
    best
}

// The guess with the lesser estimate.
fn lesser(one: Option<Guess>, other: Option<Guess>) -> Option<Guess>
    ensures either { (result ≡ one) ⊎ (result ≡ other) }
{
    match (one, other) {
        (None, other) => other,
        (Some(one), None) => Some(one),
        (Some(one), Some(other)) => {
            if other.estimate < one.estimate {
                Some(other)
            } else {
                Some(one)
            }
        }
    }
}

// What the cost would be at least with this site for the next need; None where it has no room.
fn estimate(problem: &Problem, choices: &Numbers, site: u8) -> Option<Guess>
    requires above { length choices.now < need_count problem.now }
    requires few { need_count problem.now ≤ 64 }
    requires choices { AreChoices problem.now choices.now }
    requires site { IsTrue (has (via problem.now (length choices.now)) site) }
    ensures site { IfSome result (λ guess. guess.site ≡ site) }
{
    let child = choices.with(site);
    let sites = child.as_slice();
    if is_over(problem, sites) {
        return None;
    }
    let cost = cost_of(problem, sites);
    let later = Ascent::new(problem, sites, &CapacityPrices::none()).total(problem, sites.len());
    Some(Guess {
        site,
        estimate: cost.saturating_add(later),
    })
}
