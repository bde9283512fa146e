//! Prices that bound the cost from below.
ghost use Rattle.std.specs.Prelude.{◌≡◌, ◌≤◌, ◌<◌, ◌+◌, ◌-◌, ◌*◌, ◌^◌, ℕ, length, sum, All, slice_index, Option, pos, ◌-ℤ◌, IfSome};
ghost use Rattle.std.specs.Bool.{OnTrue};
ghost use Rattle.bound_certificate.specs.Problem.{site_count, need_count};
ghost use Rattle.bound_certificate.specs.Placement.{AreChoices};
ghost use Rattle.bound_certificate.specs.Node.{excess, dual_sum, dual_limit, is_breached, dual_breach, is_dual_shape, priced_given_by, priced_capacity_by, dual_credit, dual_debit, dual_value};
ghost use Rattle.bound_certificate.specs.Sums.{sum_below};
ghost use Rattle.bound_certificate.specs.Prices.{ArePrices};

use crate::Problem;
use crate::choices::{cost_of, given};
use crate::numbers::has;

/// Whether there is one lambda for each need without a choice, and one mu for each site.
#[tactic(auto, unfolding(crate::specs::Node::is_dual_shape))]
pub(crate) fn is_dual_shape(problem: &Problem, choices: &[u8], lambda: &[u64], mu: &[u64]) -> bool
    requires { length choices.now ≤ need_count problem.now }
    ensures value { result ≡ is_dual_shape problem.now choices.now lambda.now mu.now }
{
    lambda.len() == usize::from(problem.need_count()) - choices.len()
        && mu.len() == usize::from(problem.site_count())
}

/// The first site whose sum is above its limit, if there is one. A site's sum adds, over the needs without a
/// choice that have it in their via, by how much lambda is above the need's cost there at these prices.
#[tactic(auto, unfolding(crate::specs::Node::dual_breach))]
pub fn dual_breach(problem: &Problem, choices: &[u8], lambda: &[u64], mu: &[u64]) -> Option<u8>
    requires { ArePrices problem.now choices.now lambda.now mu.now }
    ensures value { result ≡ dual_breach problem.now choices.now lambda.now mu.now }
{
    for site in 0..problem.site_count() {
        if is_breached(problem, choices, lambda, mu, site) {
            return Some(site);
        }
    }
    None
}

/// The value of a dual: the cost of the choices, and the lambdas, less what the sites have left at the prices mu.
#[tactic(auto, unfolding(crate::specs::Node::dual_value))]
pub fn dual_value(problem: &Problem, choices: &[u8], lambda: &[u64], mu: &[u64]) -> i128
    requires choices { AreChoices problem.now choices.now }
    requires prices { ArePrices problem.now choices.now lambda.now mu.now }
    ensures value { result ≡ dual_value problem.now choices.now lambda.now mu.now }
{
    difference(
        dual_credit(problem, choices, lambda, mu),
        dual_debit(problem, mu),
    )
}

fn difference(credit: u128, debit: u128) -> i128
    requires credit { credit < 2 ^ 100 }
    requires debit { debit < 2 ^ 100 }
    ensures { result ≡ pos credit -ℤ pos debit }
{
    credit as i128 - debit as i128
}

// Whether a site's sum is above its limit.
#[tactic(auto, unfolding(crate::specs::Node::is_breached))]
fn is_breached(problem: &Problem, choices: &[u8], lambda: &[u64], mu: &[u64], site: u8) -> bool
    requires prices { ArePrices problem.now choices.now lambda.now mu.now }
    requires site { site < site_count problem.now }
    ensures { result ≡ is_breached problem.now choices.now lambda.now mu.now site }
{
    u128::from(dual_limit(problem, choices, site)) < dual_sum(problem, choices, lambda, mu, site)
}

/// What opening a site would cost, and nothing where a choice opened it.
#[tactic(auto, unfolding(crate::specs::Node::dual_limit))]
pub fn dual_limit(problem: &Problem, choices: &[u8], site: u8) -> u32
    requires { site < site_count problem.now }
    ensures value { result ≡ dual_limit problem.now choices.now site }
{
    if has(choices, site) {
        0
    } else {
        problem.opening(usize::from(site))
    }
}

// A site's sum.
#[tactic(auto, unfolding(crate::specs::Node::dual_sum))]
fn dual_sum(problem: &Problem, choices: &[u8], lambda: &[u64], mu: &[u64], site: u8) -> u128
    requires prices { ArePrices problem.now choices.now lambda.now mu.now }
    requires site { site < site_count problem.now }
    ensures { result ≡ dual_sum problem.now choices.now lambda.now mu.now site }
{
    let mut sum = 0;
    for j in 0..lambda.len() {
        sum += excess(problem, choices, lambda, mu, site, j);
    }
    sum
}

// By how much a lambda is above what its need costs at a site.
#[tactic(auto, unfolding(crate::specs::Node::excess))]
fn excess(problem: &Problem, choices: &[u8], lambda: &[u64], mu: &[u64], site: u8, j: usize) -> u128
    requires prices { ArePrices problem.now choices.now lambda.now mu.now }
    requires site { site < site_count problem.now }
    requires place { j < length lambda.now }
    ensures value { result ≡ excess problem.now choices.now lambda.now mu.now site j }
    ensures bound { result < 2 ^ 64 }
{
    let need = choices.len() + j;
    if !has(problem.via(need), site) {
        return 0;
    }
    let load = u128::from(problem.load(need));
    let service = u128::from(problem.service(usize::from(site), need));
    let price = load * u128::from(mu[usize::from(site)]);
    u128::from(lambda[j]).saturating_sub(service + price)
}

// The cost of the choices, the lambdas, and what the choices give to the sites, at the prices mu.
#[tactic(auto, unfolding(crate::specs::Node::dual_credit))]
fn dual_credit(problem: &Problem, choices: &[u8], lambda: &[u64], mu: &[u64]) -> u128
    requires choices { AreChoices problem.now choices.now }
    requires prices { ArePrices problem.now choices.now lambda.now mu.now }
    ensures value { result ≡ dual_credit problem.now choices.now lambda.now mu.now }
    ensures bound { result < 2 ^ 100 }
{
    u128::from(cost_of(problem, choices)) + total(lambda) + priced_given(problem, choices, mu)
}

// The sum of the lambdas.
fn total(lambda: &[u64]) -> u128
    requires few { length lambda.now ≤ 64 }
    requires small { All (λ x. x < 2 ^ 56) lambda.now }
    ensures value { result ≡ sum lambda.now }
    ensures bound { result ≤ 2 ^ 62 }
{
    let mut sum = 0;
    for x in lambda {
        sum += u128::from(*x);
    }
    sum
}

// What the choices give to the sites, at the prices mu.
fn priced_given(problem: &Problem, choices: &[u8], mu: &[u64]) -> u128
    requires few { length choices.now ≤ need_count problem.now }
    requires mus { length mu.now ≡ site_count problem.now }
    requires small { All (λ x. x < 2 ^ 56) mu.now }
    ensures value { result ≡ sum_below (priced_given_by problem.now choices.now mu.now) (site_count problem.now) }
    ensures bound { result ≤ 2 ^ 83 }
{
    let mut sum = 0;
    for site in 0..problem.site_count() {
        sum += priced_given_by(problem, choices, mu, site);
    }
    sum
}

#[tactic(auto, unfolding(crate::specs::Node::priced_given_by))]
fn priced_given_by(problem: &Problem, choices: &[u8], mu: &[u64], site: u8) -> u128
    requires few { length choices.now ≤ need_count problem.now }
    requires mus { length mu.now ≡ site_count problem.now }
    requires small { All (λ x. x < 2 ^ 56) mu.now }
    requires site { site < site_count problem.now }
    ensures value { result ≡ priced_given_by problem.now choices.now mu.now site }
    ensures bound { result ≤ 2 ^ 78 }
{
    u128::from(given(problem, choices, site)) * u128::from(mu[usize::from(site)])
}

// What the sites' capacities cost at the prices mu.
#[tactic(auto, unfolding(crate::specs::Node::dual_debit))]
fn dual_debit(problem: &Problem, mu: &[u64]) -> u128
    requires mus { length mu.now ≡ site_count problem.now }
    requires small { All (λ x. x < 2 ^ 56) mu.now }
    ensures value { result ≡ dual_debit problem.now mu.now }
    ensures bound { result < 2 ^ 100 }
{
    let mut sum = 0;
    for site in 0..problem.site_count() {
        sum += priced_capacity_by(problem, mu, site);
    }
    sum
}

#[tactic(auto, unfolding(crate::specs::Node::priced_capacity_by))]
fn priced_capacity_by(problem: &Problem, mu: &[u64], site: u8) -> u128
    requires mus { length mu.now ≡ site_count problem.now }
    requires small { All (λ x. x < 2 ^ 56) mu.now }
    requires site { site < site_count problem.now }
    ensures value { result ≡ priced_capacity_by problem.now mu.now site }
    ensures bound { result ≤ 2 ^ 88 }
{
    u128::from(problem.capacity(usize::from(site))) * u128::from(mu[usize::from(site)])
}
