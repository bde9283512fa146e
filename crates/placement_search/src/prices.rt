//! The prices of a Dual leaf.
ghost use Rattle.std.specs.Prelude.{◌≡◌, ◌<◌, ◌≤◌, ◌-◌, ◌^◌, ℕ, length, slice_index, All, IfOk};
ghost use Rattle.bound_certificate.specs.Problem.{site_count, need_count};
ghost use Rattle.bound_certificate.specs.Placement.{AreChoices};
ghost use Rattle.bound_certificate.specs.Floor.{floor_by};
ghost use Rattle.bound_certificate.specs.Prices.{ArePrices};
ghost use Rattle.std.specs.Bool.{OnTrue};
ghost use Rattle.placement_search.specs.Leaf.{IsFloorDual, IsDual};

use crate::ascent::Ascent;
use crate::capacity_prices::CapacityPrices;
use bound_certificate::{Problem, dual_breach, dual_value, floor_by};
use mon_io::Memory;
use sqlite_items::Items;
use std::alloc::Global;

/// A price for each need without a choice, and one for each unit of a site's capacity.
#[derive(Drop)]
pub struct Prices {
    /// By need, from the first one without a choice on.
    pub lambda: Items<u64>,
    /// By site.
    pub mu: Items<u64>,
}

/// Prices whose dual is right and whose value is at least the node's floor.
pub fn prices_at(
    alloc: Global,
    problem: &Problem,
    choices: &[u8],
    capacities: &CapacityPrices,
) -> Result<Prices, Memory>
    requires { AreChoices problem.now choices.now }
    ensures dual { IfOk result (λ prices. IsDual problem.now choices.now prices.lambda prices.mu) }
{
    let floor = floor_dual(alloc, problem, choices)?;
    let free = CapacityPrices::none();
    let raised = better_prices(alloc, problem, choices, &free, floor)?;
    better_prices(alloc, problem, choices, capacities, raised)
}

// These right prices, or raised ones of a greater value under prices of the capacities.
fn better_prices(
    alloc: Global,
    problem: &Problem,
    choices: &[u8],
    capacities: &CapacityPrices,
    prices: Prices,
) -> Result<Prices, Memory>
    requires choices { AreChoices problem.now choices.now }
    requires dual { IsDual problem.now choices.now prices.lambda prices.mu }
    ensures dual { IfOk result (λ better. IsDual problem.now choices.now better.lambda better.mu) }
{
    let raised = raised_prices(alloc, problem, choices, capacities)?;
    if is_better(problem, choices, &raised, &prices) {
        return Ok(raised);
    }
    Ok(prices)
}

// A guess at prices of a greater value, under prices of the capacities.
fn raised_prices(
    alloc: Global,
    problem: &Problem,
    choices: &[u8],
    capacities: &CapacityPrices,
) -> Result<Prices, Memory> {
    let mut lambda = Items::new(alloc);
    let ascent = Ascent::new(problem, choices, capacities);
    for need in choices.len()..usize::from(problem.need_count()) {
        if lambda.push(ascent.level(need)).is_err() {
            return Err(Memory);
        }
    }
    let mu = priced_sites(alloc, problem, capacities)?;
    Ok(Prices { lambda, mu })
}

// The price of each site.
fn priced_sites(
    alloc: Global,
    problem: &Problem,
    capacities: &CapacityPrices,
) -> Result<Items<u64>, Memory> {
    let mut mu = Items::new(alloc);
    for site in 0..problem.site_count() {
        if mu.push(capacities.at(site)).is_err() {
            return Err(Memory);
        }
    }
    Ok(mu)
}

// Whether prices are right and of a greater value than these right ones.
fn is_better(problem: &Problem, choices: &[u8], prices: &Prices, floor: &Prices) -> bool
    requires choices { AreChoices problem.now choices.now }
    requires floor { IsDual problem.now choices.now floor.now.lambda floor.now.mu }
    ensures dual { OnTrue result (IsDual problem.now choices.now prices.now.lambda prices.now.mu) }
{
    let lambda = prices.lambda.as_slice();
    let mu = prices.mu.as_slice();
    if !are_prices(problem, choices, lambda, mu) {
        return false;
    }
    if dual_breach(problem, choices, lambda, mu).is_some() {
        return false;
    }
    let least = dual_value(
        problem,
        choices,
        floor.lambda.as_slice(),
        floor.mu.as_slice(),
    );
    least < dual_value(problem, choices, lambda, mu)
}

// Whether there is one lambda for each later need and one mu for each site, all within the limits.
fn are_prices(problem: &Problem, choices: &[u8], lambda: &[u64], mu: &[u64]) -> bool
    requires { length choices.now ≤ need_count problem.now }
    ensures prices { OnTrue result (ArePrices problem.now choices.now lambda.now mu.now) }
{
    let later = usize::from(problem.need_count()) - choices.len();
    let fits = lambda.len() == later && mu.len() == usize::from(problem.site_count());
    fits && are_small(lambda) && are_small(mu)
}

// Whether all of these numbers are below 2^56.
fn are_small(numbers: &[u64]) -> bool
    ensures small { OnTrue result (All (λ x. x < 2 ^ 56) numbers.now) }
{
    for number in numbers {
        if *number >= 1 << 56 {
            return false;
        }
    }
    true
}

// The prices whose value is the node's floor, as a right dual.
fn floor_dual(alloc: Global, problem: &Problem, choices: &[u8]) -> Result<Prices, Memory>
    requires { AreChoices problem.now choices.now }
    ensures dual { IfOk result (λ prices. IsDual problem.now choices.now prices.lambda prices.mu) }
{
    let floor = floor_prices(alloc, problem, choices)?;
    Ok(floor)
}

// The prices whose value is the node's floor.
fn floor_prices(alloc: Global, problem: &Problem, choices: &[u8]) -> Result<Prices, Memory>
    requires { AreChoices problem.now choices.now }
    ensures floor { IfOk result (λ prices. IsFloorDual problem.now choices.now prices.lambda prices.mu) }
{
    let lambda = least_prices(alloc, problem, choices)?;
    let mu = free_sites(alloc, problem)?;
    Ok(Prices { lambda, mu })
}

// The least that each later need costs.
fn least_prices(alloc: Global, problem: &Problem, choices: &[u8]) -> Result<Items<u64>, Memory>
    requires { length choices.now ≤ need_count problem.now }
    ensures size { IfOk result (λ lambda. length lambda ≡ need_count problem.now - length choices.now) }
    ensures least { IfOk result (λ lambda. (j : ℕ) → j < length lambda
        → slice_index lambda j ≡ floor_by problem.now choices.now j) }
    ensures small { IfOk result (All (λ x. x < 2 ^ 56)) }
{
    let mut lambda = Items::new(alloc);
    let later = usize::from(problem.need_count()) - choices.len();
    for j in 0..later {
        let least = floor_by(problem, choices, j);
        if lambda.push(least).is_err() {
            return Err(Memory);
        }
    }
    Ok(lambda)
}

// A price of 0 for each site.
fn free_sites(alloc: Global, problem: &Problem) -> Result<Items<u64>, Memory>
    ensures size { IfOk result (λ mu. length mu ≡ site_count problem.now) }
    ensures free { IfOk result (λ mu. (s : ℕ) → slice_index mu s ≡ 0) }
{
    let mut mu = Items::new(alloc);
    for _ in 0..problem.site_count() {
        if mu.push(0).is_err() {
            return Err(Memory);
        }
    }
    Ok(mu)
}
