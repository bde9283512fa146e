//! A guess at the prices of a dual: lambdas raised as long as the sites' limits allow it. Nothing is claimed of
//! them here; what takes them tests them.
ghost use Rattle.std.specs.Prelude.{◌≡◌, ◌<◌, ◌≤◌, slice_index};
ghost use Rattle.bound_certificate.specs.Problem.{site_count, need_count};

use crate::capacity_prices::CapacityPrices;
use bound_certificate::{Problem, dual_limit};

/// How often each lambda is raised at most.
const ROUNDS: u32 = 64;

/// What a site counts beside its cost where its limit is not used up.
const UNPAID: u64 = 1 << 60;

/// The lambda of each need, and what is left of each site's limit, under prices of the capacities.
#[derive(Drop)]
pub struct Ascent {
    levels: [u64; 64],
    slack: [u64; 32],
    prices: CapacityPrices,
}

impl Ascent {
    /// The raised lambdas of the needs without a choice. Each starts at the least that its need costs. In each
    /// round each is raised to the next cost of its need at a site, or as far as the least limit of the sites
    /// that cost no more than it.
    pub(crate) fn new(problem: &Problem, choices: &[u8], prices: &CapacityPrices) -> Ascent {
        let mut ascent = Ascent {
            levels: least_levels(problem, prices),
            slack: limits(problem, choices),
            prices: *prices,
        };
        for _ in 0..ROUNDS {
            if !ascent.raise_all(problem, choices.len()) {
                break;
            }
        }
        ascent
    }

    /// The lambda of a need.
    pub fn level(&self, need: usize) -> u64
        requires { need < 64 }
        ensures value { result ≡ slice_index self.now.levels need }
    {
        self.levels[need]
    }

    /// The sum of the lambdas of the needs from this one on.
    pub(crate) fn total(&self, problem: &Problem, from: usize) -> u64 {
        let mut sum: u64 = 0;
        for need in from..usize::from(problem.need_count()) {
            sum = sum.saturating_add(self.levels[need]);
        }
        sum
    }

    /// What the lambdas of all needs are above the prices of all capacities.
    pub(crate) fn value(&self, problem: &Problem, prices: &CapacityPrices) -> u64 {
        let mut debit: u64 = 0;
        for site in 0..problem.site_count() {
            let capacity = u64::from(problem.capacity(usize::from(site)));
            debit = debit.saturating_add(prices.at(site).saturating_mul(capacity));
        }
        self.total(problem, 0).saturating_sub(debit)
    }

    /// The load that each site would have, were each need at the cheapest site of its via that is paid for.
    pub(crate) fn demand(&self, problem: &Problem) -> [u64; 32] {
        let mut demand = [0; 32];
        for need in 0..usize::from(problem.need_count()) {
            let place = usize::from(self.cheapest(problem, need));
            let load = u64::from(problem.load(need));
            demand[place] = load.saturating_add(demand[place]);
        }
        demand
    }

    // The cheapest site of a need's via whose limit is used up, or else the cheapest of all.
    fn cheapest(&self, problem: &Problem, need: usize) -> u8
        requires { need < need_count problem.now }
        ensures known { result < 32 }
    {
        let via = problem.via(need);
        let mut cheapest = via[0];
        let mut least = u64::MAX;
        for site in via {
            let rank = self.rank(problem, *site, need);
            if rank < least {
                least = rank;
                cheapest = *site;
            }
        }
        cheapest
    }

    // What a need costs at a site, and more than at any other where its limit is not used up by then.
    fn rank(&self, problem: &Problem, site: u8, need: usize) -> u64
        requires site { site < site_count problem.now }
        requires known { site < 32 }
        requires need { need < need_count problem.now }
        requires few { need_count problem.now ≤ 64 }
    {
        let own = cost(problem, &self.prices, site, need);
        if self.slack[usize::from(site)] == 0 && own <= self.levels[need] {
            own
        } else {
            own.saturating_add(UNPAID)
        }
    }

    // Raises each lambda once; whether one rose.
    fn raise_all(&mut self, problem: &Problem, from: usize) -> bool {
        let mut has_risen = false;
        for need in from..usize::from(problem.need_count()) {
            if self.raise(problem, need) {
                has_risen = true;
            }
        }
        has_risen
    }

    // Raises the lambda of a need; whether it rose.
    fn raise(&mut self, problem: &Problem, need: usize) -> bool
        requires { need < need_count problem.now }
    {
        let step = self.step(problem, need);
        if step == 0 {
            return false;
        }
        self.press(problem, need, step);
        self.levels[need] = self.levels[need].saturating_add(step);
        true
    }

    // How far the lambda of a need can rise: to the next cost, and as the sites' limits allow.
    fn step(&self, problem: &Problem, need: usize) -> u64
        requires { need < need_count problem.now }
        ensures few { need_count problem.now ≤ 64 }
    {
        let via = problem.via(need);
        let level = self.levels[need];
        let mut step = u64::MAX;
        for site in via {
            let price = cost(problem, &self.prices, *site, need);
            if level < price {
                step = step.min(price - level);
            } else {
                step = step.min(self.slack[usize::from(*site)]);
            }
        }
        step
    }

    // Takes a step off the limits of the sites where the need costs no more than its lambda.
    fn press(&mut self, problem: &Problem, need: usize, step: u64)
        requires { need < need_count problem.now }
    {
        let via = problem.via(need);
        let level = self.levels[need];
        for site in via {
            if cost(problem, &self.prices, *site, need) <= level {
                let left = self.slack[usize::from(*site)];
                self.slack[usize::from(*site)] = left.saturating_sub(step);
            }
        }
    }
}

// What a need costs at a site, with its part of the capacity.
fn cost(problem: &Problem, prices: &CapacityPrices, site: u8, need: usize) -> u64
    requires site { site < site_count problem.now }
    requires known { site < 32 }
    requires need { need < need_count problem.now }
{
    let load = u64::from(problem.load(need));
    let service = problem.service(usize::from(site), need);
    service.saturating_add(load.saturating_mul(prices.at(site)))
}

// The least that each need costs at a site of its via.
fn least_levels(problem: &Problem, prices: &CapacityPrices) -> [u64; 64] {
    let mut levels = [0; 64];
    for need in 0..usize::from(problem.need_count()) {
        levels[need] = least_cost(problem, prices, need);
    }
    levels
}

fn least_cost(problem: &Problem, prices: &CapacityPrices, need: usize) -> u64
    requires { need < need_count problem.now }
{
    let mut least = u64::MAX;
    for site in problem.via(need) {
        least = least.min(cost(problem, prices, *site, need));
    }
    least
}

// What opening each site would cost beside the choices.
fn limits(problem: &Problem, choices: &[u8]) -> [u64; 32] {
    let mut limits = [0; 32];
    for site in 0..problem.site_count() {
        limits[usize::from(site)] = u64::from(dual_limit(problem, choices, site));
    }
    limits
}
