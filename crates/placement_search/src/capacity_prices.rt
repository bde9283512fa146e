//! A guess at prices of the sites' capacities, under which the dual of the root is great. How great isn't claimed:
//! what takes the prices tests them.
ghost use Rattle.std.specs.Prelude.{◌≡◌, ◌==◌, ◌<◌, slice_index, true};
ghost use Rattle.std.specs.List.{list_all};

use crate::ascent::Ascent;
use bound_certificate::Problem;

/// How often the prices follow the demand.
const ROUNDS: u64 = 200;

/// A step counts so many parts of a price.
const PARTS: u64 = 1024;

/// The step of round 0 is this many units, divided by the slowness; that of a later round is less by its number.
const FIRST_STEP: u64 = 16;

const SLOWNESS: u64 = 10;

/// A site's price is first changed by this many units, and how often that is halved.
const FIRST_CHANGE: u64 = 4;

const HALVINGS: u32 = 8;

/// A price for each unit of a site's capacity.
#[derive(Clone, Copy)]
pub struct CapacityPrices {
    mu: [u64; 32],
}

impl CapacityPrices {
    /// No price.
    pub fn none() -> CapacityPrices
        ensures free { list_all (λ price. price == 0) result.mu ≡ true }
    {
        CapacityPrices { mu: [0; 32] }
    }

    /// The price of a site's unit.
    pub fn at(&self, site: u8) -> u64
        requires { site < 32 }
        ensures value { result ≡ slice_index self.now.mu site }
    {
        self.mu[usize::from(site)]
    }

    /// The best prices of a search by demand and then site by site. A unit of load costs about so much.
    pub(crate) fn guess(problem: &Problem, unit: u64) -> CapacityPrices {
        let mut best = Trial::of(problem, CapacityPrices::none());
        best.follow_demand(problem, unit);
        let mut change = unit.saturating_mul(FIRST_CHANGE).max(1);
        for _ in 0..HALVINGS {
            best.try_sites(problem, change);
            change = (change / 2).max(1);
        }
        best.prices
    }

    // With another price of a site.
    fn with(self, site: u8, mu: u64) -> CapacityPrices
        requires { site < 32 }
    {
        let mut prices = self;
        prices.mu[usize::from(site)] = mu;
        prices
    }
}

// Prices, and the value of the root's dual under them.
#[derive(Clone, Copy)]
struct Trial {
    prices: CapacityPrices,
    value: u64,
}

impl Trial {
    fn of(problem: &Problem, prices: CapacityPrices) -> Trial {
        let ascent = Ascent::new(problem, &[], &prices);
        Trial {
            prices,
            value: ascent.value(problem, &prices),
        }
    }

    // Keeps the prices of the greater value; whether they are new.
    fn offer(&mut self, problem: &Problem, prices: CapacityPrices) -> bool {
        let other = Trial::of(problem, prices);
        let is_better = other.value > self.value;
        if is_better {
            self.prices = other.prices;
            self.value = other.value;
        }
        is_better
    }

    // Raises the price of a site whose demand is above its capacity, and lowers that of any other, in smaller and
    // smaller steps.
    fn follow_demand(&mut self, problem: &Problem, unit: u64) {
        let mut parts = CapacityPrices::none();
        for round in 0..ROUNDS {
            let prices = whole(&parts);
            let ascent = Ascent::new(problem, &[], &prices);
            self.offer(problem, prices);
            let step = unit.saturating_mul(FIRST_STEP * PARTS) / (SLOWNESS + round);
            parts = moved(problem, &parts, &ascent, step);
        }
    }

    // Tries a greater and a lesser price of each site in turn.
    fn try_sites(&mut self, problem: &Problem, change: u64) {
        for site in 0..problem.site_count() {
            let mu = self.prices.at(site);
            let raised = self.prices.with(site, mu.saturating_add(change));
            if !self.offer(problem, raised) && mu > 0 {
                let lowered = self.prices.with(site, mu.saturating_sub(change));
                self.offer(problem, lowered);
            }
        }
    }
}

// The whole prices of parts.
fn whole(parts: &CapacityPrices) -> CapacityPrices {
    let mut prices = CapacityPrices::none();
    for site in 0..32u8 {
        prices = prices.with(site, parts.at(site) / PARTS);
    }
    prices
}

// The parts behind a step by the demand of each site.
fn moved(problem: &Problem, parts: &CapacityPrices, ascent: &Ascent, step: u64) -> CapacityPrices {
    let demand = ascent.demand(problem);
    let mut prices = CapacityPrices::none();
    for site in 0..problem.site_count() {
        let place = usize::from(site);
        let capacity = u64::from(problem.capacity(place));
        let wanted = demand[place];
        let change = step.saturating_mul(wanted.abs_diff(capacity)) / capacity.max(1);
        let old = parts.at(site);
        let mu = if wanted > capacity {
            old.saturating_add(change)
        } else {
            old.saturating_sub(change)
        };
        prices = prices.with(site, mu);
    }
    prices
}
