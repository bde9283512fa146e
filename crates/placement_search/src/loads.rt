//! A site for each need, and what these choices put on the sites. What it helps to find is tested before it is taken.
//! Sums that are too large stay at their greatest.
ghost use Rattle.std.specs.Prelude.{◌≡◌, ◌<◌, ◌+◌, ◌-◌, ◌*◌, ◌^◌, ℕ, min, take, length, slice_index, slice_set};
ghost use Rattle.bound_certificate.specs.Problem.{need_count, site_count, capacity};

use bound_certificate::{Numbers, Problem};

/// How many numbers a byte has, and so how many a site may have.
const NUMBERS: usize = 256;

/// A cost, and how much load is above capacities.
#[derive(Clone, Copy)]
pub struct Price {
    pub cost: u64,
    pub over: u64,
}

impl Price {
    /// Both together.
    pub fn plus(self, other: Price) -> Price
        ensures cost { result.cost ≡ min (self.cost + other.cost) (2 ^ 64 - 1) }
        ensures over { result.over ≡ min (self.over + other.over) (2 ^ 64 - 1) }
    {
        Price {
            cost: self.cost.saturating_add(other.cost),
            over: self.over.saturating_add(other.over),
        }
    }

    /// What is left of it without a part.
    pub fn less(self, part: Price) -> Price
        ensures cost { result.cost ≡ self.cost - part.cost }
        ensures over { result.over ≡ self.over - part.over }
    {
        Price {
            cost: self.cost.saturating_sub(part.cost),
            over: self.over.saturating_sub(part.over),
        }
    }

    /// The cost, with so much for each unit of load above a capacity.
    pub fn with_penalty(self, penalty: u64) -> u64
        ensures value { result ≡ min (self.cost + min (self.over * penalty) (2 ^ 64 - 1)) (2 ^ 64 - 1) }
    {
        self.cost.saturating_add(self.over.saturating_mul(penalty))
    }
}

/// A site for each need, with each site's load and the number of needs that it serves.
#[derive(Drop)]
pub struct Loads {
    sites: [u8; 64],
    carried: [u64; NUMBERS],
    served: [u32; NUMBERS],
}

impl Loads {
    /// The loads of these choices; a need without one has the first site of its via.
    pub fn of(problem: &Problem, choices: &[u8]) -> Loads
        ensures sites { (need : ℕ) → need < need_count problem.now → need < length choices.now →
            slice_index result.sites need ≡ slice_index choices.now need }
    {
        let mut loads = Loads {
            sites: [0; 64],
            carried: [0; NUMBERS],
            served: [0; NUMBERS],
        };
        for need in 0..problem.need_count() {
            let place = usize::from(need);
            let site = match choices.get(place) {
                Some(site) => *site,
                None => problem.via(place)[0],
            };
            loads.add(problem, need, site);
        }
        loads
    }

    /// The site of a need.
    pub fn site(&self, need: u8) -> u8
        requires { need < 64 }
        ensures value { result ≡ slice_index self.now.sites need }
    {
        self.sites[usize::from(need)]
    }

    /// Gives a need another site.
    pub fn put(&mut self, problem: &Problem, need: u8, site: u8)
        requires { need < need_count problem.now }
        ensures sites { self.new.sites ≡ slice_set self.old.sites need site }
    {
        self.take(problem, need);
        self.add(problem, need, site);
    }

    /// What a site costs with its loads, and how much they are above its capacity.
    #[tactic(auto, unfolding(bound_certificate::specs::Problem::capacity))]
    pub fn price(&self, problem: &Problem, site: u8) -> Price
        ensures over { site < site_count problem.now →
            result.over ≡ slice_index self.now.carried site - capacity problem.now site }
    {
        let Some(numbers) = problem.sites().get(usize::from(site)) else {
            return Price { cost: 0, over: 0 };
        };
        let place = usize::from(site);
        let carried = self.carried[place];
        let service = carried.saturating_mul(u64::from(numbers.unit));
        let opening = if self.served[place] == 0 {
            0
        } else {
            u64::from(numbers.opening)
        };
        Price {
            cost: service.saturating_add(opening),
            over: carried.saturating_sub(u64::from(numbers.capacity)),
        }
    }

    /// The same of all sites together.
    pub(crate) fn total(&self, problem: &Problem) -> Price {
        let mut total = Price { cost: 0, over: 0 };
        for site in 0..problem.site_count() {
            total = total.plus(self.price(problem, site));
        }
        total
    }

    /// The load on all sites together.
    pub(crate) fn carried(&self) -> u64 {
        let mut sum: u64 = 0;
        for carried in &self.carried {
            sum = sum.saturating_add(*carried);
        }
        sum
    }

    /// The sites of the needs, in their order.
    pub fn choices(&self, problem: &Problem) -> Numbers
        ensures value { result ≡ take (need_count problem.now) self.now.sites }
        ensures all { length result ≡ need_count problem.now }
    {
        let mut choices = Numbers::new();
        for need in 0..problem.need_count() {
            choices.push(self.site(need));
        }
        choices
    }

    // Puts a need's load on a site.
    fn add(&mut self, problem: &Problem, need: u8, site: u8)
        requires { need < need_count problem.now }
        ensures sites { self.new.sites ≡ slice_set self.old.sites need site }
    {
        let load = u64::from(problem.load(usize::from(need)));
        let place = usize::from(site);
        self.carried[place] = self.carried[place].saturating_add(load);
        self.served[place] = self.served[place].saturating_add(1);
        self.sites[usize::from(need)] = site;
    }

    // Takes a need's load off its site.
    fn take(&mut self, problem: &Problem, need: u8)
        requires { need < need_count problem.now }
        ensures sites { self.new.sites ≡ self.old.sites }
    {
        let load = u64::from(problem.load(usize::from(need)));
        let place = usize::from(self.site(need));
        self.carried[place] = self.carried[place].saturating_sub(load);
        self.served[place] = self.served[place].saturating_sub(1);
    }
}
