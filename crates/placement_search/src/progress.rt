//! The best placement so far, and the Branch nodes that are left.
ghost use Rattle.std.specs.Prelude.{◌≡◌, ◌⊎◌, None, Some, IfSome, IsTrue, not};
ghost use Rattle.bound_certificate.specs.Limits.{IsWithin};
ghost use Rattle.bound_certificate.specs.Placement.{AreChoices};
ghost use Rattle.bound_certificate.specs.Outcome.{is_no_better, is_beaten};

use crate::capacity_prices::CapacityPrices;
use bound_certificate::{Numbers, Placement, Problem, complete, cost_of, fits};
use mon_io::Memory;
use sqlite_items::Items;
use std::alloc::Global;

/// What a search keeps: the best placement that it has found, if any, and how many Branch nodes it may spend.
#[derive(Drop)]
pub struct Progress {
    /// The cost of the best placement; None where there is none yet.
    pub cost: Option<u64>,
    /// The sites of the best placement.
    pub sites: Numbers,
    /// How many Branch nodes are left.
    pub left: u32,
    /// A guess at the prices of the capacities.
    pub capacities: CapacityPrices,
}

impl Progress {
    ghost use Rattle.placement_search.specs.Kept.{IsCostOf, IsNoWorse, IsRoomy};

    /// Nothing found yet, and all nodes left.
    pub fn new(nodes: u32) -> Progress
        ensures cost { result.cost ≡ None }
        ensures left { result.left ≡ nodes }
    {
        Progress {
            cost: None,
            sites: Numbers::new(),
            left: nodes,
            capacities: CapacityPrices::none(),
        }
    }

    /// Keeps a node's completion where it costs less than the best placement.
    pub fn offer(&mut self, problem: &Problem, choices: &Numbers)
        requires choices { AreChoices problem.now choices.now }
        requires room { IsRoomy problem.now choices.now }
        ensures left { self.new.left ≡ self.old.left }
        ensures no_worse { IsNoWorse self.old self.new }
        ensures best { IfSome self.old.cost (IsCostOf problem.now self.old.sites)
            → IfSome self.new.cost (IsCostOf problem.now self.new.sites) }
        ensures beaten { IsTrue (is_beaten problem.now self.new.cost choices.now) }
        ensures within { IsWithin problem.now.sites problem.now.needs }
    {
        let Some(completed) = complete(problem, choices) else {
            return;
        };
        let cost = cost_of(problem, completed.as_slice());
        self.take(cost, completed);
    }

    /// Keeps these sites where they are a placement that fits and costs less than the best one.
    pub fn offer_sites(
        &mut self,
        alloc: Global,
        problem: &Problem,
        sites: Numbers,
    ) -> Result<(), Memory>
        ensures left { self.new.left ≡ self.old.left }
        ensures no_worse { IsNoWorse self.old self.new }
        ensures best { IfSome self.old.cost (IsCostOf problem.now self.old.sites)
            → IfSome self.new.cost (IsCostOf problem.now self.new.sites) }
    {
        let Ok(items) = Items::from_slice(alloc, sites.as_slice()) else {
            return Err(Memory);
        };
        let placement = Placement { sites: items };
        if fits(problem, &placement) {
            let cost = cost_of(problem, sites.as_slice());
            self.take(cost, sites);
        }
        Ok(())
    }

    // Keeps sites of this cost where it is less than the best cost.
    fn take(&mut self, cost: u64, sites: Numbers)
        ensures left { self.new.left ≡ self.old.left }
        ensures no_worse { IsNoWorse self.old self.new }
        ensures reached { IsTrue (is_no_better self.new.cost (Some cost)) }
        ensures either { ((self.new.cost ≡ self.old.cost) × (self.new.sites ≡ self.old.sites))
            ⊎ ((self.new.cost ≡ Some cost) × (self.new.sites ≡ sites)) }
    {
        if is_less(cost, self.cost) {
            self.cost = Some(cost);
            self.sites = sites;
        }
    }
}

// Whether a cost is less than the best one, if there is one.
fn is_less(cost: u64, best: Option<u64>) -> bool
    ensures value { result ≡ not (is_no_better best (Some cost)) }
{
    match best {
        Some(best) => cost < best,
        None => true,
    }
}
