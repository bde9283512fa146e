//! A guess at a good placement: a walk among neighbouring choices, which may step up in cost by less and less
//! (threshold accepting, Dueck and Scheuer 1990). How good it is isn't claimed: what it finds is tested before it is
//! taken.
ghost use Rattle.std.specs.Prelude.{◌≡◌, ◌<◌, None, IfSome, length};
ghost use Rattle.bound_certificate.specs.Problem.{need_count};

use crate::loads::{Loads, Price};
use bound_certificate::{Numbers, Problem, has};
use rand_core::SeedableRng;
use rand_core::utils::NextWord;
use rand_xoshiro::Xoshiro256PlusPlus;

/// How many steps are tried for each need.
const STEPS: u64 = 600;

/// The first step may raise the cost by this many mean costs of a need.
const MEANS: u64 = 2;

/// The mean load above a capacity counts this many times that rise.
const EXCESS: u64 = 8;

/// The seed of the draws.
const SEED: u64 = 1;

/// The best placement within capacities that a walk from these choices comes by, if any; a need without a choice
/// begins at the first site of its via. Takes no memory.
pub fn walk(problem: &Problem, start: &[u8]) -> Option<Numbers>
    ensures all { IfSome result (λ sites. length sites ≡ need_count problem.now) }
{
    let mut walk = Walker::new(problem, start);
    let mut draws = Xoshiro256PlusPlus::seed_from_u64(SEED);
    for left in (0..walk.steps).rev() {
        walk.try_step(problem, &mut draws, left);
        walk.note(problem);
    }
    walk.best
}

// A walk, and the best placement that it came by.
#[derive(Drop)]
struct Walker {
    loads: Loads,
    price: Price,
    steps: u64,
    // By how much the first step may raise the cost.
    rise: u64,
    // What a unit of load above a capacity counts.
    penalty: u64,
    best: Option<Numbers>,
    best_cost: u64,
}

// A need's step from one site to another, and another need's step back, where there is one.
#[derive(Clone, Copy)]
struct Step {
    need: u8,
    from: u8,
    to: u8,
    back: Option<u8>,
}

impl Step {
    // The step that undoes it.
    fn reversed(self) -> Step
        ensures need { result.need ≡ self.need }
        ensures back { result.back ≡ self.back }
    {
        Step {
            need: self.need,
            from: self.to,
            to: self.from,
            back: self.back,
        }
    }
}

impl Walker {
    // A walk from these choices, before its first step.
    fn new(problem: &Problem, start: &[u8]) -> Walker
        ensures none { result.best ≡ None }
    {
        let loads = Loads::of(problem, start);
        let price = loads.total(problem);
        let needs = u64::from(problem.need_count());
        let rise = (price.cost / needs.max(1)).saturating_mul(MEANS);
        let mean_load = loads.carried() / needs.max(1);
        Walker {
            loads,
            price,
            steps: STEPS * needs,
            rise,
            penalty: (rise.saturating_mul(EXCESS) / mean_load.max(1)).saturating_add(1),
            best: None,
            best_cost: u64::MAX,
        }
    }

    // Takes a drawn step where it does not raise the cost by more than it may with so many steps left.
    fn try_step(&mut self, problem: &Problem, draws: &mut Xoshiro256PlusPlus, left: u64)
        ensures stays { self.new.best ≡ self.old.best }
    {
        let Some(step) = self.drawn(problem, draws) else {
            return;
        };
        let rise = self.rise.saturating_mul(left) / self.steps.max(1);
        let before = self.price_around(problem, step);
        self.make(problem, step);
        let after = self.price_around(problem, step);
        let most = before.with_penalty(self.penalty).saturating_add(rise);
        if after.with_penalty(self.penalty) <= most {
            self.price = self.price.less(before).plus(after);
        } else {
            self.make(problem, step.reversed());
        }
    }

    // A step of a drawn need to a drawn site; None where it is there. A second drawn need steps back where it can.
    fn drawn(&self, problem: &Problem, draws: &mut Xoshiro256PlusPlus) -> Option<Step>
        ensures need { IfSome result (λ step. step.need < need_count problem.now) }
        ensures back { IfSome result (λ step. IfSome step.back (λ other. other < need_count problem.now)) }
    {
        let need = below(draws, problem.need_count());
        let other = below(draws, problem.need_count());
        let to = drawn_site(problem, draws, need);
        let from = self.loads.site(need);
        if to == from {
            return None;
        }
        let goes_back = self.loads.site(other) == to && has(problem.via(usize::from(other)), from);
        Some(Step {
            need,
            from,
            to,
            back: if goes_back { Some(other) } else { None },
        })
    }

    // The price of the two sites of a step.
    fn price_around(&self, problem: &Problem, step: Step) -> Price {
        let from = self.loads.price(problem, step.from);
        from.plus(self.loads.price(problem, step.to))
    }

    fn make(&mut self, problem: &Problem, step: Step)
        requires need { step.need < need_count problem.now }
        requires back { IfSome step.back (λ other. other < need_count problem.now) }
        ensures stays { self.new.best ≡ self.old.best }
    {
        self.loads.put(problem, step.need, step.to);
        if let Some(other) = step.back {
            self.loads.put(problem, other, step.from);
        }
    }

    // Keeps the choices where none is above its capacity and they cost less than those kept.
    fn note(&mut self, problem: &Problem)
        ensures all { IfSome self.old.best (λ sites. length sites ≡ need_count problem.now) →
            IfSome self.new.best (λ sites. length sites ≡ need_count problem.now) }
    {
        if self.price.over == 0 && self.price.cost < self.best_cost {
            self.best_cost = self.price.cost;
            self.best = Some(self.loads.choices(problem));
        }
    }
}

// A drawn site of a need's via, each as likely as another.
fn drawn_site(problem: &Problem, draws: &mut Xoshiro256PlusPlus, need: u8) -> u8
    requires { need < need_count problem.now }
{
    let via = problem.via(usize::from(need));
    let place = below(draws, via.len() as u8);
    via[usize::from(place)]
}

// A drawn number below this one.
fn below(draws: &mut Xoshiro256PlusPlus, bound: u8) -> u8
    requires { 0 < bound }
    ensures below { result < bound }
{
    ((draws.next_word() >> 32) % u64::from(bound)) as u8
}
