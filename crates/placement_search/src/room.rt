//! A first look at what the sites have left, which spares most tests of a crowd. Nothing is claimed of it.
ghost use Rattle.std.specs.Prelude.{◌<◌};
ghost use Rattle.bound_certificate.specs.Problem.{need_count};

use bound_certificate::Problem;

/// What each site has left beside the choices.
#[derive(Drop)]
pub struct Room {
    left: [u64; 32],
}

impl Room {
    /// The sites' capacities, less the loads of the needs that have a choice.
    pub(crate) fn beside(problem: &Problem, choices: &[u8]) -> Room {
        let mut room = Room {
            left: capacities(problem),
        };
        for (need, site) in choices.iter().enumerate() {
            room.take(problem, need, *site);
        }
        room
    }

    // Takes a need's load off a site.
    fn take(&mut self, problem: &Problem, need: usize, site: u8) {
        if need < usize::from(problem.need_count()) && site < 32 {
            let load = u64::from(problem.load(need));
            let left = self.left[usize::from(site)];
            self.left[usize::from(site)] = left.saturating_sub(load);
        }
    }

    /// Whether the sites of a need's via have less left than these needs' loads.
    pub(crate) fn is_short(&self, problem: &Problem, need: usize, names: &[u8]) -> bool
        requires { need < need_count problem.now }
    {
        self.left_at(problem.via(need)) < total_load(problem, names)
    }

    // What these sites have left together.
    fn left_at(&self, sites: &[u8]) -> u64 {
        let mut sum: u64 = 0;
        for site in sites {
            if *site < 32 {
                sum = sum.saturating_add(self.left[usize::from(*site)]);
            }
        }
        sum
    }
}

fn capacities(problem: &Problem) -> [u64; 32] {
    let mut capacities = [0; 32];
    for site in 0..problem.site_count() {
        capacities[usize::from(site)] = u64::from(problem.capacity(usize::from(site)));
    }
    capacities
}

// The load of these needs together.
fn total_load(problem: &Problem, names: &[u8]) -> u64 {
    let mut sum: u64 = 0;
    for need in names {
        if *need < problem.need_count() {
            sum = sum.saturating_add(u64::from(problem.load(usize::from(*need))));
        }
    }
    sum
}
