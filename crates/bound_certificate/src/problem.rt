//! Sites and needs within their limits.
ghost use Rattle.std.specs.Prelude.{◌≡◌, ◌<◌, ◌≤◌, ◌*◌, length, All};
ghost use Rattle.bound_certificate.specs.Problem.{site_count, need_count, capacity, opening, unit, load, via};
ghost use Rattle.bound_certificate.specs.Placement.{service};
ghost use Rattle.bound_certificate.specs.Limits.{IsWithin};

use crate::{Need, Site};
use std::marker::Model;

/// A placement problem: each need wants one site of its via, and no site takes more than its capacity.
///
/// It has 1 to 32 sites and 1 to 64 needs. A load is at least 1; a via has 1 to 8 numbers of sites, no
/// number twice. Clauses see the two lists.
#[derive(Debug, Drop)]
pub struct Problem {
    sites: Vec<Site>,
    needs: Vec<Need>,
}

impl Model for Problem {
    ghost use Rattle.bound_certificate.specs.Problem.{Problem};
    ghost use Rattle.bound_certificate.specs.Limits.{IsWithin};

    ghost Value = { Problem };

    ghost view = { λ problem. record { sites = problem.sites.items; needs = problem.needs.items } };

    ghost invariant = { λ problem. IsWithin problem.sites.items problem.needs.items };
}

impl Problem {
    /// The problem of these sites and needs, which are within the limits. Takes no memory.
    pub fn new(sites: Vec<Site>, needs: Vec<Need>) -> Problem
        requires { IsWithin sites.items needs.items }
        ensures sites { result.sites ≡ sites.items }
        ensures needs { result.needs ≡ needs.items }
    {
        Problem { sites, needs }
    }

    /// The sites, by number.
    pub fn sites(&self) -> &[Site]
        ensures sites { result.now ≡ self.now.sites }
        ensures within { IsWithin self.now.sites self.now.needs }
    {
        &self.sites
    }

    /// The needs, in their order.
    pub fn needs(&self) -> &[Need]
        ensures needs { result.now ≡ self.now.needs }
        ensures within { IsWithin self.now.sites self.now.needs }
    {
        &self.needs
    }

    /// How many sites there are.
    #[inline]
    pub fn site_count(&self) -> u8
        ensures value { result ≡ site_count self.now }
        ensures few { result ≤ 32 }
        ensures few_needs { need_count self.now ≤ 64 }
        ensures within { IsWithin self.now.sites self.now.needs }
    {
        self.sites.len() as u8
    }

    /// How many needs there are.
    #[inline]
    pub fn need_count(&self) -> u8
        ensures value { result ≡ need_count self.now }
        ensures some { 1 ≤ result }
        ensures few { result ≤ 64 }
        ensures within { IsWithin self.now.sites self.now.needs }
    {
        self.needs.len() as u8
    }

    /// The capacity of a site.
    #[inline]
    #[tactic(auto, unfolding(crate::specs::Problem::capacity))]
    pub fn capacity(&self, site: usize) -> u32
        requires { site < site_count self.now }
        ensures value { result ≡ capacity self.now site }
    {
        self.sites[site].capacity
    }

    /// The cost of opening a site.
    #[inline]
    #[tactic(auto, unfolding(crate::specs::Problem::opening))]
    pub fn opening(&self, site: usize) -> u32
        requires { site < site_count self.now }
        ensures value { result ≡ opening self.now site }
    {
        self.sites[site].opening
    }

    /// The load of a need.
    #[inline]
    #[tactic(auto, unfolding(crate::specs::Problem::load))]
    pub fn load(&self, need: usize) -> u16
        requires { need < need_count self.now }
        ensures value { result ≡ load self.now need }
        ensures few { need_count self.now ≤ 64 }
    {
        self.needs[need].load
    }

    /// The sites that can serve a need.
    #[inline]
    #[tactic(auto, unfolding(crate::specs::Problem::via))]
    pub fn via(&self, need: usize) -> &[u8]
        requires { need < need_count self.now }
        ensures value { result.now ≡ via self.now need }
        ensures some { 1 ≤ length result.now }
        ensures few { length result.now ≤ 8 }
        ensures known { All (λ site. site < site_count self.now) result.now }
        ensures few_needs { need_count self.now ≤ 64 }
        ensures within { IsWithin self.now.sites self.now.needs }
    {
        self.needs[need].via.as_slice()
    }

    /// What it costs to serve a need from a site: its load times the site's cost per unit.
    #[inline]
    #[tactic(auto, unfolding(crate::specs::Problem::unit, crate::specs::Problem::load, crate::specs::Placement::service))]
    pub fn service(&self, site: usize, need: usize) -> u64
        requires site { site < site_count self.now }
        requires need { need < need_count self.now }
        ensures value { result ≡ service self.now site need }
        ensures bound { result ≤ 65535 * 65535 }
        ensures few { need_count self.now ≤ 64 }
    {
        u64::from(self.sites[site].unit) * u64::from(self.needs[need].load)
    }
}
