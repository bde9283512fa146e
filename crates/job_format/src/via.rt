//! Up to eight numbers of sites.
ghost use Rattle.std.specs.Prelude.{◌≡◌, ◌<◌, ◌≤◌, [], ◌∷◌, ◌++◌, length};
ghost use Rattle.job_format.specs.Places.{has_site};

use std::marker::Model;

/// The sites that can serve a need, as far as they were read: up to eight numbers, which take no memory.
#[derive(Debug, Drop)]
pub struct Via {
    sites: [u8; 8],
    count: u8,
}

impl Model for Via {
    ghost use Rattle.std.specs.Prelude.{◌≤◌, List, ℕ, take};

    ghost Value = { List ℕ };

    ghost view = { λ via. take via.count via.sites };

    ghost invariant = { λ via. via.count ≤ 8 };
}

impl Via {
    /// No number.
    pub fn new() -> Via
        ensures value { result ≡ [] }
    {
        Via {
            sites: [0; 8],
            count: 0,
        }
    }

    /// These numbers, in their order.
    pub fn as_slice(&self) -> &[u8]
        ensures value { result.now ≡ self.now }
        ensures few { length result.now ≤ 8 }
    {
        &self.sites[..usize::from(self.count)]
    }

    /// Whether the number of a site is among them.
    #[tactic(auto, unfolding(crate::specs::Places::has_site))]
    pub fn has(&self, site: u8) -> bool
        ensures value { result ≡ has_site self.now site }
    {
        self.as_slice().contains(&site)
    }

    /// The same numbers once more.
    pub fn copied(&self) -> Via
        ensures value { result ≡ self.now }
    {
        Via {
            sites: self.sites,
            count: self.count,
        }
    }

    /// These numbers, and one more behind them.
    pub fn with(&self, site: u8) -> Via
        requires { length self.now < 8 }
        ensures value { result ≡ self.now ++ site ∷ [] }
    {
        let mut sites = self.sites;
        sites[usize::from(self.count)] = site;
        Via {
            sites,
            count: self.count + 1,
        }
    }
}
