//! The hash functions of a seed.
ghost use Rattle.std.specs.Prelude.{◌≡◌, ◌≤◌, ◌<◌, ◌%◌, IfOk, IsTrue};
ghost use Rattle.hash_family.specs.Hash.{hash, is_sampled, bucket, sign, is_live};
ghost use Rattle.hash_family.specs.Limits.{is_width};

use crate::coefficients::coefficients_of;
use crate::field::hash_by;
use flow_keys::FlowKey;
use mon_io::Memory;
use std::alloc::Global;
use std::marker::Model;

/// The hash functions of a seed, seen as that seed.
#[derive(Drop)]
pub struct Family {
    seed: u64,
    coefficients: Vec<u64>,
}

impl Model for Family {
    ghost use Rattle.std.specs.Prelude.{ℕ};
    ghost use Rattle.hash_family.specs.Stream.{AreOfSeed};

    ghost Value = { ℕ };

    ghost view = { λ family. family.seed };

    ghost invariant = { λ family. AreOfSeed family.seed family.coefficients.items };
}

impl Family {
    /// The functions of this seed. No other call takes memory.
    pub fn new(alloc: Global, seed: u64) -> Result<Family, Memory>
        ensures value { IfOk result (λ family. family ≡ seed) }
    {
        let coefficients = coefficients_of(alloc, seed)?;
        Ok(Family { seed, coefficients })
    }

    /// Whether a level from 1 to 16 samples the key.
    #[inline]
    pub fn sample(&self, level: u8, key: &FlowKey) -> bool
        requires low { 1 ≤ level }
        requires high { level ≤ 16 }
        ensures value { result ≡ is_sampled self.now level key.now }
    {
        self.samples(level, &key.words())
    }

    /// The place, below `width`, of the key's counter in a row (0 to 6) of a level (0 to 16).
    /// The width is a power of two from 16 to 2,048.
    #[inline]
    #[tactic(auto, unfolding(crate::specs::Hash::bucket))]
    pub fn bucket(&self, level: u8, row: u8, width: u16, key: &FlowKey) -> usize
        requires level { level ≤ 16 }
        requires row { row ≤ 6 }
        requires width { IsTrue (is_width width) }
        ensures value { result ≡ bucket self.now level row width key.now }
        ensures below { result < width }
    {
        let function = 16 + 2 * (7 * usize::from(level) + usize::from(row));
        masked(self.hash(function, &key.words()), width)
    }

    /// 1 or -1, with which the key counts in a row (0 to 6) of a level (0 to 16).
    #[inline]
    #[tactic(auto, unfolding(crate::specs::Hash::sign))]
    pub fn sign(&self, level: u8, row: u8, key: &FlowKey) -> i64
        requires level { level ≤ 16 }
        requires row { row ≤ 6 }
        ensures value { result ≡ sign self.now level row key.now }
    {
        let function = 17 + 2 * (7 * usize::from(level) + usize::from(row));
        if self.hash(function, &key.words()) % 2 == 1 {
            1
        } else {
            -1
        }
    }

    /// Whether each level from 1 up to this one (0 to 16) samples the key.
    pub fn live(&self, level: u8, key: &FlowKey) -> bool
        requires { level ≤ 16 }
        ensures value { result ≡ is_live self.now level key.now }
    {
        let words = key.words();
        for below in 0..level {
            if !self.samples(below + 1, &words) {
                return false;
            }
        }
        true
    }

    #[inline]
    #[tactic(auto, unfolding(crate::specs::Hash::is_sampled))]
    fn samples(&self, level: u8, words: &[u32; 11]) -> bool
        requires low { 1 ≤ level }
        requires high { level ≤ 16 }
        ensures { result ≡ is_sampled self.now level words.now }
    {
        self.hash(usize::from(level) - 1, words) % 2 == 1
    }

    // The value of a function, of 254, at a key's words.
    #[inline]
    fn hash(&self, function: usize, words: &[u32; 11]) -> u64
        requires { function < 254 }
        ensures value { result ≡ hash self.now function words.now }
    {
        let at = 12 * function;
        hash_by(&self.coefficients[at..at + 12], words)
    }
}

// The remainder of a hash by a width, which is a power of two.
#[inline]
fn masked(hash: u64, width: u16) -> usize
    requires { IsTrue (is_width width) }
    ensures value { result ≡ hash % width }
    ensures below { result < width }
{
    (hash & (u64::from(width) - 1)) as usize
}
