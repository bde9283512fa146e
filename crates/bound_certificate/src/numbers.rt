//! Lists of small numbers that take no memory.
ghost use Rattle.std.specs.Prelude.{◌≡◌, ◌<◌, ◌≤◌, [], ◌∷◌, ◌++◌, length};
ghost use Rattle.bound_certificate.specs.Sums.{has};

use std::marker::Model;

/// Up to 64 numbers, as the choices of the first needs.
#[derive(Drop)]
pub struct Numbers {
    items: [u8; 64],
    len: usize,
}

impl Model for Numbers {
    ghost use Rattle.std.specs.Prelude.{◌≤◌, List, ℕ, take};

    ghost Value = { List ℕ };

    ghost view = { λ numbers. take numbers.len numbers.items };

    ghost invariant = { λ numbers. numbers.len ≤ 64 };
}

impl Numbers {
    /// No number.
    pub fn new() -> Numbers
        ensures value { result ≡ [] }
    {
        Numbers {
            items: [0; 64],
            len: 0,
        }
    }

    /// These numbers, in their order.
    pub fn as_slice(&self) -> &[u8]
        ensures value { result.now ≡ self.now }
        ensures few { length result.now ≤ 64 }
    {
        &self.items[..self.len]
    }

    /// How many there are.
    pub fn len(&self) -> usize
        ensures value { result ≡ length self.now }
        ensures few { result ≤ 64 }
    {
        self.len
    }

    /// The same numbers once more.
    pub fn copied(&self) -> Numbers
        ensures value { result ≡ self.now }
    {
        Numbers {
            items: self.items,
            len: self.len,
        }
    }

    /// Puts a number at the end.
    pub fn push(&mut self, number: u8)
        requires { length self.old < 64 }
        ensures value { self.new ≡ self.old ++ number ∷ [] }
    {
        self.items[self.len] = number;
        self.len += 1;
    }

    /// These numbers with one more at the end.
    pub fn with(&self, number: u8) -> Numbers
        requires { length self.now < 64 }
        ensures value { result ≡ self.now ++ number ∷ [] }
    {
        let mut items = self.items;
        items[self.len] = number;
        Numbers {
            items,
            len: self.len + 1,
        }
    }
}

/// Whether a number stands in the list.
#[tactic(auto, unfolding(crate::specs::Sums::has))]
pub fn has(numbers: &[u8], number: u8) -> bool
    ensures value { result ≡ has numbers.now number }
{
    numbers.iter().any(|other| *other == number)
}
