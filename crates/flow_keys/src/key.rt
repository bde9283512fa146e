//! The flow key of a packet.
ghost use Rattle.std.specs.Prelude.{◌≡◌, ◌<◌, ◌^◌, [], ◌∷◌, slice_index, SomeIff, IsTrue, All};
ghost use Rattle.std.specs.Cmp.Lexicographic.{slice_cmp};
ghost use Rattle.std.specs.Ordering.{nat_cmp};
ghost use Rattle.std.specs.Cmp.Rules.{hashing};
ghost use Rattle.std.proofs.Common.{rules};
ghost use Rattle.flow_keys.specs.Key.{is_valid, hashed_words, pair, IsKey};

use std::cmp::Ordering;
use std::hash::{Hash, Hasher};
use std::marker::Model;

/// A flow's key, seen as eleven words: family (4 or 6), source (4 words), destination (4 words),
/// `source port * 65536 + destination port`, and protocol. Keys are ordered as their lists of words.
#[derive(Clone, Copy, Debug, PartialEq, Eq, PartialOrd, Ord)]
pub struct FlowKey {
    words: [u32; 11],
}

impl Model for FlowKey {
    ghost use Rattle.std.specs.Prelude.{◌≡◌, true, List, ℕ};
    ghost use Rattle.flow_keys.specs.Key.{is_valid};

    ghost Value = { List ℕ };

    ghost view = { λ key. key.words };

    ghost invariant = { λ key. is_valid key.words ≡ true };

    ghost inverse = { λ words. record { words = words } };
}

impl FlowKey {
    /// The key of these words, None exactly where they are no valid key: of family 4 or 6, with a
    /// protocol up to 255, and in family 4 with 0 in the last three words of each address.
    pub fn from_words(words: [u32; 11]) -> Option<FlowKey>
        ensures key { SomeIff result (IsTrue (is_valid words)) words }
    {
        if is_valid_key(&words) {
            Some(FlowKey { words })
        } else {
            None
        }
    }

    /// The eleven words, which are a valid key.
    pub fn words(&self) -> [u32; 11]
        ensures value { result ≡ self.now }
        ensures valid { IsKey self.now }
    {
        check_words(&self.words);
        self.words
    }

    /// The order of two keys, which is also that of `cmp`: that of the first word in which they differ.
    pub fn compare(&self, other: &FlowKey) -> Ordering
        ensures order { result ≡ slice_cmp nat_cmp self.now other.now }
    {
        self.cmp(other)
    }

    /// The key of an IPv4 packet, by its addresses, both ports and its protocol.
    #[inline]
    pub(crate) fn ipv4(source: u32, destination: u32, ports: u32, protocol: u8) -> FlowKey
        ensures { result ≡ 4 ∷ source ∷ 0 ∷ 0 ∷ 0 ∷ destination ∷ 0 ∷ 0 ∷ 0 ∷ ports ∷ protocol ∷ [] }
    {
        let protocol = u32::from(protocol);
        FlowKey {
            words: [4, source, 0, 0, 0, destination, 0, 0, 0, ports, protocol],
        }
    }

    /// The key of an IPv6 packet, by its addresses, both ports and its protocol.
    pub(crate) fn ipv6(source: [u32; 4], destination: [u32; 4], ports: u32, protocol: u8) -> FlowKey
        ensures { result ≡ 6
            ∷ slice_index source 0 ∷ slice_index source 1 ∷ slice_index source 2 ∷ slice_index source 3
            ∷ slice_index destination 0 ∷ slice_index destination 1
            ∷ slice_index destination 2 ∷ slice_index destination 3
            ∷ ports ∷ protocol ∷ [] }
    {
        let [a, b, c, d] = source;
        let [e, f, g, h] = destination;
        let protocol = u32::from(protocol);
        FlowKey {
            words: [6, a, b, c, d, e, f, g, h, ports, protocol],
        }
    }
}

// The words that are 0 in every key of family 4 are left out there.
impl Hash for FlowKey {
    ghost hash_input = { hashed_words };

    ghost respects_eq = { Prim.search (hashing, rules) };

    #[tactic(auto, unfolding(crate::specs::Key::hashed_words))]
    fn hash<H: Hasher>(&self, state: &mut H) {
        let [family, a, b, c, d, e, f, g, h, ports, protocol] = self.words;
        state.write_u64(pair(a, e));
        state.write_u64(pair(protocol, ports));
        if family != 4 {
            state.write_u64(pair(b, f));
            state.write_u64(pair(c, g));
            state.write_u64(pair(d, h));
        }
    }
}

// Two words as one number.
#[inline]
fn pair(high: u32, low: u32) -> u64
    ensures { result ≡ pair high low }
{
    4_294_967_296 * u64::from(high) + u64::from(low)
}

// Each word is below 2^32, as its type says.
fn check_words(words: &[u32])
    ensures { All (λ word. word < 2 ^ 32) words.now }
{
    let _ = words.len();
}

fn is_valid_key(words: &[u32; 11]) -> bool
    ensures { result ≡ is_valid words.now }
{
    let unused = words[2] == 0 && words[3] == 0 && words[4] == 0;
    let unused = unused && words[6] == 0 && words[7] == 0 && words[8] == 0;
    let family = (words[0] == 4 && unused) || words[0] == 6;
    family && words[10] <= 255
}
