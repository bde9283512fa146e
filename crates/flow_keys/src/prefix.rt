//! IP prefixes.
ghost use Rattle.std.specs.Prelude.{◌≡◌, ◌==◌, ◌↔◌, ◌+◌, ◌^◌, ◌<◌, ◌≤◌, true, List, ℕ, Ok, All, length, slice_index, IfSome};
ghost use Rattle.flow_keys.specs.Key.{IsKey};
ghost use Rattle.flow_keys.specs.Prefix.{HasAddress, Seen, whole_prefix, whole_text};
ghost use Rattle.flow_keys.specs.Prefix.{is_prefix, prefix_of, prefix_between, with_length, bits_of, family_bits, holds, address_number, first_bits};

use crate::address::{ipv4_address, ipv6_address};
use crate::numerals::{around_first, number};
use crate::{FlowKey, PrefixFault, Side};
use std::marker::Model;

/// The addresses of a family (4 or 6) that have the same first bits (`length`, at most 32 or 128) as
/// the address of these four words, of which an IPv4 address has the first alone and 0 behind it.
#[derive(Clone, Copy, Debug, PartialEq, Eq)]
pub struct Prefix {
    pub family: u32,
    pub words: [u32; 4],
    pub length: u8,
}

impl Model for Prefix {
    ghost use Rattle.std.specs.Prelude.{◌≡◌, true};
    ghost use Rattle.flow_keys.specs.Prefix.{Seen, is_prefix};

    ghost Value = { Seen };

    ghost view = { λ prefix. record { family = prefix.family; words = prefix.words; bits = prefix.length } };

    ghost invariant = { λ prefix. is_prefix prefix.family prefix.words prefix.length ≡ true };

    ghost inverse = { λ seen. record { family = seen.family; words = seen.words; length = seen.bits } };
}

impl Prefix {
    /// The prefix that a text spells: an address, `/` and a decimal length of one to three digits, at
    /// most 32 (IPv4) or 128 (IPv6). An IPv4 address is four decimal numbers of one to three digits,
    /// up to 255, with dots. An IPv6 address (RFC 4291, section 2.2) is eight groups of one to four
    /// hexadecimal digits with colons, of which `::` may stand for one or more groups of zero, once;
    /// it has no part with dots. Bits past the length stay as they are written.
    ///
    /// `Address` exactly where the text has no `/` or there is no address before the first one, and
    /// `Length` exactly where an address but no such length stands there. It takes no memory.
    #[tactic(auto, unfolding(crate::specs::Prefix::prefix_of))]
    pub fn parse(text: &str) -> Result<Prefix, PrefixFault>
        ensures value { result ≡ prefix_of text.now }
    {
        let Some((address, digits)) = around_first(text.as_bytes(), b'/') else {
            return Err(PrefixFault::Address);
        };
        Self::between(address, digits)
    }

    // The prefix of the texts of an address and a length.
    #[tactic(auto, unfolding(crate::specs::Prefix::prefix_between))]
    fn between(address: &[u8], digits: &[u8]) -> Result<Prefix, PrefixFault>
        ensures value { result ≡ prefix_between address.now digits.now }
    {
        if let Some(word) = ipv4_address(address) {
            return Self::with_length(4, [word, 0, 0, 0], digits);
        }
        let Some(words) = ipv6_address(address) else {
            return Err(PrefixFault::Address);
        };
        Self::with_length(6, words, digits)
    }

    // The prefix of an address that is read, with the text of its length.
    #[tactic(auto, unfolding(crate::specs::Prefix::with_length))]
    fn with_length(family: u32, words: [u32; 4], digits: &[u8]) -> Result<Prefix, PrefixFault>
        requires { is_prefix family words 0 ≡ true }
        ensures value { result ≡ with_length family digits.now words }
    {
        match bits(digits, family_bits(family)) {
            Some(length) => Ok(Prefix {
                family,
                words,
                length,
            }),
            None => Err(PrefixFault::Length),
        }
    }

    /// Whether the key is of this family and the first `length` bits of its address on this side are
    /// those of this prefix. A length of 0 holds every key of the family. It takes no memory.
    #[tactic(auto, unfolding(crate::specs::Prefix::holds))]
    pub fn holds(&self, key: &FlowKey, side: Side) -> bool
        ensures value { result ≡ holds self.now key.now side }
    {
        let words = key.words();
        let at = match side {
            Side::Source => 1,
            Side::Destination => 5,
        };
        let address = first_bits(address_number(&words, at), self.length);
        words[0] == self.family
            && first_bits(address_number(&self.words, 0), self.length) == address
    }
}

// The bits of an address of a family.
fn family_bits(family: u32) -> u8
    ensures value { result ≡ family_bits family }
{
    if family == 4 { 32 } else { 128 }
}

// A length of at most so many bits.
#[tactic(auto, unfolding(crate::specs::Prefix::bits_of))]
fn bits(digits: &[u8], most: u8) -> Option<u8>
    ensures value { result ≡ bits_of most digits.now }
    ensures bound { IfSome result (λ bits. bits ≤ most) }
{
    let bits = u8::try_from(number(digits, 10, 3)?).ok()?;
    if bits <= most { Some(bits) } else { None }
}

// Four words from a place on as one number.
#[tactic(auto, unfolding(crate::specs::Prefix::address_number))]
fn address_number(words: &[u32], at: usize) -> u128
    requires { at + 4 ≤ length words.now }
    ensures value { result ≡ address_number words.now at }
    ensures bound { result < 2 ^ 128 }
{
    let high = u128::from(words[at]) * (1 << 96) + u128::from(words[at + 1]) * (1 << 64);
    high + u128::from(words[at + 2]) * (1 << 32) + u128::from(words[at + 3])
}

// The first bits of a number of 128 bits.
fn first_bits(number: u128, bits: u8) -> u128
    requires bits { bits ≤ 128 }
    requires number { number < 2 ^ 128 }
    ensures value { result ≡ first_bits bits number }
{
    if bits == 0 {
        return 0;
    }
    number >> (128 - bits)
}

/// The text of a key's address, `/` and 32 or 128 is read as the prefix that holds exactly the keys with this address.
/// A prefix of length 0 holds every key of its family.
pub fn one_address()
    ensures read { (key : List ℕ) (side : Side) → IsKey key →
        prefix_of (whole_text key side) ≡ Ok (whole_prefix key side) }
    ensures one { (key other : List ℕ) (side at : Side) → IsKey key → IsKey other →
        (holds (whole_prefix key side) other at ≡ true) ↔ HasAddress other at key side }
    ensures all { (prefix : Seen) (key : List ℕ) (side : Side) → IsKey key → All (λ word. word < 2 ^ 32) prefix.words →
        prefix.bits ≡ 0 → holds prefix key side ≡ (prefix.family == slice_index key 0) }
{}
