//! The text of a flow key.
ghost use Rattle.std.specs.Prelude.{◌≡◌, ◌+◌, ◌≤◌, ◌<◌, ◌++◌, false, [], ◌∷◌, List, ℕ, codes, decimal, length, slice_index};
ghost use Rattle.std.specs.Fmt.{digit_glyph};
ghost use Rattle.flow_keys.specs.Key.{IsKey};
ghost use Rattle.flow_keys.specs.Text.{hexadecimal, two_groups, ipv4_text, ipv6_text, address_text, text_of};

use crate::FlowKey;
use arrayvec::ArrayString;
use itoa::{Buffer, Integer};
use std::marker::Model;

// Room for the longest text, of 95 bytes: two IPv6 addresses, two ports and a protocol, with four spaces.
const TEXT_ROOM: usize = 96;

type Text = ArrayString<TEXT_ROOM>;

/// The text of a key, at most 95 bytes in a fixed array, seen as the list of its bytes.
#[derive(Drop)]
pub struct KeyText {
    text: Text,
}

impl Model for KeyText {
    ghost use Rattle.std.specs.Prelude.{List, ℕ};

    ghost Value = { List ℕ };

    ghost view = { λ key. key.text.bytes };
}

impl KeyText {
    /// The text, which borrows `self`.
    pub fn as_str(&self) -> &str
        ensures text { result.now ≡ self.now }
    {
        self.text.as_str()
    }
}

fn push_decimal<I: Integer>(text: &mut Text, number: I)
    requires { length text.old.bytes + I.MAX_STR_LEN ≤ TEXT_ROOM }
    ensures written { text.new.bytes ≡ text.old.bytes ++ I.text number }
    ensures room { length text.new.bytes ≤ length text.old.bytes + I.MAX_STR_LEN }
{
    let mut buffer = Buffer::new();
    text.push_str(buffer.format(number));
}

// A lower-case hexadecimal digit.
fn push_digit(text: &mut Text, digit: u8)
    requires { (digit < 16) × (length text.old.bytes < TEXT_ROOM) }
    ensures { text.new.bytes ≡ text.old.bytes ++ digit_glyph false digit ∷ [] }
{
    let glyph = if digit < 10 {
        b'0' + digit
    } else {
        b'a' + (digit - 10)
    };
    text.push(char::from(glyph));
}

// A number in lower-case hexadecimal, without leading zeros.
#[tactic(auto, using(crate::proofs::Hexadecimal::hexadecimal_digit))]
fn push_hexadecimal(text: &mut Text, number: u16)
    requires { length text.old.bytes + length (hexadecimal number) ≤ TEXT_ROOM }
    ensures { text.new.bytes ≡ text.old.bytes ++ hexadecimal number }
{
    if number < 16 {
        push_digit(text, number as u8);
        return;
    }
    push_hexadecimal(text, number / 16);
    push_digit(text, (number % 16) as u8);
}

// One group of an IPv6 address.
fn push_group(text: &mut Text, group: u16)
    requires { length text.old.bytes + 4 ≤ TEXT_ROOM }
    ensures written { text.new.bytes ≡ text.old.bytes ++ hexadecimal group }
    ensures room { length text.new.bytes ≤ length text.old.bytes + 4 }
{
    push_hexadecimal(text, group);
}

// The two groups of one word of an IPv6 address.
fn push_two_groups(text: &mut Text, word: u32)
    requires { length text.old.bytes + 9 ≤ TEXT_ROOM }
    ensures written { text.new.bytes ≡ text.old.bytes ++ two_groups word }
    ensures room { length text.new.bytes ≤ length text.old.bytes + 9 }
{
    push_group(text, (word / 65536) as u16);
    text.push_str(":");
    push_group(text, (word % 65536) as u16);
}

#[tactic(auto, unfolding(crate::specs::Text::ipv6_text))]
fn push_ipv6(text: &mut Text, words: &[u32], at: usize)
    requires { (at + 4 ≤ length words.now) × (length text.old.bytes + 39 ≤ TEXT_ROOM) }
    ensures written { text.new.bytes ≡ text.old.bytes ++ ipv6_text words.now at }
    ensures room { length text.new.bytes ≤ length text.old.bytes + 39 }
{
    push_two_groups(text, words[at]);
    text.push_str(":");
    push_two_groups(text, words[at + 1]);
    text.push_str(":");
    push_two_groups(text, words[at + 2]);
    text.push_str(":");
    push_two_groups(text, words[at + 3]);
}

#[tactic(auto, unfolding(crate::specs::Text::ipv4_text))]
fn push_ipv4(text: &mut Text, address: u32)
    requires { length text.old.bytes + 15 ≤ TEXT_ROOM }
    ensures written { text.new.bytes ≡ text.old.bytes ++ ipv4_text address }
    ensures room { length text.new.bytes ≤ length text.old.bytes + 15 }
{
    push_decimal(text, (address / 16777216) as u8);
    text.push_str(".");
    push_decimal(text, (address / 65536 % 256) as u8);
    text.push_str(".");
    push_decimal(text, (address / 256 % 256) as u8);
    text.push_str(".");
    push_decimal(text, (address % 256) as u8);
}

// The address whose words begin at a place.
fn push_address(text: &mut Text, words: &[u32], at: usize)
    requires { (at + 4 ≤ length words.now) × (length text.old.bytes + 39 ≤ TEXT_ROOM) }
    ensures written { text.new.bytes ≡ text.old.bytes ++ address_text words.now at }
    ensures room { length text.new.bytes ≤ length text.old.bytes + 39 }
{
    if words[0] == 4 {
        push_ipv4(text, words[at]);
    } else {
        push_ipv6(text, words, at);
    }
}

/// The text of a key: source address and port, destination address and port, and protocol, as in
/// `10.0.0.1 1000 10.1.0.2 53 17`. An IPv6 address has all its eight groups. It takes no memory.
#[tactic(auto, unfolding(crate::specs::Text::text_of))]
pub fn key_text(key: &FlowKey) -> KeyText
    ensures text { result ≡ text_of key.now }
{
    let words = key.words();
    let mut text = ArrayString::new();
    push_address(&mut text, &words, 1);
    text.push_str(" ");
    push_decimal(&mut text, (words[9] / 65536) as u16);
    text.push_str(" ");
    push_address(&mut text, &words, 5);
    text.push_str(" ");
    push_decimal(&mut text, (words[9] % 65536) as u16);
    text.push_str(" ");
    push_decimal(&mut text, words[10] as u8);
    KeyText { text }
}

/// Two keys with one text are one key.
#[tactic(auto, using(crate::proofs::OneText::one_text_one_key))]
pub fn one_text_one_key()
    ensures one { (first second : List ℕ) → IsKey first → IsKey second →
        text_of first ≡ text_of second → first ≡ second }
{}
