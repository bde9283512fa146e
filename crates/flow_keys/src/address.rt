//! The texts of addresses.
ghost use Rattle.std.specs.Prelude.{◌≡◌, ◌+◌, ◌<◌, ◌≤◌, [], ◌∷◌, length, slice_index, option_map, nat_le, true, ℕ};
ghost use Rattle.std.specs.List.{list_all};
ghost use Rattle.flow_keys.specs.Prefix.{ipv4_address, ipv4_words, ipv6_address, groups_of, gap_place, filled, eight_groups, groups_around, group_word, group_words};

use crate::numerals::numbers_between;
use arrayvec::ArrayVec;

/// The first word of an IPv4 address in decimal numbers with dots; the other words are 0.
#[tactic(auto, unfolding(crate::specs::Prefix::ipv4_address))]
pub(crate) fn ipv4_address(text: &[u8]) -> Option<u32>
    ensures value { option_map (λ word. word ∷ 0 ∷ 0 ∷ 0 ∷ []) result ≡ ipv4_address text.now }
{
    let numbers = numbers_between(text, b'.', 10, 3)?;
    ipv4_word(numbers.as_slice())
}

// The word of four bytes.
#[tactic(auto, unfolding(crate::specs::Prefix::ipv4_words))]
fn ipv4_word(numbers: &[u16]) -> Option<u32>
    ensures value { option_map (λ word. word ∷ 0 ∷ 0 ∷ 0 ∷ []) result ≡ ipv4_words numbers.now }
{
    if numbers.len() != 4 {
        return None;
    }
    if !are_bytes(numbers) {
        return None;
    }
    let high = 256 * u32::from(numbers[0]) + u32::from(numbers[1]);
    Some(65536 * high + 256 * u32::from(numbers[2]) + u32::from(numbers[3]))
}

// Each number fits a byte.
fn are_bytes(numbers: &[u16]) -> bool
    ensures value { result ≡ list_all (λ number. nat_le number 255) numbers.now }
    ensures each { result ≡ true → (k : ℕ) → slice_index numbers.now k ≤ 255 }
{
    numbers.iter().all(|number| *number <= 255)
}

/// The words of an IPv6 address in hexadecimal groups with colons.
#[tactic(auto, unfolding(crate::specs::Prefix::ipv6_address))]
pub(crate) fn ipv6_address(text: &[u8]) -> Option<[u32; 4]>
    ensures value { result ≡ ipv6_address text.now }
{
    let gap = gap_place(text);
    if gap == text.len() {
        let groups = groups(text)?;
        return eight_groups(groups.as_slice());
    }
    let front = groups(&text[..gap])?;
    let back = groups(&text[gap + 2..])?;
    groups_around(front.as_slice(), back.as_slice())
}

// The groups with colons between them, none of an empty text.
#[tactic(auto, unfolding(crate::specs::Prefix::groups_of))]
fn groups(text: &[u8]) -> Option<ArrayVec<u16, 8>>
    ensures value { option_map (λ groups. groups.items) result ≡ groups_of text.now }
{
    if text.is_empty() {
        return Some(ArrayVec::new());
    }
    numbers_between(text, b':', 16, 4)
}

// The place of the first `::`, or the length.
fn gap_place(text: &[u8]) -> usize
    ensures value { result ≡ gap_place text.now }
    ensures within { result < length text.now → result + 2 ≤ length text.now }
    ensures bound { result ≤ length text.now }
{
    let mut at = 0;
    while at + 1 < text.len() {
        if text[at] == b':' && text[at + 1] == b':' {
            return at;
        }
        at += 1;
    }
    text.len()
}

// The words of eight groups.
#[tactic(auto, unfolding(crate::specs::Prefix::eight_groups))]
fn eight_groups(groups: &[u16]) -> Option<[u32; 4]>
    ensures value { result ≡ eight_groups groups.now }
{
    if groups.len() != 8 {
        return None;
    }
    Some(words_around(groups, &[]))
}

// The words of at most seven groups around a gap.
#[tactic(auto, unfolding(crate::specs::Prefix::groups_around))]
fn groups_around(front: &[u16], back: &[u16]) -> Option<[u32; 4]>
    requires front { length front.now ≤ 8 }
    requires back { length back.now ≤ 8 }
    ensures value { result ≡ groups_around front.now back.now }
{
    if front.len() + back.len() > 7 {
        return None;
    }
    Some(words_around(front, back))
}

// The words of groups with groups of 0 between them.
#[tactic(auto, unfolding(crate::specs::Prefix::group_words))]
fn words_around(front: &[u16], back: &[u16]) -> [u32; 4]
    requires { length front.now + length back.now ≤ 8 }
    ensures value { result ≡ group_words (filled front.now back.now) }
{
    [
        word_around(front, back, 0),
        word_around(front, back, 2),
        word_around(front, back, 4),
        word_around(front, back, 6),
    ]
}

// The word of two of those groups.
fn word_around(front: &[u16], back: &[u16], at: usize) -> u32
    requires room { length front.now + length back.now ≤ 8 }
    requires at { at < 7 }
    ensures value { result ≡ group_word (filled front.now back.now) at }
{
    let high = u32::from(group_around(front, back, at));
    65536 * high + u32::from(group_around(front, back, at + 1))
}

// One of those groups.
fn group_around(front: &[u16], back: &[u16], at: usize) -> u16
    requires room { length front.now + length back.now ≤ 8 }
    requires at { at < 8 }
    ensures value { result ≡ slice_index (filled front.now back.now) at }
{
    if at < front.len() {
        return front[at];
    }
    let end = 8 - back.len();
    if at < end { 0 } else { back[at - end] }
}
