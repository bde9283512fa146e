//! Numbers as digits, and the parts of a text around a separator.
ghost use Rattle.std.specs.Prelude.{◌≡◌, ◌+◌, ◌^◌, ◌<◌, ◌≤◌, ◌==◌, [], ◌∷◌, length, option_map, IfSome, MatchOption};
ghost use Rattle.std.specs.List.{slice_split, position_or_len, before_first, after_first};
ghost use Rattle.flow_keys.specs.Prefix.{number_of, numbers_of, pushed};

use arrayvec::ArrayVec;

// The number that digits spell, of which there are at least one and at most so many.
pub(crate) fn number(digits: &[u8], base: u32, most: usize) -> Option<u16>
    requires low { 2 ≤ base }
    requires high { base ≤ 16 }
    requires fits { base ^ most ≤ 65536 }
    ensures value { result ≡ number_of base most digits.now }
{
    if digits.is_empty() {
        return None;
    }
    if digits.len() > most {
        return None;
    }
    let mut value = 0u32;
    for byte in digits {
        let digit = char::from(*byte).to_digit(base)?;
        value = value * base + digit;
    }
    Some(value as u16)
}

// The place of the first such byte, or the length.
fn place_of(text: &[u8], separator: u8) -> usize
    ensures value { result ≡ position_or_len (λ byte. byte == separator) text.now }
    ensures bound { result ≤ length text.now }
{
    for (place, byte) in text.iter().enumerate() {
        if *byte == separator {
            return place;
        }
    }
    text.len()
}

// The parts before and behind the first separator.
pub(crate) fn around_first(text: &[u8], separator: u8) -> Option<(&[u8], &[u8])>
    ensures place { MatchOption result
        (position_or_len (λ byte. byte == separator) text.now ≡ length text.now)
        (λ parts. position_or_len (λ byte. byte == separator) text.now < length text.now) }
    ensures before { IfSome result (λ parts. parts.0.now ≡ before_first (λ byte. byte == separator) text.now) }
    ensures behind { IfSome result (λ parts. parts.1.now ≡ after_first (λ byte. byte == separator) text.now) }
{
    let place = place_of(text, separator);
    if place == text.len() {
        return None;
    }
    Some((&text[..place], &text[place + 1..]))
}

// The numbers that stand between separators, None where a part is no number or there are more than eight.
pub(crate) fn numbers_between(
    text: &[u8],
    separator: u8,
    base: u32,
    most: usize,
) -> Option<ArrayVec<u16, 8>>
    requires low { 2 ≤ base }
    requires high { base ≤ 16 }
    requires fits { base ^ most ≤ 65536 }
    ensures value { option_map (λ numbers. numbers.items) result
        ≡ numbers_of base most (slice_split (λ byte. byte == separator) text.now) }
{
    let mut numbers = ArrayVec::new();
    let mut rest = text;
    while let Some((part, behind)) = around_first(rest, separator) {
        push_number(&mut numbers, part, base, most)?;
        rest = behind;
    }
    push_number(&mut numbers, rest, base, most)?;
    Some(numbers)
}

// One more number, None where the part is none or eight are there.
#[tactic(auto, unfolding(crate::specs::Prefix::pushed))]
fn push_number(numbers: &mut ArrayVec<u16, 8>, part: &[u8], base: u32, most: usize) -> Option<()>
    requires low { 2 ≤ base }
    requires high { base ≤ 16 }
    requires fits { base ^ most ≤ 65536 }
    ensures value { option_map (λ _. numbers.new.items) result ≡ pushed base most numbers.old.items part.now }
{
    let number = number(part, base, most)?;
    numbers.try_push(number).ok()
}
