//! Numbers at the front of a line.
ghost use Rattle.std.specs.Prelude.{◌≡◌, ◌≤◌, ◌<◌, ◌^◌, ◌++◌, ℕ, List, IfSome, IfNone, length, take, true};
ghost use Rattle.std.specs.Char.{is_ascii_digit};
ghost use Rattle.std.specs.Fmt.{decimal};
ghost use Rattle.std.specs.List.{prefix_len};
ghost use Rattle.std.specs.Str.{all_ascii_digits};
ghost use Rattle.std.specs.Str.Parse.{digits_value};
ghost use Rattle.certificate_text.specs.Numeral.{IsParted, HasNoNumber, HasNoSpaced};
ghost use Rattle.certificate_text.specs.Text.{spaced};

/// The number below the limit that stands at the front in decimal digits, without leading zeros, and the bytes
/// behind its digits. None where there is none.
pub(crate) fn number(bytes: &[u8], limit: u64) -> Option<(u64, &[u8])>
    requires { limit ≤ 2 ^ 56 }
    ensures below { IfSome result (λ read. read.0 < limit) }
    ensures spelled { IfSome result (λ read. bytes.now ≡ decimal read.0 ++ read.1.now) }
    ensures parted { IfSome result (λ read. IsParted read.1.now) }
    ensures none { IfNone result (HasNoNumber limit bytes.now) }
{
    let size = run(bytes);
    let Some(number) = numeral(&bytes[..size]) else {
        return None;
    };
    if number < limit {
        Some((number, &bytes[size..]))
    } else {
        None
    }
}

/// The number below the limit that stands behind a space at the front, and the bytes behind its digits. None where
/// there is none.
pub(crate) fn spaced_number(bytes: &[u8], limit: u64) -> Option<(u64, &[u8])>
    requires { limit ≤ 2 ^ 56 }
    ensures below { IfSome result (λ read. read.0 < limit) }
    ensures spelled { IfSome result (λ read. bytes.now ≡ spaced read.0 ++ read.1.now) }
    ensures parted { IfSome result (λ read. IsParted read.1.now) }
    ensures none { IfNone result (HasNoSpaced limit bytes.now) }
{
    let Some(rest) = after(bytes, b" ") else {
        return None;
    };
    number(rest, limit)
}

/// What follows a word at the front, or None where the word does not stand there.
pub(crate) fn after<'a>(bytes: &'a [u8], word: &[u8]) -> Option<&'a [u8]>
    ensures some { IfSome result (λ rest. bytes.now ≡ word.now ++ rest.now) }
    ensures none { IfNone result ((rest : List ℕ) → bytes.now ≡ word.now ++ rest → ⊥) }
{
    bytes.strip_prefix(word)
}

// How many digits stand at the front.
fn run(bytes: &[u8]) -> usize
    ensures value { result ≡ prefix_len is_ascii_digit bytes.now }
    ensures few { result ≤ length bytes.now }
{
    bytes
        .iter()
        .take_while(|byte| byte.is_ascii_digit())
        .count()
}

// The number that digits write without leading zeros, or None where they are no such numeral of up to 17 digits.
fn numeral(digits: &[u8]) -> Option<u64>
    requires { all_ascii_digits digits.now ≡ true }
    ensures spelled { IfSome result (λ number. decimal number ≡ digits.now) }
    ensures small { IfSome result (λ number. number < 2 ^ 64) }
    ensures none { IfNone result ((n : ℕ) → n < 2 ^ 56 → digits.now ≡ decimal n → ⊥) }
{
    if digits.is_empty() {
        return None;
    }
    if digits.len() > 17 {
        return None;
    }
    if digits[0] == b'0' {
        return if digits.len() == 1 { Some(0) } else { None };
    }
    Some(value(digits))
}

// The value of digits.
fn value(digits: &[u8]) -> u64
    requires few { length digits.now ≤ 17 }
    requires digits { all_ascii_digits digits.now ≡ true }
    ensures value { result ≡ digits_value 10 digits.now }
    ensures small { result < 10 ^ 17 }
{
    let mut value = 0;
    for digit in digits {
        value = value * 10 + u64::from(*digit - b'0');
    }
    value
}
