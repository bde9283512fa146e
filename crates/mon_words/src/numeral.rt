//! The number that a value spells.
ghost use Rattle.std.specs.Prelude.{◌≡◌, ◌^◌, nat_lt};
ghost use Rattle.std.specs.Char.{is_ascii_digit};
ghost use Rattle.std.specs.List.{list_all};
ghost use Rattle.mon_words.specs.Options.{is_numeral, number_if};

/// The number of 1 to 20 digits, None also where it is not below 2^64.
pub(crate) fn number(value: &str) -> Option<u64>
    ensures number { result ≡ number_if (λ number. nat_lt number (2 ^ 64)) value.now }
{
    if is_numeral(value.as_bytes()) {
        value.parse::<u64>().ok()
    } else {
        None
    }
}

// Whether they are 1 to 20 digits.
fn is_numeral(value: &[u8]) -> bool
    ensures numeral { result ≡ is_numeral value.now }
{
    match value.len() {
        1..=20 => are_digits(value),
        _ => false,
    }
}

fn are_digits(value: &[u8]) -> bool
    ensures digits { result ≡ list_all is_ascii_digit value.now }
{
    value.iter().all(|digit| digit.is_ascii_digit())
}
