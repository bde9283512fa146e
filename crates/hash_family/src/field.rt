//! Linear forms and remainders modulo the prime 2^61 - 1.
ghost use Rattle.std.specs.Prelude.{◌≡◌, ◌+◌, ◌*◌, ◌<◌, ◌≤◌, ◌^◌, ◌%◌, true, slice_index};
ghost use Rattle.hash_family.specs.Hash.{prime};
ghost use Rattle.hash_family.specs.Row.{IsRow, linear_form};

const PRIME: u64 = (1 << 61) - 1;

// Coefficient 0, and coefficient i + 1 times word i of the key, and one remainder: five products where the other
// words are 0, as an IPv4 key's are, and eleven else.
#[inline]
pub(crate) fn hash_by(row: &[u64], words: &[u32; 11]) -> u64
    requires { IsRow row.now }
    ensures { result ≡ linear_form row.now words.now % prime }
{
    if has_short_addresses(words) {
        remainder(short_form(row, words))
    } else {
        remainder(long_form(row, words))
    }
}

// Whether the words are 0 that only a long address has.
#[inline]
fn has_short_addresses(words: &[u32; 11]) -> bool
    ensures { result ≡ true
        → (slice_index words.now 2 ≡ 0) × (slice_index words.now 3 ≡ 0) × (slice_index words.now 4 ≡ 0)
        × (slice_index words.now 6 ≡ 0) × (slice_index words.now 7 ≡ 0) × (slice_index words.now 8 ≡ 0) }
{
    let source = words[2] == 0 && words[3] == 0 && words[4] == 0;
    source && words[6] == 0 && words[7] == 0 && words[8] == 0
}

// The form of short addresses.
#[inline]
fn short_form(row: &[u64], words: &[u32; 11]) -> u128
    requires { IsRow row.now }
    ensures value { result ≡ slice_index row.now 0 + slice_index row.now 1 * slice_index words.now 0
        + slice_index row.now 2 * slice_index words.now 1 + slice_index row.now 6 * slice_index words.now 5
        + slice_index row.now 10 * slice_index words.now 9 + slice_index row.now 11 * slice_index words.now 10 }
    ensures bound { result < 2 ^ 97 }
{
    let addresses = product(row[2], words[1]) + product(row[6], words[5]);
    let rest = product(row[10], words[9]) + product(row[11], words[10]);
    u128::from(row[0]) + product(row[1], words[0]) + addresses + rest
}

// A coefficient times a word.
#[inline]
fn product(coefficient: u64, word: u32) -> u128
    requires { coefficient < prime }
    ensures value { result ≡ coefficient * word }
    ensures bound { result ≤ 2 ^ 93 }
{
    u128::from(coefficient) * u128::from(word)
}

// The form of any words.
#[inline]
#[tactic(auto, unfolding(crate::specs::Row::linear_form))]
fn long_form(row: &[u64], words: &[u32; 11]) -> u128
    requires { IsRow row.now }
    ensures value { result ≡ linear_form row.now words.now }
    ensures bound { result < 2 ^ 97 }
{
    let mut sum = u128::from(row[0]);
    for i in 0..11 {
        sum += u128::from(row[i + 1]) * u128::from(words[i]);
    }
    sum
}

// The remainder, by adding the bits above the 61st to the low ones: 2^61 is 1 modulo the prime.
#[inline]
pub(crate) fn remainder(sum: u128) -> u64
    requires { sum < 2 ^ 97 }
    ensures { result ≡ sum % prime }
{
    let low = (sum & 0x1fff_ffff_ffff_ffff) as u64;
    let high = (sum >> 61) as u64;
    let both = low + high;
    if both < PRIME { both } else { both - PRIME }
}
