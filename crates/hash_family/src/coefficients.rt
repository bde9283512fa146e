//! The coefficients of all functions.
ghost use Rattle.std.specs.Prelude.{◌≡◌, ℕ, ◌+◌, ◌<◌, ◌*◌, IfOk};
ghost use Rattle.hash_family.specs.Stream.{stream_at, DrawsOne, AreOfSeed};

use crate::field::remainder;
use mon_io::Memory;
use rand_chacha::ChaCha20Rng;
use rand_core::SeedableRng;
use rand_core::utils::NextWord;
use std::alloc::Global;

// There are 254 functions of twelve coefficients each.
const COEFFICIENTS: usize = 3048;

// The coefficients of the functions of a seed, one function after another.
pub(crate) fn coefficients_of(alloc: Global, seed: u64) -> Result<Vec<u64>, Memory>
    ensures { IfOk result (λ coefficients. AreOfSeed seed coefficients.items) }
{
    let Ok(mut coefficients) = Vec::with_capacity(alloc, COEFFICIENTS) else {
        return Err(Memory);
    };
    let mut stream = stream_of(seed);
    for _ in 0..COEFFICIENTS {
        let drawn = draw(&mut stream);
        if coefficients.push(drawn).is_err() {
            return Err(Memory);
        }
    }
    Ok(coefficients)
}

// The stream of a seed, at its first word.
fn stream_of(seed: u64) -> ChaCha20Rng
    ensures { result ≡ stream_at seed 0 }
{
    let mut bytes = [0; 32];
    bytes[..8].copy_from_slice(&seed.to_le_bytes());
    ChaCha20Rng::from_seed(bytes)
}

// The coefficient that the next two words give.
#[tactic(auto, unfolding(crate::specs::Hash::word, crate::specs::Stream::drawn, crate::specs::Stream::stream_at))]
fn draw(stream: &mut ChaCha20Rng) -> u64
    ensures { (seed n : ℕ) → n < 4096 → stream.old ≡ stream_at seed (2 * n)
        → DrawsOne seed n result stream.new }
{
    let low = u64::from(stream.next_word());
    let high = u64::from(stream.next_word());
    remainder(u128::from(high << 32 | low))
}
