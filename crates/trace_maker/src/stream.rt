//! The words that a trace is drawn from.
ghost use Rattle.std.specs.Prelude.{◌≡◌};
ghost use Rattle.trace_maker.specs.Stream.{stream_at};

use rand_chacha::ChaCha20Rng;
use rand_core::SeedableRng;

/// The stream of a seed, at its first word.
pub(crate) fn stream_of(seed: u64) -> ChaCha20Rng
    ensures { result ≡ stream_at seed 0 }
{
    let mut key = [0; 32];
    key[..8].copy_from_slice(&seed.to_le_bytes());
    key[8] = 1;
    ChaCha20Rng::from_seed(key)
}
