//! The hash functions of a sketch: which keys a level samples, and a key's bucket and sign in each row.
//!
//! - `params`: `Params`, the numbers of a sketch within their limits
//! - `field`: linear forms and remainders modulo the prime 2^61 - 1, without a division
//! - `coefficients`: the coefficients of all functions, drawn from ChaCha20
//! - `family`: `Family`, the functions of a seed
//!
//! `specs/Hash.antt` says what each function is: a linear form of the key's eleven words modulo the prime,
//! whose coefficients are words of a ChaCha20 stream. Only `Family::new` takes memory, and no hash divides.
#![tactic(auto)]

mod coefficients;
mod family;
mod field;
mod params;

pub use family::Family;
pub use params::Params;
