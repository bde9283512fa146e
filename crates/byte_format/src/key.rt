//! A flow key as bytes.
ghost use Rattle.std.specs.Prelude.{◌≡◌, ◌≤◌, ◌+◌, ◌++◌, length, SomeIff, IsTrue, OnOk, OnErr};
ghost use Rattle.flow_keys.specs.Key.{is_valid};
ghost use Rattle.byte_format.specs.Keys.{key_size, key_bytes, key_words, word_at};

use byteorder::{ByteOrder, LittleEndian};
use flow_keys::FlowKey;
use mon_io::Memory;

/// The key of these 44 bytes, eleven words with the low byte first; None exactly where the words are no valid key.
/// Takes no memory.
#[inline]
pub fn key_at(field: &[u8]) -> Option<FlowKey>
    requires whole { length field.now ≡ key_size }
    ensures key { SomeIff result (IsTrue (is_valid (key_words field.now))) (key_words field.now) }
{
    FlowKey::from_words(key_words(field))
}

/// Appends the 44 bytes of a key. Unchanged on refusal. It takes memory.
#[inline]
pub fn put_key(key: &FlowKey, out: &mut Vec<u8>) -> Result<(), Memory>
    ensures written { OnOk result (out.new.items ≡ out.old.items ++ key_bytes key.now) }
    ensures refused { OnErr result (out.new.items ≡ out.old.items) }
{
    match out.extend_from_slice(&bytes_of(key)) {
        Ok(()) => Ok(()),
        Err(_) => Err(Memory),
    }
}

#[inline]
#[tactic(auto, unfolding(crate::specs::Keys::key_bytes))]
fn bytes_of(key: &FlowKey) -> [u8; 44]
    ensures { result ≡ key_bytes key.now }
{
    let mut bytes = [0; 44];
    LittleEndian::write_u32_into(&key.words(), &mut bytes);
    bytes
}

#[inline]
#[tactic(auto, unfolding(crate::specs::Keys::key_words))]
fn key_words(field: &[u8]) -> [u32; 11]
    requires { length field.now ≡ key_size }
    ensures { result ≡ key_words field.now }
{
    [
        word_at(field, 0),
        word_at(field, 4),
        word_at(field, 8),
        word_at(field, 12),
        word_at(field, 16),
        word_at(field, 20),
        word_at(field, 24),
        word_at(field, 28),
        word_at(field, 32),
        word_at(field, 36),
        word_at(field, 40),
    ]
}

#[inline]
#[tactic(auto, unfolding(crate::specs::Keys::word_at))]
fn word_at(field: &[u8], at: usize) -> u32
    requires { at + 4 ≤ length field.now }
    ensures { result ≡ word_at field.now at }
{
    LittleEndian::read_u32(&field[at..])
}
