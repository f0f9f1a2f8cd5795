//! Keys behind their first bytes as numbers, by which most of them are told apart.

ghost use Rattle.std.specs.Prelude.{◌≡◌, ◌≤◌, ◌+◌, IfOk, length, slice_index_or};
ghost use Rattle.rawk_arrays.specs.Heads.{IsHeaded, headed_keys, number_with};

use rawk_value::Bytes;
use std::alloc::{AllocError, Global};

/// A key behind its first eight bytes and its next eight, each as a number.
/// In the derived order these are compared first, and whole keys only where both are the same.
#[derive(Clone, Copy, PartialEq, Eq, PartialOrd, Ord)]
pub(crate) struct HeadedKey<'a> {
    first: u64,
    second: u64,
    key: &'a [u8],
}

// A byte of a key, and 0 past its end.
fn byte_or_zero(key: &[u8], place: usize) -> u8
    ensures { result ≡ slice_index_or key.now place 0 }
{
    match key.get(place) {
        Some(byte) => *byte,
        None => 0,
    }
}

// Eight bytes that a key has from a place on as a number, the first of them the highest.
#[inline(always)]
fn full_word(key: &[u8], place: usize) -> u64
    requires { place + 8 ≤ length key.now }
    ensures { result ≡ number_with 0 8 place key.now }
{
    u64::from_be_bytes([
        key[place],
        key[place + 1],
        key[place + 2],
        key[place + 3],
        key[place + 4],
        key[place + 5],
        key[place + 6],
        key[place + 7],
    ])
}

// Eight bytes of a key from a place on as a number, the first of them the highest; zeros follow where the key ends.
fn word(key: &[u8], place: usize) -> u64
    requires { place ≤ 8 }
    ensures { result ≡ number_with 0 8 place key.now }
{
    if key.len() <= place {
        return 0;
    }
    if key.len() >= place + 8 {
        return full_word(key, place);
    }
    u64::from_be_bytes([
        byte_or_zero(key, place),
        byte_or_zero(key, place + 1),
        byte_or_zero(key, place + 2),
        byte_or_zero(key, place + 3),
        byte_or_zero(key, place + 4),
        byte_or_zero(key, place + 5),
        byte_or_zero(key, place + 6),
        byte_or_zero(key, place + 7),
    ])
}

/// A key behind its first bytes.
pub(crate) fn headed(key: &[u8]) -> HeadedKey<'_>
    ensures key { result.key.now ≡ key.now }
    ensures headed { IsHeaded result }
{
    HeadedKey {
        first: word(key, 0),
        second: word(key, 8),
        key,
    }
}

/// Copies of the keys alone.
pub(crate) fn copies(alloc: Global, found: &[HeadedKey<'_>]) -> Result<Vec<Bytes>, AllocError>
    ensures { IfOk result (λ copied. copied.items ≡ headed_keys found.now) }
{
    let mut copied = Vec::with_capacity(alloc, found.len())?;
    for headed in found {
        copied.push(Bytes::from_slice(alloc, headed.key)?)?;
    }
    Ok(copied)
}
