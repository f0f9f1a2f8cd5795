//! The bytes that a string stands for.

ghost use Rattle.std.specs.Prelude.{◌≡◌, ◌≤◌, ◌<◌, length, IfOk};
ghost use Rattle.rawk_lexer.specs.Escape as spec;

use crate::bytes::byte_at;
use std::alloc::{AllocError, Global};

fn is_octal(b: u8) -> bool
    ensures { result ≡ spec.is_octal b }
{
    matches!(b, b'0'..=b'7')
}

/// The low 8 bits of the octal number that three bytes begin with, and how many digits it has.
fn octal(a: u8, b: u8, c: u8) -> Option<(u8, usize)>
    ensures { result ≡ spec.octal a b c }
{
    if !is_octal(a) {
        return None;
    }
    let first = u16::from(a - b'0');
    if !is_octal(b) {
        return Some((first as u8, 1));
    }
    let second = u16::from(b - b'0');
    if !is_octal(c) {
        return Some(((first * 8 + second) as u8, 2));
    }
    let third = u16::from(c - b'0');
    Some((((first * 64 + second * 8 + third) % 256) as u8, 3))
}

fn named(b: u8) -> u8
    ensures { result ≡ spec.named b }
{
    match b {
        b'a' => 7,
        b'b' => 8,
        b't' => 9,
        b'n' => 10,
        b'v' => 11,
        b'f' => 12,
        b'r' => 13,
        _ => b,
    }
}

/// What the bytes behind a backslash stand for, and how many they are.
fn escape(z: &[u8]) -> (Option<u8>, usize)
    ensures value { result ≡ spec.escape z.now }
    ensures within { result.1 ≤ length z.now }
{
    if z.len() == 0 {
        return (Some(b'\\'), 0);
    }
    let b = z[0];
    match octal(b, byte_at(z, 1), byte_at(z, 2)) {
        Some((value, len)) => (Some(value), len),
        None if b == b'\n' => (None, 1),
        None => (Some(named(b)), 1),
    }
}

/// The bytes that the inside of a string stands for (POSIX awk, "Lexical Conventions"): `\"`, `\\`, `\/`, `\a`, `\b`, `\f`,
/// `\n`, `\r`, `\t` and `\v` are one byte, one to three octal digits behind a backslash are the byte of their low 8 bits, and
/// a backslash with a newline is nothing. A backslash before another byte is dropped; the last byte of a text keeps it.
pub fn unescaped(alloc: Global, text: &[u8]) -> Result<Vec<u8>, AllocError>
    ensures { IfOk result (λ v. v.items ≡ spec.unescaped_of text.now) }
{
    let mut bytes = Vec::new(alloc);
    let mut rest = text;
    while let [b, behind @ ..] = rest {
        if *b == b'\\' {
            let (byte, len) = escape(behind);
            if let Some(byte) = byte {
                bytes.push(byte)?;
            }
            rest = &behind[len..];
        } else {
            bytes.push(*b)?;
            rest = behind;
        }
    }
    Ok(bytes)
}

/// A token's bytes without the first and the last: the inside of a string or of a regular expression.
pub fn unquoted(word: &[u8]) -> &[u8]
    ensures { result.now ≡ spec.unquoted word.now }
{
    if word.len() < 2 {
        return &word[..0];
    }
    &word[1..word.len() - 1]
}
