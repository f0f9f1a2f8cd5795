//! How long a text is, and where a part stands in it.

ghost use Rattle.std.specs.Prelude.{◌≡◌, ◌∷◌, [], pos, length};
ghost use Rattle.memchr.specs.Find.{FindsNeedle};
ghost use Rattle.rawk_builtins.specs.Builtins.{place_of};

use memchr::arch::all::rabinkarp;
use memchr::{memchr, memmem};

/// How long a text is at least that is searched by `memmem`, which takes longer to set up; 11 bytes were measured.
const LONG: usize = 33;

/// How many bytes the text has (POSIX awk, String Functions).
#[inline]
pub fn length(text: &[u8]) -> i64
    ensures { result ≡ pos (length text.now) }
{
    text.len() as i64
}

/// How many bytes stand before a byte where it first stands in the text.
fn first_byte(text: &[u8], byte: u8) -> Option<usize>
    ensures { FindsNeedle text.now (byte ∷ []) 0 result }
{
    memchr(byte, text)
}

/// How many bytes stand before the part where it first stands in the text.
fn first(text: &[u8], part: &[u8]) -> Option<usize>
    ensures { FindsNeedle text.now part.now 0 result }
{
    if let [byte] = part {
        return first_byte(text, *byte);
    }
    if text.len() < LONG {
        return rabinkarp::Finder::new(part).find(text, part);
    }
    memmem::find(text, part)
}

/// The place, counted from 1, where the part first stands in the text, or 0 where it stands nowhere (POSIX awk, String
/// Functions). An empty part stands at 1. It takes no memory.
pub fn index(text: &[u8], part: &[u8]) -> i64
    ensures { result ≡ pos (place_of text.now part.now) }
{
    match first(text, part) {
        Some(before) => before as i64 + 1,
        None => 0,
    }
}
