//! Where records end among the kept bytes.
ghost use Rattle.std.specs.Prelude.{◌≤◌, ◌<◌, ℕ, length};
ghost use Rattle.memchr.specs.Find.{IsFirst, Passes, is_byte};
ghost use Rattle.rawk_tape.specs.Paragraphs.{AllNewlines, NoBreak, Stops, Breaks, IsScanned, IsParagraph};

use crate::Found;
use memchr::memchr;

/// The first place of this byte, from a place on.
pub(crate) fn find_in(bytes: &[u8], separator: u8, from: usize) -> Option<usize>
    requires { from ≤ length bytes.now }
    ensures { IsFirst (Passes (is_byte separator) bytes.now) from (length bytes.now) result }
{
    match memchr(separator, &bytes[from..]) {
        Some(at) => Some(from + at),
        None => None,
    }
}

/// The place behind the newlines that stand from a place on.
fn skip_newlines(bytes: &[u8], from: usize) -> usize
    requires { from ≤ length bytes.now }
    ensures low { from ≤ result }
    ensures high { result ≤ length bytes.now }
    ensures newlines { AllNewlines bytes.now from result }
    ensures stops { Stops bytes.now result }
{
    let mut at = from;
    while at < bytes.len() && bytes[at] == b'\n' {
        at += 1;
    }
    at
}

/// The first newline from a place on that a newline or the end follows, or the end.
fn find_break(bytes: &[u8], from: usize) -> usize
    requires { from ≤ length bytes.now }
    ensures low { from ≤ result }
    ensures high { result ≤ length bytes.now }
    ensures inside { NoBreak bytes.now from result }
    ensures ends { Breaks bytes.now result }
{
    let mut at = from;
    while let Some(place) = find_in(bytes, b'\n', at) {
        if place + 1 == bytes.len() || bytes[place + 1] == b'\n' {
            return place;
        }
        at = place + 1;
    }
    bytes.len()
}

/// The paragraph, from what is known of it so far. Bytes scanned before are not scanned again.
pub(crate) fn scan_paragraph(bytes: &[u8], so_far: Found) -> Found
    requires start { so_far.start ≤ length bytes.now }
    requires end { so_far.end ≤ length bytes.now }
    requires count { so_far.count ≤ length bytes.now }
    ensures low { so_far.start ≤ result.start }
    ensures text { result.start ≤ result.end }
    ensures after { result.end ≤ result.count }
    ensures high { result.count ≤ length bytes.now }
    ensures further { so_far.count ≤ result.count }
    ensures paragraph { (start : ℕ) → IsScanned bytes.now start so_far →
        IsParagraph bytes.now start result }
{
    let first = skip_newlines(bytes, so_far.start);
    let end = find_break(bytes, so_far.end.max(first));
    let after = skip_newlines(bytes, so_far.count.max(end));
    Found {
        start: first,
        end,
        count: after,
    }
}
