//! Bytes of a pattern: digits and escapes.

ghost use Rattle.std.specs.Prelude.{◌≡◌, ◌+◌, ◌-◌, ◌*◌, ◌<◌, ◌≤◌, [], length, drop, min, Some, None, MatchOption};
ghost use Rattle.rawk_ere_pattern.specs.Pattern.{is_digit, is_octal, begins, begins_digit, digits_from, octal_from, escaped_byte, escape};

/// Whether the byte stands at a place. Nothing stands past the end.
pub fn is_at(pattern: &[u8], at: usize, byte: u8) -> bool
    ensures { result ≡ begins byte (drop at pattern.now) }
{
    at < pattern.len() && pattern[at] == byte
}

/// Whether the byte is a digit.
pub fn digit(byte: u8) -> bool
    ensures { result ≡ is_digit byte }
{
    48 <= byte && byte <= 57
}

/// Whether the byte is an octal digit.
pub fn octal_digit(byte: u8) -> bool
    ensures { result ≡ is_octal byte }
{
    48 <= byte && byte <= 55
}

/// Whether a digit stands at a place.
pub fn digit_at(pattern: &[u8], at: usize) -> bool
    ensures { result ≡ begins_digit (drop at pattern.now) }
{
    at < pattern.len() && digit(pattern[at])
}

/// The number that the digits at a place make, or 256 if it is above 255, and the place after them.
pub fn digits(pattern: &[u8], at: usize) -> (u16, usize)
    requires { at ≤ length pattern.now }
    ensures within { (at ≤ result.1) × (result.1 ≤ length pattern.now) }
    ensures value { result.0 ≡ min (digits_from 0 (drop at pattern.now)).0 256 }
    ensures rest { drop result.1 pattern.now ≡ (digits_from 0 (drop at pattern.now)).1 }
{
    let mut value: u16 = 0;
    for next in at..pattern.len() {
        let byte = pattern[next];
        if !digit(byte) {
            return (value, next);
        }
        value = (value * 10 + (byte - 48) as u16).min(256);
    }
    (value, pattern.len())
}

/// The byte that a backslash and this byte stand for.
fn escaped(byte: u8) -> Option<u8>
    ensures { result ≡ escaped_byte byte }
{
    match byte {
        b'a' => Some(7),
        b'b' => Some(8),
        b'f' => Some(12),
        b'n' => Some(10),
        b'r' => Some(13),
        b't' => Some(9),
        b'v' => Some(11),
        b'0'..=b'9' | b'A'..=b'Z' | b'a'..=b'z' | b'<' | b'>' | b'\'' | b'`' => None,
        _ => Some(byte),
    }
}

/// The number that a value and at most two octal digits make, and the place after them.
fn octal(pattern: &[u8], at: usize, value: u16) -> (u16, usize)
    requires at { at ≤ length pattern.now }
    requires value { value < 8 }
    ensures within { (at ≤ result.1) × (result.1 ≤ length pattern.now) }
    ensures is { octal_from 2 value (drop at pattern.now) ≡ (result.0, drop result.1 pattern.now) }
{
    if at >= pattern.len() || !octal_digit(pattern[at]) {
        return (value, at);
    }
    let two = value * 8 + (pattern[at] - 48) as u16;
    let next = at + 1;
    if next >= pattern.len() || !octal_digit(pattern[next]) {
        return (two, next);
    }
    (two * 8 + (pattern[next] - 48) as u16, next + 1)
}

/// The byte that the text after a backslash stands for, and the place after it.
pub fn unescape(pattern: &[u8], at: usize) -> Option<(u8, usize)>
    requires { at ≤ length pattern.now }
    ensures is { MatchOption result (escape (drop at pattern.now) ≡ None) (λ r. escape (drop at pattern.now) ≡ Some (r.0, drop r.1 pattern.now)) }
    ensures within { MatchOption result (Unit {0}) (λ r. (at < r.1) × (r.1 ≤ length pattern.now)) }
{
    if at >= pattern.len() {
        return None;
    }
    let byte = pattern[at];
    if octal_digit(byte) {
        let (value, next) = octal(pattern, at + 1, (byte - 48) as u16);
        return Some(((value % 256) as u8, next));
    }
    match escaped(byte) {
        None => None,
        Some(is) => Some((is, at + 1)),
    }
}
