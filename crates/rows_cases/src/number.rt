//! Numbers in parts.

/// The number that a part is in decimal digits, if it is one.
pub fn number_of(part: &[u8]) -> Option<usize> {
    match str::from_utf8(part) {
        Ok(text) => text.parse().ok(),
        Err(_) => None,
    }
}

/// The words of a part such as `sink fails 3`, and the number behind them, if one stands there.
pub fn setting_of(part: &[u8]) -> (&[u8], Option<usize>) {
    match part.iter().rposition(|b| *b == b' ') {
        Some(at) => (&part[..at], number_of(&part[at + 1..])),
        None => (part, None),
    }
}
