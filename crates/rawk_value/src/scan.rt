//! The numeric front of a text, in one pass.

ghost use Rattle.std.specs.Prelude.{◌≡◌, ℕ, ◌+◌, ◌*◌, ◌≤◌, ◌==◌, ◌&&◌, pos, neg_ℤ, length, drop, if◌then◌else◌, MatchOption, [], ◌∷◌};
ghost use Rattle.std.specs.List.{prefix_len, take_while, list_all};
ghost use Rattle.std.specs.Str.Parse.{digits_value};
ghost use Rattle.rawk_value.specs.Values.{Front, front, begins, is_blank, is_digit, sign_size, exponent_size, checked};
ghost use Rattle.rawk_value.specs.Scans.{Summarizes, held, part_of, point_size};

use crate::fault::Fault;

/// What a pass over a text found of its numeric front.
#[derive(Clone, Copy)]
pub struct Scan<'a> {
    pub negative: bool,
    /// The value of the digits before the point, at most the greatest of 64 bits.
    pub size: u64,
    pub has_digits: bool,
    /// Whether a digit after the point is not 0.
    pub has_part: bool,
    pub has_exponent: bool,
    /// What follows the front.
    pub rest: &'a [u8],
}

/// A run of digits: how many they are, and their value, at most the greatest of 64 bits.
#[derive(Clone, Copy)]
pub struct Run {
    pub len: usize,
    pub size: u64,
}

#[inline]
fn is_blank(byte: u8) -> bool
    ensures { result ≡ is_blank byte }
{
    matches!(byte, b' ' | b'\t' | b'\n')
}

#[inline]
fn all_blank(text: &[u8]) -> bool
    ensures { result ≡ list_all is_blank text.now }
{
    text.iter().all(|b| is_blank(*b))
}

#[inline]
fn is_digit(byte: u8) -> bool
    ensures { result ≡ is_digit byte }
{
    byte.is_ascii_digit()
}

#[inline]
fn blanks(text: &[u8]) -> usize
    ensures value { result ≡ prefix_len is_blank text.now }
    ensures within { result ≤ length text.now }
{
    text.iter().take_while(|b| is_blank(**b)).count()
}

/// The digits that the text begins with.
#[inline]
pub fn digits(text: &[u8]) -> Run
    ensures len { result.len ≡ prefix_len is_digit text.now }
    ensures size { result.size ≡ held (digits_value 10 (take_while is_digit text.now)) }
    ensures within { result.len ≤ length text.now }
{
    let mut size = 0u64;
    for (i, b) in text.iter().enumerate() {
        let byte = *b;
        if !is_digit(byte) {
            return Run { len: i, size };
        }
        size = with_digit(size, byte - b'0');
    }
    Run {
        len: text.len(),
        size,
    }
}

// The size with one more digit.
#[inline]
fn with_digit(size: u64, digit: u8) -> u64
    requires { digit ≤ 9 }
    ensures { (n : ℕ) → size ≡ held n → result ≡ held (n * 10 + digit) }
{
    if size < 1_000_000_000_000_000_000 {
        size * 10 + digit as u64
    } else {
        size.saturating_mul(10).saturating_add(digit as u64)
    }
}

// How long the sign is that the text begins with.
#[inline]
fn sign(text: &[u8]) -> usize
    ensures value { result ≡ sign_size text.now }
    ensures within { result ≤ length text.now }
{
    match text.first() {
        Some(b'-' | b'+') => 1,
        _ => 0,
    }
}

/// Whether the text begins with the byte.
#[inline]
pub fn begins_with(text: &[u8], byte: u8) -> bool
    ensures { result ≡ begins (λ b. b == byte) text.now }
{
    match text.first() {
        None => false,
        Some(b) => *b == byte,
    }
}

/// Whether the text begins with a digit.
#[inline]
pub fn begins_with_digit(text: &[u8]) -> bool
    ensures { result ≡ begins is_digit text.now }
{
    match text.first() {
        None => false,
        Some(b) => is_digit(*b),
    }
}

// How long the point is that the text begins with.
#[inline]
fn point(text: &[u8]) -> usize
    ensures value { result ≡ point_size text.now }
    ensures within { result ≤ length text.now }
{
    if begins_with(text, b'.') { 1 } else { 0 }
}

// The digits after the point: how many they are, and their value.
#[inline]
fn part(text: &[u8]) -> Run
    ensures len { result.len ≡ length (part_of text.now) }
    ensures size { result.size ≡ held (digits_value 10 (part_of text.now)) }
    ensures within { point_size text.now + result.len ≤ length text.now }
{
    if point(text) == 0 {
        Run { len: 0, size: 0 }
    } else {
        digits(after(text, 1))
    }
}

// How long the exponent is that the text begins with, and 0 where it has no digits.
#[inline]
fn exponent(text: &[u8]) -> usize
    ensures value { result ≡ exponent_size text.now }
    ensures within { result ≤ length text.now }
{
    if !begins_with(text, b'e') && !begins_with(text, b'E') {
        return 0;
    }
    let before = 1 + sign(after(text, 1));
    let run = digits(after(text, before));
    if run.len == 0 { 0 } else { before + run.len }
}

/// The first byte, and what follows it.
#[inline]
pub fn first_and_rest(text: &[u8]) -> Option<(u8, &[u8])>
    ensures { MatchOption result (text.now ≡ []) (λ p. text.now ≡ p.0 ∷ p.1.now) }
{
    match text {
        [] => None,
        [first, rest @ ..] => Some((*first, rest)),
    }
}

/// What follows the first bytes.
#[inline]
pub fn after(text: &[u8], count: usize) -> &[u8]
    requires { count ≤ length text.now }
    ensures { result.now ≡ drop count text.now }
{
    &text[count..]
}

/// One pass over the text's numeric front (POSIX awk, Expressions in awk: a string is converted as by C's `strtod`).
#[inline]
pub fn scanned(text: &[u8]) -> Scan<'_>
    ensures { Summarizes result (front text.now) }
{
    let at_sign = after(text, blanks(text));
    let at_digits = after(at_sign, sign(at_sign));
    let whole = digits(at_digits);
    let at_point = after(at_digits, whole.len);
    let part = part(at_point);
    let at_exponent = after(at_point, point(at_point) + part.len);
    let size = exponent(at_exponent);
    Scan {
        negative: begins_with(at_sign, b'-'),
        size: whole.size,
        has_digits: 0 < whole.len + part.len,
        has_part: part.size != 0,
        has_exponent: 0 < size,
        rest: after(at_exponent, size),
    }
}

// The number of a size and a sign, which is `Overflow` where it does not fit 64 bits.
#[inline]
fn signed(negative: bool, size: u64) -> Result<i64, Fault>
    ensures { (n : ℕ) → size ≡ held n → result ≡ checked (if negative then neg_ℤ (pos n) else pos n) }
{
    if negative {
        0i64.checked_sub_unsigned(size).ok_or(Fault::Overflow)
    } else {
        0i64.checked_add_unsigned(size).ok_or(Fault::Overflow)
    }
}

impl Scan<'_> {
    ghost use Rattle.rawk_value.specs.Values.{front_number, int_front, has_digits};

    /// The front's number, 0 where it has no digits. It is `Fraction` where it has an exponent or a digit other than 0 behind its point, and `Overflow` where it is too large.
    #[inline]
    pub fn number(&self) -> Result<i64, Fault>
        ensures { (f : Front) → Summarizes self.now f → result ≡ front_number f }
    {
        if !self.has_digits {
            Ok(0)
        } else if self.has_exponent || self.has_part {
            Err(Fault::Fraction)
        } else {
            signed(self.negative, self.size)
        }
    }

    /// The front's number without the digits after its point, 0 where it has no digits.
    /// It is `Fraction` where it has an exponent and `Overflow` where it is too large.
    #[inline]
    pub fn whole(&self) -> Result<i64, Fault>
        ensures { (f : Front) → Summarizes self.now f → result ≡ int_front f }
    {
        if !self.has_digits {
            Ok(0)
        } else if self.has_exponent {
            Err(Fault::Fraction)
        } else {
            signed(self.negative, self.size)
        }
    }

    /// Whether the text is a number: it has digits, and only blanks follow its front.
    #[inline]
    pub fn is_numeric(&self) -> bool
        ensures { (f : Front) → Summarizes self.now f → result ≡ (has_digits f && list_all is_blank f.rest) }
    {
        self.has_digits && all_blank(self.rest)
    }
}
