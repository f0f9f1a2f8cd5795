//! Conversion specifications of `printf`, as a format writes them.

ghost use Rattle.std.specs.Prelude.{◌≡◌, ℕ, ◌≤◌, ◌==◌, ◌||◌, length, Ok, IfOk};
ghost use Rattle.std.specs.List.{prefix_len, take_while};
ghost use Rattle.std.specs.Str.Parse.{digits_value};
ghost use Rattle.rawk_value.specs.Values.{is_digit, next_ok};
ghost use Rattle.rawk_value.specs.Scans.{held};
ghost use Rattle.rawk_format.specs.Format.{is_flag, flags_of, limited, written_width, width_size, written_precision, precision_size, conversion_named, read_conversion, read_precision, read_width, directive, seen};

use rawk_value::fault::Fault;
use rawk_value::scan::{Run, after, begins_with, begins_with_digit, digits};

/// The greatest width and precision.
pub const LIMIT: u64 = 1_000_000;

/// What a specification's flags ask for.
#[derive(Clone, Copy)]
pub struct Flags {
    pub minus: bool,
    pub plus: bool,
    pub space: bool,
    pub alternate: bool,
    pub zero: bool,
}

/// How a width or a precision is written: not at all, as a number, or as the next argument's.
#[derive(Clone, Copy)]
pub enum Amount {
    Missing,
    Given(u32),
    Argument,
}

/// What a specification converts its value to.
#[derive(Clone, Copy)]
pub enum Conversion {
    Decimal,
    Octal,
    Unsigned,
    Hexadecimal,
    UpperHexadecimal,
    Fixed,
    Character,
    Text,
}

/// A conversion specification: its flags, its width, its precision and its conversion.
#[derive(Clone, Copy)]
pub struct Specification {
    pub flags: Flags,
    pub width: Amount,
    pub precision: Amount,
    pub conversion: Conversion,
}

/// A specification, and what follows it in the format.
#[derive(Clone, Copy)]
pub struct Directive<'a> {
    pub specification: Specification,
    pub rest: &'a [u8],
}

fn is_flag(byte: u8) -> bool
    ensures { result ≡ is_flag byte }
{
    matches!(byte, b'-' | b'+' | b' ' | b'#' | b'0')
}

fn flags_len(text: &[u8]) -> usize
    ensures value { result ≡ prefix_len is_flag text.now }
    ensures within { result ≤ length text.now }
{
    text.iter().take_while(|b| is_flag(**b)).count()
}

// The flags, and the one that a byte asks for.
#[inline(always)]
fn with_flag(byte: u8, flags: Flags) -> Flags
    ensures { result ≡ record { minus = flags.minus || (byte == 45); plus = flags.plus || (byte == 43); space = flags.space || (byte == 32); alternate = flags.alternate || (byte == 35); zero = flags.zero || (byte == 48) } }
{
    Flags {
        minus: flags.minus || byte == b'-',
        plus: flags.plus || byte == b'+',
        space: flags.space || byte == b' ',
        alternate: flags.alternate || byte == b'#',
        zero: flags.zero || byte == b'0',
    }
}

fn flags_of(run: &[u8]) -> Flags
    ensures { result ≡ flags_of run.now }
{
    let mut flags = Flags {
        minus: false,
        plus: false,
        space: false,
        alternate: false,
        zero: false,
    };
    let mut left = run;
    'flags: while let [first, rest @ ..] = left {
        flags = with_flag(*first, flags);
        left = rest;
    }
    flags
}

// A written width or precision, of which the size is held.
fn given(size: u64) -> Result<Amount, Fault>
    ensures { (n : ℕ) → size ≡ held n → result ≡ next_ok (limited n) (λ n. Ok (Amount.Given n)) }
{
    if size <= LIMIT {
        Ok(Amount::Given(size as u32))
    } else {
        Err(Fault::BadFormat)
    }
}

// The width that a text begins with, beside the digits that it begins with.
#[inline]
fn written_width(text: &[u8], digits: Run) -> Result<Amount, Fault>
    requires { digits.size ≡ held (digits_value 10 (take_while is_digit text.now)) }
    ensures { result ≡ written_width text.now }
{
    if begins_with(text, b'*') {
        Ok(Amount::Argument)
    } else if begins_with_digit(text) {
        given(digits.size)
    } else {
        Ok(Amount::Missing)
    }
}

#[inline]
fn width_size(text: &[u8], digits: Run) -> usize
    requires len { digits.len ≡ prefix_len is_digit text.now }
    requires inside { digits.len ≤ length text.now }
    ensures value { result ≡ width_size text.now }
    ensures within { result ≤ length text.now }
{
    if begins_with(text, b'*') {
        1
    } else {
        digits.len
    }
}

fn written_precision(text: &[u8]) -> Result<Amount, Fault>
    ensures { result ≡ written_precision text.now }
{
    if !begins_with(text, b'.') {
        return Ok(Amount::Missing);
    }
    let number = after(text, 1);
    if begins_with(number, b'*') {
        Ok(Amount::Argument)
    } else {
        given(digits(number).size)
    }
}

fn precision_size(text: &[u8]) -> usize
    ensures value { result ≡ precision_size text.now }
    ensures within { result ≤ length text.now }
{
    if begins_with(text, b'.') {
        let number = after(text, 1);
        1 + width_size(number, digits(number))
    } else {
        0
    }
}

fn conversion_named(byte: u8) -> Result<Conversion, Fault>
    ensures { result ≡ conversion_named byte }
{
    match byte {
        b'd' | b'i' => Ok(Conversion::Decimal),
        b'o' => Ok(Conversion::Octal),
        b'u' => Ok(Conversion::Unsigned),
        b'x' => Ok(Conversion::Hexadecimal),
        b'X' => Ok(Conversion::UpperHexadecimal),
        b'f' => Ok(Conversion::Fixed),
        b'c' => Ok(Conversion::Character),
        b's' => Ok(Conversion::Text),
        _ => Err(Fault::BadFormat),
    }
}

fn read_conversion(
    flags: Flags,
    width: Amount,
    precision: Amount,
    text: &[u8],
) -> Result<Directive<'_>, Fault>
    ensures value { seen result ≡ read_conversion flags width precision text.now }
    ensures shorter { IfOk result (λ d. length d.rest.now ≤ length text.now) }
{
    match text {
        [] => Err(Fault::BadFormat),
        [first, rest @ ..] => {
            let conversion = conversion_named(*first)?;
            let specification = Specification {
                flags,
                width,
                precision,
                conversion,
            };
            Ok(Directive {
                specification,
                rest,
            })
        }
    }
}

fn read_precision(flags: Flags, width: Amount, text: &[u8]) -> Result<Directive<'_>, Fault>
    ensures value { seen result ≡ read_precision flags width text.now }
    ensures shorter { IfOk result (λ d. length d.rest.now ≤ length text.now) }
{
    let precision = written_precision(text)?;
    let at_conversion = after(text, precision_size(text));
    read_conversion(flags, width, precision, at_conversion)
}

fn read_width(flags: Flags, text: &[u8]) -> Result<Directive<'_>, Fault>
    ensures value { seen result ≡ read_width flags text.now }
    ensures shorter { IfOk result (λ d. length d.rest.now ≤ length text.now) }
{
    let digits = digits(text);
    let width = written_width(text, digits)?;
    read_precision(flags, width, after(text, width_size(text, digits)))
}

/// The specification that follows a percent sign: flags, a width, a precision and a conversion (POSIX XBD 5, File Format
/// Notation). It is `BadFormat` where none does, and where a width or a precision is above 1,000,000.
pub fn read_directive(text: &[u8]) -> Result<Directive<'_>, Fault>
    ensures value { seen result ≡ directive text.now }
    ensures shorter { IfOk result (λ d. length d.rest.now ≤ length text.now) }
{
    let len = flags_len(text);
    let run = &text[..len];
    read_width(flags_of(run), after(text, len))
}
