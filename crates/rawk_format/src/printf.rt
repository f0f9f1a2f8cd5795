//! What `printf` writes.

ghost use Rattle.std.specs.Prelude.{◌≡◌, ◌≢◌, ◌≤◌, ◌++◌, ◌∷◌, [], Ok, Err, length, take, IfOk, IfErr, MatchOption, OnOk, OnErr};
ghost use Rattle.rawk_value.specs.Values.{int_text, next_ok};
ghost use Rattle.std.specs.List.{prefix_len};
ghost use Rattle.rawk_format.specs.Grown.{Follows, is_plain};
ghost use Rattle.rawk_format.specs.Format.{cut, byte_of, plain_text, number_text, converted, value_item, specified, percent_item, directive, formatted, AddsText, AddsItem};
ghost use Rattle.rawk_value.specs.declared.fault.Fault.TheVariants.{OutOfMemory};

use crate::figure::{figure_of, push_bytes, push_figure, push_padded};
use crate::layout::{Layout, layout_of, left_after, star_count};
use crate::specification::{Conversion, Specification, read_directive};
use itoa::Buffer;
use rawk_value::fault::Fault;
use rawk_value::number::number_of;
use rawk_value::order::{number_if_counts, text_in};
use rawk_value::push_text;
use rawk_value::scan::{after, first_and_rest};
use rawk_value::value::Value;
use std::alloc::{AllocError, Global};

/// What is left of a format and of its arguments.
#[derive(Clone, Copy)]
pub struct Left<'a> {
    pub rest: &'a [u8],
    pub values: &'a [Value],
}

fn cut(precision: Option<usize>, text: &[u8]) -> &[u8]
    ensures { result.now ≡ cut precision text.now }
{
    match precision {
        None => text,
        Some(n) => first_bytes(text, n),
    }
}

fn first_bytes(text: &[u8], count: usize) -> &[u8]
    ensures { result.now ≡ take count text.now }
{
    if count < text.len() {
        &text[..count]
    } else {
        text
    }
}

fn push_number(out: &mut Vec<u8>, layout: Layout, number: Result<i64, Fault>) -> Result<(), Fault>
    ensures added { AddsText out.old.items out.new.items result (next_ok number (λ z. Ok (number_text layout z))) }
    ensures kept { Follows out.old.items out.new.items }
{
    let z = number?;
    push_figure(out, layout.left, layout.width, figure_of(layout, z))?;
    Ok(())
}

fn push_byte(out: &mut Vec<u8>, layout: Layout, z: i64) -> Result<(), Fault>
    ensures added { AddsText out.old.items out.new.items result (next_ok (byte_of z) (λ text. Ok (plain_text layout text))) }
    ensures kept { Follows out.old.items out.new.items }
{
    if 0 <= z && z < 256 {
        push_padded(out, layout.left, layout.width, &[z as u8])?;
        Ok(())
    } else {
        Err(Fault::BadFormat)
    }
}

fn push_character(out: &mut Vec<u8>, layout: Layout, value: &Value) -> Result<(), Fault>
    ensures added { AddsText out.old.items out.new.items result (converted Conversion.Character layout value.now) }
    ensures kept { Follows out.old.items out.new.items }
{
    match number_if_counts(value) {
        Some(number) => push_byte(out, layout, number?),
        None => {
            let mut digits = Buffer::new();
            let text = first_bytes(text_in(value, &mut digits), 1);
            push_padded(out, layout.left, layout.width, text)?;
            Ok(())
        }
    }
}

fn push_cut(out: &mut Vec<u8>, layout: Layout, value: &Value) -> Result<(), Fault>
    ensures added { AddsText out.old.items out.new.items result (converted Conversion.Text layout value.now) }
    ensures kept { Follows out.old.items out.new.items }
{
    let mut digits = Buffer::new();
    let text = text_in(value, &mut digits);
    push_padded(out, layout.left, layout.width, cut(layout.precision, text))?;
    Ok(())
}

// Adds a value under its layout.
fn push_converted(out: &mut Vec<u8>, layout: Layout, value: &Value) -> Result<(), Fault>
    ensures added { AddsText out.old.items out.new.items result (converted layout.conversion layout value.now) }
    ensures kept { Follows out.old.items out.new.items }
{
    match layout.conversion {
        Conversion::Character => push_character(out, layout, value),
        Conversion::Text => push_cut(out, layout, value),
        Conversion::Decimal => push_number(out, layout, number_of(value)),
        Conversion::Octal => push_number(out, layout, number_of(value)),
        Conversion::Unsigned => push_number(out, layout, number_of(value)),
        Conversion::Hexadecimal => push_number(out, layout, number_of(value)),
        Conversion::UpperHexadecimal => push_number(out, layout, number_of(value)),
        Conversion::Fixed => push_number(out, layout, number_of(value)),
    }
}

// Adds the next argument under a layout.
fn push_value<'a>(
    out: &mut Vec<u8>,
    layout: Layout,
    rest: &'a [u8],
    values: &'a [Value],
) -> Result<Left<'a>, Fault>
    ensures added { AddsItem out.old.items out.new.items result (value_item layout rest.now values.now) }
    ensures shorter { IfOk result (λ l. length l.rest.now ≤ length rest.now) }
    ensures kept { Follows out.old.items out.new.items }
{
    match values.first() {
        None => Err(Fault::BadFormat),
        Some(value) => {
            push_converted(out, layout, value)?;
            Ok(Left {
                rest,
                values: left_after(values, 1),
            })
        }
    }
}

// Adds what a specification writes, which is followed by the rest.
fn push_specified<'a>(
    out: &mut Vec<u8>,
    specification: Specification,
    rest: &'a [u8],
    values: &'a [Value],
) -> Result<Left<'a>, Fault>
    ensures added { AddsItem out.old.items out.new.items result (specified specification rest.now values.now) }
    ensures shorter { IfOk result (λ l. length l.rest.now ≤ length rest.now) }
    ensures kept { Follows out.old.items out.new.items }
{
    let layout = layout_of(specification, values)?;
    let count = star_count(specification.width) + star_count(specification.precision);
    push_value(out, layout, rest, left_after(values, count))
}

// The next argument, and those after it.
#[inline(always)]
fn first_value(values: &[Value]) -> Option<(&Value, &[Value])>
    ensures { MatchOption result (values.now ≡ []) (λ p. values.now ≡ p.0.now ∷ p.1.now) }
{
    match values {
        [] => None,
        [value, values @ ..] => Some((value, values)),
    }
}

// Adds the text of the next argument, as `%s` asks for it.
#[inline]
fn push_plain<'a>(out: &mut Vec<u8>, rest: &'a [u8], values: &'a [Value]) -> Result<Left<'a>, Fault>
    ensures added { AddsItem out.old.items out.new.items result (percent_item (115 ∷ rest.now) values.now) }
    ensures shorter { IfOk result (λ l. length l.rest.now ≤ length rest.now) }
    ensures kept { Follows out.old.items out.new.items }
{
    match first_value(values) {
        None => Err(Fault::BadFormat),
        Some((value, values)) => {
            push_text(out, value)?;
            Ok(Left { rest, values })
        }
    }
}

// Adds a number's text.
#[inline(always)]
fn push_decimal(out: &mut Vec<u8>, number: Result<i64, Fault>) -> Result<(), Fault>
    ensures added { AddsText out.old.items out.new.items result (next_ok number (λ z. Ok (int_text z))) }
    ensures kept { Follows out.old.items out.new.items }
{
    let z = number?;
    rawk_value::push_number(out, z)?;
    Ok(())
}

// Adds the number of the next argument, as `%d` asks for it.
#[inline]
fn push_whole<'a>(out: &mut Vec<u8>, rest: &'a [u8], values: &'a [Value]) -> Result<Left<'a>, Fault>
    ensures added { AddsItem out.old.items out.new.items result (percent_item (100 ∷ rest.now) values.now) }
    ensures shorter { IfOk result (λ l. length l.rest.now ≤ length rest.now) }
    ensures kept { Follows out.old.items out.new.items }
{
    match first_value(values) {
        None => Err(Fault::BadFormat),
        Some((value, values)) => {
            push_decimal(out, number_of(value))?;
            Ok(Left { rest, values })
        }
    }
}

// Adds what a percent sign and a specification write.
fn push_directive<'a>(
    out: &mut Vec<u8>,
    text: &'a [u8],
    values: &'a [Value],
) -> Result<Left<'a>, Fault>
    ensures added { AddsItem out.old.items out.new.items result (next_ok (directive text.now) (λ r. specified r.specification r.rest values.now)) }
    ensures shorter { IfOk result (λ l. length l.rest.now ≤ length text.now) }
    ensures kept { Follows out.old.items out.new.items }
{
    let directive = read_directive(text)?;
    push_specified(out, directive.specification, directive.rest, values)
}

// Adds what follows a percent sign.
#[inline(always)]
fn push_percent<'a>(
    out: &mut Vec<u8>,
    text: &'a [u8],
    values: &'a [Value],
) -> Result<Left<'a>, Fault>
    ensures added { AddsItem out.old.items out.new.items result (percent_item text.now values.now) }
    ensures shorter { IfOk result (λ l. length l.rest.now ≤ length text.now) }
    ensures kept { Follows out.old.items out.new.items }
{
    match text {
        [] => Err(Fault::BadFormat),
        [first, rest @ ..] => {
            if *first == b's' {
                push_plain(out, rest, values)
            } else if *first == b'd' {
                push_whole(out, rest, values)
            } else if *first == b'%' {
                out.push(b'%')?;
                Ok(Left { rest, values })
            } else {
                push_directive(out, text, values)
            }
        }
    }
}

// How many bytes stand before the first percent sign.
#[inline(always)]
fn run_len(text: &[u8]) -> usize
    ensures value { result ≡ prefix_len is_plain text.now }
    ensures within { result ≤ length text.now }
{
    text.iter().take_while(|b| **b != b'%').count()
}

// Adds the bytes before the first percent sign, and tells how many they are.
#[inline(always)]
fn push_run(out: &mut Vec<u8>, text: &[u8]) -> Result<usize, AllocError>
    ensures added { OnOk result (out.new.items ≡ out.old.items ++ take (prefix_len is_plain text.now) text.now) }
    ensures len { IfOk result (λ len. len ≡ prefix_len is_plain text.now) }
    ensures within { IfOk result (λ len. len ≤ length text.now) }
    ensures kept { Follows out.old.items out.new.items }
{
    let len = run_len(text);
    push_bytes(out, &text[..len])?;
    Ok(len)
}

// Adds the items of a format.
fn push_items(out: &mut Vec<u8>, format: &[u8], values: &[Value]) -> Result<(), Fault>
    ensures added { AddsText out.old.items out.new.items result (formatted format.now values.now) }
    ensures kept { Follows out.old.items out.new.items }
{
    let mut rest = format;
    let mut left = values;
    'items: loop {
        let len = push_run(out, rest)?;
        match first_and_rest(after(rest, len)) {
            None => return Ok(()),
            Some((_, tail)) => match push_percent(out, tail, left) {
                Ok(next) => {
                    rest = next.rest;
                    left = next.values;
                }
                Err(fault) => return Err(fault),
            },
        }
    }
}

/// Adds what `printf` writes for a format and its arguments (POSIX awk, Output Statements and Formatted Output): the bytes of
/// the format, and for each specification, from left to right, the arguments that it takes. Arguments left over are ignored.
///
/// It is `BadFormat` for a specification of another form, a width or precision above 1,000,000, a missing argument and a
/// character above 255; `Overflow` or `Fraction` where a number is needed that is none of 64 bits; and `OutOfMemory` where
/// memory is refused. After a fault the buffer holds what it held before. It takes time linear in the format and the result.
pub fn push_format(out: &mut Vec<u8>, format: &[u8], values: &[Value]) -> Result<(), Fault>
    ensures added { AddsText out.old.items out.new.items result (formatted format.now values.now) }
    ensures kept { Follows out.old.items out.new.items }
    ensures err { OnErr result (out.new.items ≡ out.old.items) }
{
    let len = out.len();
    match push_items(out, format, values) {
        Ok(()) => Ok(()),
        Err(fault) => {
            out.truncate(len);
            Err(fault)
        }
    }
}

/// What `push_format` adds, in a buffer of its own, with the same faults.
pub fn format(alloc: Global, format: &[u8], values: &[Value]) -> Result<Vec<u8>, Fault>
    ensures ok { IfOk result (λ text. formatted format.now values.now ≡ Ok text.items) }
    ensures err { IfErr result (λ fault. fault ≢ OutOfMemory → formatted format.now values.now ≡ Err fault) }
{
    let mut out = Vec::new(alloc);
    match push_format(&mut out, format, values) {
        Ok(()) => Ok(out),
        Err(fault) => Err(fault),
    }
}
