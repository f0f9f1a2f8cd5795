//! Numbers as a conversion writes them, and how they are filled up to a width.

ghost use Rattle.std.specs.Prelude.{◌≡◌, ℕ, false, not, ◌&&◌, ◌||◌, ◌+◌, ◌-◌, ◌≤◌, ◌++◌, ◌∷◌, [], drop, length, replicate, map, OnOk, if◌then◌else◌};
ghost use Rattle.std.specs.Int.Digits.{digits_of};
ghost use Rattle.std.specs.Fmt.{digit_glyph};
ghost use Rattle.rawk_value.specs.Scans.{held};
ghost use Rattle.rawk_value.specs.Values.{is_zero};
ghost use Rattle.rawk_format.specs.Grown.{Follows};
ghost use Rattle.rawk_format.specs.Format.{sign_of, fills_whole, unsigned_figure, figure_as, twos, head_text, figure_body, padded, octal_least};

use crate::layout::{Figure, Head, Layout};
use crate::specification::{Conversion, Flags};
use std::alloc::AllocError;

fn sign_of(flags: Flags, z: i64) -> Head
    ensures { result ≡ sign_of flags z }
{
    if z < 0 {
        Head::Minus
    } else if flags.plus {
        Head::Plus
    } else if flags.space {
        Head::Space
    } else {
        Head::Nothing
    }
}

fn fills_whole(layout: Layout) -> bool
    ensures { result ≡ fills_whole layout }
{
    layout.flags.zero && !layout.left && layout.precision.is_none()
}

fn twos(z: i64) -> u64
    ensures { result ≡ twos z }
{
    z.cast_unsigned()
}

// The least number of octal digits.
fn octal_least(layout: Layout, n: u64) -> usize
    ensures { result ≡ octal_least layout n }
{
    if layout.flags.alternate {
        layout.precision.unwrap_or(1).max(digits_len(8, n) + 1)
    } else {
        layout.precision.unwrap_or(1)
    }
}

fn unsigned_figure(
    layout: Layout,
    head: Head,
    base: u64,
    upper: bool,
    least: usize,
    z: i64,
) -> Figure
    ensures { result ≡ unsigned_figure layout head base upper least z }
{
    Figure {
        head,
        base,
        upper,
        size: twos(z),
        least,
        point: false,
        zeros: 0,
        filled: fills_whole(layout),
    }
}

// The prefix of a hexadecimal number, which 0 has not.
fn prefix_of(layout: Layout, prefix: Head, z: i64) -> Head
    ensures { result ≡ (if layout.flags.alternate && not (is_zero z) then prefix else Head.Nothing) }
{
    if layout.flags.alternate && z != 0 {
        prefix
    } else {
        Head::Nothing
    }
}

fn decimal_figure(layout: Layout, z: i64) -> Figure
    ensures { result ≡ figure_as Conversion.Decimal layout z }
{
    Figure {
        head: sign_of(layout.flags, z),
        base: 10,
        upper: false,
        size: z.unsigned_abs(),
        least: layout.precision.unwrap_or(1),
        point: false,
        zeros: 0,
        filled: fills_whole(layout),
    }
}

fn fixed_figure(layout: Layout, z: i64) -> Figure
    ensures { result ≡ figure_as Conversion.Fixed layout z }
{
    let zeros = layout.precision.unwrap_or(6);
    Figure {
        head: sign_of(layout.flags, z),
        base: 10,
        upper: false,
        size: z.unsigned_abs(),
        least: 1,
        point: 0 < zeros || layout.flags.alternate,
        zeros,
        filled: layout.flags.zero && !layout.left,
    }
}

/// A number as its conversion writes it.
pub fn figure_of(layout: Layout, z: i64) -> Figure
    ensures value { result ≡ figure_as layout.conversion layout z }
    ensures base { (2 ≤ result.base) × (result.base ≤ 16) }
{
    let least = layout.precision.unwrap_or(1);
    match layout.conversion {
        Conversion::Decimal => decimal_figure(layout, z),
        Conversion::Fixed => fixed_figure(layout, z),
        Conversion::Octal => unsigned_figure(
            layout,
            Head::Nothing,
            8,
            false,
            octal_least(layout, twos(z)),
            z,
        ),
        Conversion::Hexadecimal => unsigned_figure(
            layout,
            prefix_of(layout, Head::Prefix, z),
            16,
            false,
            least,
            z,
        ),
        Conversion::UpperHexadecimal => unsigned_figure(
            layout,
            prefix_of(layout, Head::UpperPrefix, z),
            16,
            true,
            least,
            z,
        ),
        Conversion::Unsigned => unsigned_figure(layout, Head::Nothing, 10, false, least, z),
        Conversion::Character => unsigned_figure(layout, Head::Nothing, 10, false, least, z),
        Conversion::Text => unsigned_figure(layout, Head::Nothing, 10, false, least, z),
    }
}

// How many digits a number has, none for 0.
fn digits_len(base: u64, n: u64) -> usize
    requires { 2 ≤ base }
    ensures value { result ≡ length (digits_of base n) }
    ensures bound { result ≤ 64 }
{
    if n == 0 {
        0
    } else {
        digits_len(base, n / base) + 1
    }
}

#[inline(always)]
fn digit_glyph(upper: bool, digit: u8) -> u8
    requires { digit ≤ 15 }
    ensures { result ≡ digit_glyph upper digit }
{
    if digit < 10 {
        b'0' + digit
    } else if upper {
        b'A' - 10 + digit
    } else {
        b'a' - 10 + digit
    }
}

// Writes the digits of a number to the end of the buffer, none for 0; it gives where they begin.
fn write_digits(buffer: &mut [u8; 64], base: u64, upper: bool, n: u64) -> usize
    requires { (2 ≤ base) × (base ≤ 16) }
    ensures written { drop result buffer.new ≡ map (digit_glyph upper) (digits_of base n) }
    ensures within { result ≤ 64 }
{
    let mut at = 64;
    let mut left = n;
    'digits: while 0 < left {
        at -= 1;
        buffer[at] = digit_glyph(upper, (left % base) as u8);
        left /= base;
    }
    at
}

/// Adds bytes; none of them, and one alone, without the copy of a block.
#[inline(always)]
pub fn push_bytes(out: &mut Vec<u8>, bytes: &[u8]) -> Result<(), AllocError>
    ensures added { OnOk result (out.new.items ≡ out.old.items ++ bytes.now) }
    ensures kept { Follows out.old.items out.new.items }
{
    match bytes {
        [] => Ok(()),
        [byte] => {
            out.push(*byte)?;
            Ok(())
        }
        _ => out.extend_from_slice(bytes),
    }
}

/// Adds the byte `count` times.
#[inline(always)]
pub fn push_fill(out: &mut Vec<u8>, count: usize, byte: u8) -> Result<(), AllocError>
    ensures added { OnOk result (out.new.items ≡ out.old.items ++ replicate count byte) }
    ensures kept { Follows out.old.items out.new.items }
{
    if count == 0 {
        return Ok(());
    }
    fill(out, count, byte)
}

fn fill(out: &mut Vec<u8>, count: usize, byte: u8) -> Result<(), AllocError>
    ensures added { OnOk result (out.new.items ≡ out.old.items ++ replicate count byte) }
    ensures kept { Follows out.old.items out.new.items }
{
    match out.len().checked_add(count) {
        None => Err(AllocError),
        Some(len) => out.resize(len, byte),
    }
}

// Adds the digits, and zeros before them up to the least number of digits.
#[inline]
fn push_number_digits(out: &mut Vec<u8>, least: usize, digits: &[u8]) -> Result<(), AllocError>
    ensures added { OnOk result (out.new.items ≡ out.old.items ++ (replicate (least - length digits.now) 48 ++ digits.now)) }
    ensures kept { Follows out.old.items out.new.items }
{
    push_fill(out, least.saturating_sub(digits.len()), b'0')?;
    out.extend_from_slice(digits)
}

// Adds the point, where there is one.
#[inline]
fn push_point(out: &mut Vec<u8>, point: bool) -> Result<(), AllocError>
    ensures added { OnOk result (out.new.items ≡ out.old.items ++ (if point then 46 ∷ [] else [])) }
    ensures kept { Follows out.old.items out.new.items }
{
    if point {
        out.push(b'.')?;
    }
    Ok(())
}

// Adds what follows a head; the digits are the figure's.
#[inline]
fn push_body(out: &mut Vec<u8>, figure: Figure, digits: &[u8]) -> Result<(), AllocError>
    requires { digits.now ≡ map (digit_glyph figure.upper) (digits_of figure.base figure.size) }
    ensures added { OnOk result (out.new.items ≡ out.old.items ++ figure_body figure) }
    ensures kept { Follows out.old.items out.new.items }
{
    push_number_digits(out, figure.least, digits)?;
    push_point(out, figure.point)?;
    push_fill(out, figure.zeros, b'0')?;
    Ok(())
}

// How long the body is, with `digits` digits of the figure, at most the greatest of 64 bits.
#[inline]
fn body_len(figure: Figure, digits: usize) -> usize
    requires { digits ≡ length (digits_of figure.base figure.size) }
    ensures { result ≡ held (length (figure_body figure)) }
{
    let digits = digits.max(figure.least);
    let point = if figure.point { 1 } else { 0 };
    digits.saturating_add(point).saturating_add(figure.zeros)
}

#[inline]
fn head_text(head: Head) -> &'static [u8]
    ensures { result.now ≡ head_text head }
{
    match head {
        Head::Nothing => b"",
        Head::Minus => b"-",
        Head::Plus => b"+",
        Head::Space => b" ",
        Head::Prefix => b"0x",
        Head::UpperPrefix => b"0X",
    }
}

// The bytes to be filled up to a width.
fn room(width: usize, head: usize, body: usize) -> usize
    ensures { (n : ℕ) → body ≡ held n → result ≡ width - head - n }
{
    width.saturating_sub(head).saturating_sub(body)
}

#[inline(always)]
fn room_if(takes: bool, room: usize) -> usize
    ensures { result ≡ (if takes then room else 0) }
{
    if takes { room } else { 0 }
}

#[inline(always)]
fn room_unless(leaves: bool, room: usize) -> usize
    ensures { result ≡ (if leaves then 0 else room) }
{
    if leaves { 0 } else { room }
}

/// Adds a number, filled up to the width. It fails where memory is refused, and a part of it may then be there.
pub fn push_figure(
    out: &mut Vec<u8>,
    left: bool,
    width: usize,
    figure: Figure,
) -> Result<(), AllocError>
    requires { (2 ≤ figure.base) × (figure.base ≤ 16) }
    ensures added { OnOk result (out.new.items ≡ out.old.items ++ padded left figure.filled width (head_text figure.head) (figure_body figure)) }
    ensures kept { Follows out.old.items out.new.items }
{
    let mut buffer = [0; 64];
    let at = write_digits(&mut buffer, figure.base, figure.upper, figure.size);
    let digits = &buffer[at..];
    let head = head_text(figure.head);
    let room = room(width, head.len(), body_len(figure, digits.len()));
    push_fill(out, room_unless(left || figure.filled, room), b' ')?;
    push_bytes(out, head)?;
    push_fill(out, room_if(figure.filled, room), b'0')?;
    push_body(out, figure, digits)?;
    push_fill(out, room_if(left, room), b' ')?;
    Ok(())
}

/// Adds a text, filled up to the width by spaces. It fails where memory is refused, and a part of it may then be there.
pub fn push_padded(
    out: &mut Vec<u8>,
    left: bool,
    width: usize,
    text: &[u8],
) -> Result<(), AllocError>
    ensures added { OnOk result (out.new.items ≡ out.old.items ++ padded left false width [] text.now) }
    ensures kept { Follows out.old.items out.new.items }
{
    let room = width.saturating_sub(text.len());
    push_fill(out, room_unless(left, room), b' ')?;
    out.extend_from_slice(text)?;
    push_fill(out, room_if(left, room), b' ')?;
    Ok(())
}
