//! A text whose fields are sought when they are asked for.

ghost use Rattle.std.specs.Prelude.{◌≡◌, ◌<◌, ◌-◌, ◌^◌, ◌==◌, ◌&&◌, ◌||◌, IfOk, OnOk, length, slice_get};
ghost use Rattle.std.specs.Option.{option_map};
ghost use Rattle.rawk_record.specs.FieldRefs.{ref_value};
ghost use Rattle.rawk_pieces.specs.Fields.{words, byte_parts};
ghost use Rattle.rawk_record.specs.Shown.{Shown};
ghost use Rattle.rawk_record.specs.Uncuts.{DividesAs, divided, divided_record};

use crate::parts::FieldRef;
use crate::short::put_bytes;
use rawk_pieces::{Blank, ByteClass, Class, Separator, nth_run};
use std::alloc::{AllocError, Global};
use std::marker::Model;

/// What divides a text into fields without a search for matches.
#[derive(Clone, Copy)]
pub enum Divider {
    /// Runs of space, tab and newline.
    Blanks,
    /// Each byte of a class.
    Byte(ByteClass),
}

/// A text that is not cut into its fields, which are sought each time that they are asked for: for programs that do not ask. It has fewer than 2^62 bytes, which are the first `size` of a buffer: behind
/// them stand bytes of longer texts before it.
#[derive(Drop)]
pub struct Uncut {
    buffer: Vec<u8>,
    size: usize,
    divider: Divider,
}

impl Model for Uncut {
    ghost use Rattle.std.specs.Prelude.{◌<◌, ◌≤◌, ◌^◌, length, take};
    ghost use Rattle.rawk_record.specs.Shown.{Shown};
    ghost use Rattle.rawk_record.specs.Uncuts.{divided_record};

    ghost Value = { Shown };

    ghost view = { λ u. divided_record u.divider (take u.size u.buffer.items) };

    ghost invariant = { λ u. (u.size ≤ length u.buffer.items) × (u.size < 2 ^ 62) };
}

/// The divider that a separator is, where it is no expression and separates something; `newline` says whether a newline separates too.
pub(crate) fn divider_of(separator: Separator<'_>, newline: bool) -> Option<Divider>
    ensures { DividesAs separator.entry newline result }
{
    match separator {
        Separator::Blanks => Some(Divider::Blanks),
        Separator::Byte(byte) => Some(Divider::Byte(ByteClass { byte, newline })),
        Separator::Nothing => None,
        Separator::Matches(_) => None,
    }
}

/// How many runs of bytes other than blanks a text has.
fn word_count(text: &[u8]) -> usize
    ensures { result ≡ length (words text.now) }
{
    text.split(|byte| Blank.has(*byte))
        .filter(|word| word.len() != 0)
        .count()
}

/// A run of bytes other than blanks, counted from 0.
fn word(text: &[u8], place: usize) -> Option<&[u8]>
    ensures { option_map (λ s. s.now) result ≡ slice_get (words text.now) place }
{
    match nth_run(&Blank, false, text, place) {
        Some(piece) => Some(&text[piece.start..piece.end]),
        None => None,
    }
}

/// How many parts a text has between bytes of a class.
fn part_count(class: ByteClass, text: &[u8]) -> usize
    ensures { result ≡ length (byte_parts (λ c. c == class.byte || class.newline && c == 10) text.now) }
{
    if text.len() == 0 {
        return 0;
    }
    text.split(|byte| class.has(*byte)).count()
}

/// A part between bytes of a class, counted from 0.
fn part(class: ByteClass, text: &[u8], place: usize) -> Option<&[u8]>
    ensures { option_map (λ s. s.now) result ≡ slice_get (byte_parts (λ c. c == class.byte || class.newline && c == 10) text.now) place }
{
    if text.len() == 0 {
        return None;
    }
    match nth_run(&class, true, text, place) {
        Some(piece) => Some(&text[piece.start..piece.end]),
        None => None,
    }
}

/// How many fields a text has.
fn piece_count(divider: Divider, text: &[u8]) -> usize
    ensures { result ≡ length (divided divider text.now) }
{
    match divider {
        Divider::Blanks => word_count(text),
        Divider::Byte(class) => part_count(class, text),
    }
}

/// The text of a field, counted from 0.
fn piece(divider: Divider, text: &[u8], place: usize) -> Option<&[u8]>
    ensures { option_map (λ s. s.now) result ≡ slice_get (divided divider text.now) place }
{
    match divider {
        Divider::Blanks => word(text, place),
        Divider::Byte(class) => part(class, text, place),
    }
}

impl Uncut {
    /// A text with its divider. It fails where memory is refused.
    pub(crate) fn new(alloc: Global, text: &[u8], divider: Divider) -> Result<Uncut, AllocError>
        requires { length text.now < 2 ^ 62 }
        ensures { IfOk result (λ u. u ≡ divided_record divider text.now) }
    {
        let buffer = Vec::from_slice(alloc, text)?;
        let size = buffer.len();
        Ok(Uncut {
            buffer,
            size,
            divider,
        })
    }

    /// Becomes another text with its divider. Its buffer is used again. It fails where memory is refused, and then it may be any text.
    #[inline(always)]
    pub(crate) fn refill(&mut self, text: &[u8], divider: Divider) -> Result<(), AllocError>
        requires { length text.now < 2 ^ 62 }
        ensures { OnOk result (self.new ≡ divided_record divider text.now) }
    {
        self.divider = divider;
        if text.len() <= self.buffer.len() {
            put_bytes(&mut self.buffer, text);
            self.size = text.len();
            return Ok(());
        }
        self.size = 0;
        self.buffer.clear();
        self.buffer.extend_from_slice(text)?;
        self.size = text.len();
        Ok(())
    }

    /// The bytes of `$0`.
    #[inline]
    pub(crate) fn text(&self) -> &[u8]
        ensures { result.now ≡ self.now.text }
    {
        &self.buffer[..self.size]
    }

    /// How many fields there are. It goes through the text.
    pub(crate) fn field_count(&self) -> usize
        ensures value { result ≡ length self.now.fields }
        ensures small { result < 2 ^ 63 }
    {
        piece_count(self.divider, self.text())
    }

    /// A field by its number, from 1, and `None` past the last. It goes through the text.
    pub(crate) fn field(&self, number: usize) -> Option<FieldRef<'_>>
        requires { 0 < number }
        ensures { option_map ref_value result ≡ slice_get self.now.fields (number - 1) }
    {
        match piece(self.divider, self.text(), number - 1) {
            Some(bytes) => Some(FieldRef::Piece(bytes)),
            None => None,
        }
    }
}
