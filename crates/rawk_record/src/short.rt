//! Short records, in place.

ghost use Rattle.std.specs.Prelude.{◌≡◌, ◌≤◌, ◌<◌, ◌-◌, All, IfSome, length, map, slice_get, slice_range, take};
ghost use Rattle.std.specs.Option.{option_map};
ghost use Rattle.rawk_record.specs.Drafts.{IsPlaced, shown_of};
ghost use Rattle.rawk_record.specs.FieldRefs.{ref_value};
ghost use Rattle.rawk_pieces.specs.Pieces.{IsInRange};
ghost use Rattle.rawk_record.specs.ShortPieces.{IsNarrow, wide};

use crate::parts::{FieldRef, Parts};
use rawk_pieces::Piece;
use std::marker::Model;

/// Where a field stands in a short text: from `start` up to `end`, in bytes.
#[derive(Clone, Copy, PartialEq, Eq)]
pub struct ShortPiece {
    pub start: u8,
    pub end: u8,
}

/// A text of at most 48 bytes with at most 8 fields, none of which has a value of its own. It has no buffers.
#[derive(Drop)]
pub struct Short {
    text: [u8; 48],
    pieces: [ShortPiece; 8],
    size: u8,
    count: u8,
}

impl Model for Short {
    ghost use Rattle.std.specs.Prelude.{◌≤◌, [], length, map, take};
    ghost use Rattle.rawk_pieces.specs.Pieces.{AllInRange};
    ghost use Rattle.rawk_record.specs.ShortPieces.{wide};
    ghost use Rattle.rawk_record.specs.Shown.{Shown, values};

    ghost Value = { Shown };

    ghost view = { λ s. record { text = take s.size s.text; fields = values (take s.size s.text) (map wide (take s.count s.pieces)) [] } };

    ghost invariant = { λ s. (s.size ≤ 48) × (s.count ≤ length s.pieces) × AllInRange (take s.size s.text) (map wide (take s.count s.pieces)) };
}

/// Writes bytes into the front of others.
#[inline(always)]
pub(crate) fn put_bytes(to: &mut [u8], bytes: &[u8])
    requires { length bytes.now ≤ length to.old }
    ensures { take (length bytes.now) to.new ≡ bytes.now }
{
    let front = &mut to[..bytes.len()];
    front.copy_from_slice(bytes);
}

/// Writes pieces into the front of others.
#[inline(always)]
fn put_pieces(to: &mut [ShortPiece], pieces: &[Piece])
    requires few { length pieces.now ≤ length to.old }
    requires narrow { All IsNarrow pieces.now }
    ensures { map wide (take (length pieces.now) to.new) ≡ pieces.now }
{
    for (at, piece) in pieces.iter().enumerate() {
        to[at] = ShortPiece {
            start: piece.start as u8,
            end: piece.end as u8,
        };
    }
}

/// The bytes of a piece.
fn part_of(text: &[u8], piece: ShortPiece) -> &[u8]
    requires { IsInRange text.now (wide piece) }
    ensures { result.now ≡ slice_range text.now piece.start piece.end }
{
    &text[piece.start as usize..piece.end as usize]
}

impl Short {
    /// The record of these parts, where it is short and none of its fields has a value of its own.
    #[inline(always)]
    pub(crate) fn of(parts: &Parts) -> Option<Short>
        requires { IsPlaced parts.now }
        ensures { IfSome result (λ s. s ≡ shown_of parts.now) }
    {
        let size = parts.text.len();
        let count = parts.pieces.len();
        if 48 < size || 8 < count || parts.kept.len() != 0 {
            return None;
        }
        let mut text = [0; 48];
        put_bytes(&mut text, &parts.text);
        let mut pieces = [ShortPiece { start: 0, end: 0 }; 8];
        put_pieces(&mut pieces, &parts.pieces);
        Some(Short {
            text,
            pieces,
            size: size as u8,
            count: count as u8,
        })
    }

    /// The bytes of `$0`.
    #[inline]
    pub(crate) fn text(&self) -> &[u8]
        ensures { result.now ≡ self.now.text }
    {
        &self.text[..self.size as usize]
    }

    /// How many fields there are.
    #[inline]
    pub(crate) fn field_count(&self) -> usize
        ensures value { result ≡ length self.now.fields }
        ensures small { result < 256 }
    {
        self.count as usize
    }

    /// A field by its number, from 1, and `None` past the last.
    pub(crate) fn field(&self, number: usize) -> Option<FieldRef<'_>>
        requires { 0 < number }
        ensures { option_map ref_value result ≡ slice_get self.now.fields (number - 1) }
    {
        if (self.count as usize) < number {
            return None;
        }
        let text = &self.text[..self.size as usize];
        Some(FieldRef::Piece(part_of(text, self.pieces[number - 1])))
    }
}
