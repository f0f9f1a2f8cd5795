//! Records that are built of fields.

ghost use Rattle.std.specs.Prelude.{◌≡◌, ◌≤◌, ◌<◌, ◌+◌, ◌^◌, ◌++◌, ◌∷◌, ℕ, List, [], IfOk, OnOk, drop, if◌then◌else◌, length, slice_get, slice_index_or, slice_range, true};
ghost use Rattle.std.specs.Option.{option_map};
ghost use Rattle.rawk_value.specs.Values.{text_of};
ghost use Rattle.rawk_value.specs.declared.value.Value.{Value};
ghost use Rattle.rawk_value.specs.declared.value.Value.TheVariants.{Input, Uninitialized};
ghost use Rattle.rawk_record.specs.Changed.{resized, with_value};
ghost use Rattle.rawk_record.specs.Drafts.{IsAhead, IsDraft, IsKept, IsOwn, IsPlaced, ahead_values, values_of, with_ahead};
ghost use Rattle.rawk_pieces.specs.Pieces.{IsInRange};
ghost use Rattle.rawk_record.specs.FieldRefs.{ref_value};

use crate::parts::{FieldRef, Parts, field_in, piece_at};
use crate::record::Record;
use rawk_pieces::Piece;
use rawk_value::{Value, push_text};
use std::alloc::{AllocError, Global};

/// Adds the separator where it is needed.
fn add_separator(text: &mut Vec<u8>, needed: bool, separator: &[u8]) -> Result<(), AllocError>
    ensures { OnOk result (text.new.items ≡ text.old.items ++ (if needed then separator.now else [])) }
{
    if needed {
        text.extend_from_slice(separator)?;
    }
    Ok(())
}

/// Adds the text of a field.
fn add_text(text: &mut Vec<u8>, field: FieldRef<'_>) -> Result<(), AllocError>
    ensures { OnOk result (text.new.items ≡ text.old.items ++ text_of (ref_value field.entry)) }
{
    match field {
        FieldRef::Piece(bytes) => text.extend_from_slice(bytes)?,
        FieldRef::Kept(value) => push_text(text, value)?,
    }
    Ok(())
}

/// A copy of a field's own value, where it has one.
fn own_copy(alloc: Global, field: FieldRef<'_>) -> Result<Option<Value>, AllocError>
    ensures { IfOk result (IsOwn (ref_value field.entry)) }
{
    match field {
        FieldRef::Piece(_) => Ok(None),
        FieldRef::Kept(value) => Ok(Some(value.copy(alloc)?)),
    }
}

/// Keeps the own value of the field that comes behind `count` others, where it has one.
fn keep_own(
    kept: &mut Vec<Option<Value>>,
    count: usize,
    own: Option<Value>,
) -> Result<(), AllocError>
    requires { length kept.old.items ≤ count }
    ensures aligned { OnOk result (length kept.new.items ≤ count + 1) }
    ensures valued { OnOk result (IsKept count own kept.old.items kept.new.items) }
{
    let value = match own {
        Some(value) => value,
        None => return Ok(()),
    };
    for _ in kept.len()..count {
        kept.push(None)?;
    }
    kept.push(Some(value))?;
    Ok(())
}

/// Ends the field that begins at a place, with a value of its own or without.
fn end_field(parts: &mut Parts, start: usize, own: Option<Value>) -> Result<(), AllocError>
    requires { length parts.old.kept.items ≤ length parts.old.pieces.items }
    ensures text { OnOk result (parts.new.text.items ≡ parts.old.text.items) }
    ensures pieces { OnOk result (parts.new.pieces.items ≡ parts.old.pieces.items ++ record { start = start; end = length parts.old.text.items } ∷ []) }
    ensures aligned { OnOk result (length parts.new.kept.items ≤ length parts.old.pieces.items + 1) }
    ensures kept { OnOk result (IsKept (length parts.old.pieces.items) own parts.old.kept.items parts.new.kept.items) }
{
    keep_own(&mut parts.kept, parts.pieces.len(), own)?;
    let end = parts.text.len();
    parts.pieces.push(Piece { start, end })?;
    Ok(())
}

/// Adds a field at the end.
fn add_field(
    alloc: Global,
    parts: &mut Parts,
    separator: &[u8],
    field: FieldRef<'_>,
) -> Result<(), AllocError>
    requires { IsDraft separator.now parts.old }
    ensures draft { OnOk result (IsDraft separator.now parts.new) }
    ensures fields { OnOk result (values_of parts.new ≡ values_of parts.old ++ ref_value field.entry ∷ []) }
{
    add_separator(&mut parts.text, 0 < parts.pieces.len(), separator)?;
    let start = parts.text.len();
    add_text(&mut parts.text, field)?;
    let own = own_copy(alloc, field)?;
    end_field(parts, start, own)?;
    Ok(())
}

/// Adds a field with a value of its own at the end.
fn add_value(parts: &mut Parts, separator: &[u8], value: Value) -> Result<(), AllocError>
    requires { IsDraft separator.now parts.old }
    ensures draft { OnOk result (IsDraft separator.now parts.new) }
    ensures fields { OnOk result (values_of parts.new ≡ values_of parts.old ++ value ∷ []) }
{
    add_separator(&mut parts.text, 0 < parts.pieces.len(), separator)?;
    let start = parts.text.len();
    push_text(&mut parts.text, &value)?;
    end_field(parts, start, Some(value))?;
    Ok(())
}

/// A field, and past the last one an uninitialised value.
fn field_or<'a>(field: Option<FieldRef<'a>>, none: &'a Value) -> FieldRef<'a>
    requires { none.now ≡ Uninitialized }
    ensures { (fields : List Value) (place : ℕ) → option_map ref_value field.entry ≡ slice_get fields place → slice_index_or fields place Uninitialized ≡ ref_value result }
{
    match field {
        Some(field) => field,
        None => FieldRef::Kept(none),
    }
}

/// Whether a piece stands in a text behind the bytes up to a place and the separator.
fn is_next(text: &[u8], end: usize, separator: &[u8], piece: Piece) -> bool
    requires end { end ≤ length text.now }
    requires piece { IsInRange text.now piece }
    ensures { result ≡ true → (end + length separator.now ≡ piece.start) × (slice_range text.now end piece.start ≡ separator.now) }
{
    end <= piece.start
        && piece.start - end == separator.len()
        && &text[end..piece.start] == separator
}

/// Makes a piece of another text the last of the bytes that are still to be copied, behind the separator where that is needed; what can't be copied with it is copied now.
fn reach(
    text: &mut Vec<u8>,
    from: &[u8],
    separator: &[u8],
    needed: bool,
    ahead: Piece,
    piece: Piece,
) -> Result<Piece, AllocError>
    requires ahead { IsInRange from.now ahead }
    requires piece { IsInRange from.now piece }
    ensures text { IfOk result (λ a. with_ahead text.new.items from.now a ≡ (with_ahead text.old.items from.now ahead ++ (if needed then separator.now else [])) ++ slice_range from.now piece.start piece.end) }
    ensures range { IfOk result (IsInRange from.now) }
{
    if needed && is_next(from, ahead.end, separator, piece) {
        return Ok(Piece {
            start: ahead.start,
            end: piece.end,
        });
    }
    text.extend_from_slice(&from[ahead.start..ahead.end])?;
    add_separator(text, needed, separator)?;
    Ok(piece)
}

/// Adds a field that is a piece of another text at the end.
fn carry_piece(
    parts: &mut Parts,
    from: &[u8],
    separator: &[u8],
    ahead: Piece,
    piece: Piece,
) -> Result<Piece, AllocError>
    requires ahead { IsAhead separator.now parts.old from.now ahead }
    requires piece { IsInRange from.now piece }
    ensures ahead { IfOk result (IsAhead separator.now parts.new from.now) }
    ensures fields { IfOk result (λ a. ahead_values parts.new from.now a ≡ ahead_values parts.old from.now ahead ++ Input (slice_range from.now piece.start piece.end) ∷ []) }
{
    let needed = 0 < parts.pieces.len();
    let reached = reach(&mut parts.text, from, separator, needed, ahead, piece)?;
    let end = parts.text.len() + (reached.end - reached.start);
    let start = end - (piece.end - piece.start);
    parts.pieces.push(Piece { start, end })?;
    Ok(reached)
}

/// Adds the field of other parts at a place, from 0, at the end, past the last one an uninitialised one.
fn carry_field(
    alloc: Global,
    parts: &mut Parts,
    earlier: &Parts,
    separator: &[u8],
    ahead: Piece,
    place: usize,
) -> Result<Piece, AllocError>
    requires ahead { IsAhead separator.now parts.old earlier.now.text.items ahead }
    requires placed { IsPlaced earlier.now }
    requires fits { place + 1 < 2 ^ 64 }
    ensures ahead { IfOk result (IsAhead separator.now parts.new earlier.now.text.items) }
    ensures fields { IfOk result (λ a. ahead_values parts.new earlier.now.text.items a ≡ ahead_values parts.old earlier.now.text.items ahead ++ slice_index_or (values_of earlier.now) place Uninitialized ∷ []) }
{
    match piece_at(earlier, place) {
        Some(piece) => carry_piece(parts, &earlier.text, separator, ahead, piece),
        None => {
            let from = &earlier.text[ahead.start..ahead.end];
            parts.text.extend_from_slice(from)?;
            let none = Value::Uninitialized;
            let field = field_or(field_in(earlier, place + 1), &none);
            add_field(alloc, parts, separator, field)?;
            Ok(Piece { start: 0, end: 0 })
        }
    }
}

/// Adds the fields of other parts from one place up to another at the end, past the last one uninitialised ones. What stands there with the separator between two is copied at once.
fn carry_fields(
    alloc: Global,
    parts: &mut Parts,
    earlier: &Parts,
    separator: &[u8],
    from: usize,
    to: usize,
) -> Result<(), AllocError>
    requires draft { IsDraft separator.now parts.old }
    requires placed { IsPlaced earlier.now }
    requires ordered { from ≤ to }
    ensures draft { OnOk result (IsDraft separator.now parts.new) }
    ensures fields { OnOk result (values_of parts.new ≡ values_of parts.old ++ drop from (resized to (values_of earlier.now))) }
{
    let mut ahead = Piece { start: 0, end: 0 };
    for place in from..to {
        ahead = carry_field(alloc, parts, earlier, separator, ahead, place)?;
    }
    let rest = &earlier.text[ahead.start..ahead.end];
    parts.text.extend_from_slice(rest)?;
    Ok(())
}

/// Adds the fields of a record from one place up to another at the end, past the last one uninitialised ones.
fn add_fields(
    alloc: Global,
    parts: &mut Parts,
    earlier: &Record,
    separator: &[u8],
    from: usize,
    to: usize,
) -> Result<(), AllocError>
    requires draft { IsDraft separator.now parts.old }
    requires ordered { from ≤ to }
    ensures draft { OnOk result (IsDraft separator.now parts.new) }
    ensures fields { OnOk result (values_of parts.new ≡ values_of parts.old ++ drop from (resized to earlier.now.fields)) }
{
    if let Some(wide) = earlier.in_buffers() {
        return carry_fields(alloc, parts, wide, separator, from, to);
    }
    let none = Value::Uninitialized;
    for place in from..to {
        let field = field_or(earlier.field(place + 1), &none);
        add_field(alloc, parts, separator, field)?;
    }
    Ok(())
}

/// Takes the text and the fields away.
fn clear(parts: &mut Parts)
    ensures text { parts.new.text.items ≡ [] }
    ensures pieces { parts.new.pieces.items ≡ [] }
    ensures kept { parts.new.kept.items ≡ [] }
{
    parts.text.clear();
    parts.pieces.clear();
    parts.kept.clear();
}

/// Builds parts with this many of a record's fields, cut or extended by uninitialised ones.
pub(crate) fn build_with_count(
    alloc: Global,
    parts: &mut Parts,
    earlier: &Record,
    count: usize,
    separator: &[u8],
) -> Result<(), AllocError>
    ensures draft { OnOk result (IsDraft separator.now parts.new) }
    ensures fields { OnOk result (values_of parts.new ≡ resized count earlier.now.fields) }
{
    clear(parts);
    add_fields(alloc, parts, earlier, separator, 0, count)?;
    Ok(())
}

/// Builds parts of a record's fields with a value for the field of a number, from 1; fields between are uninitialised.
pub(crate) fn build_with_value(
    alloc: Global,
    parts: &mut Parts,
    earlier: &Record,
    number: usize,
    value: Value,
    separator: &[u8],
) -> Result<(), AllocError>
    requires { 0 < number }
    ensures draft { OnOk result (IsDraft separator.now parts.new) }
    ensures fields { OnOk result (values_of parts.new ≡ with_value number value earlier.now.fields) }
{
    clear(parts);
    add_fields(alloc, parts, earlier, separator, 0, number - 1)?;
    add_value(parts, separator, value)?;
    let count = earlier.field_count().max(number);
    add_fields(alloc, parts, earlier, separator, number, count)?;
    Ok(())
}
