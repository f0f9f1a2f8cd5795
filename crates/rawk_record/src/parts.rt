//! What a record is made of.

ghost use Rattle.std.specs.Prelude.{◌≡◌, ◌<◌, ◌-◌, [], IfSome, None, slice_get, slice_index_or, slice_range, vec_len};
ghost use Rattle.std.specs.Option.{option_copied, option_map};
ghost use Rattle.rawk_value.specs.declared.value.Value.{Value};
ghost use Rattle.rawk_value.specs.declared.value.Value.TheVariants.{Input};
ghost use Rattle.rawk_record.specs.Drafts.{IsPlaced, values_of};
ghost use Rattle.rawk_pieces.specs.Pieces.{IsInRange};
ghost use Rattle.rawk_record.specs.FieldRefs.{ref_value};

use rawk_pieces::Piece;
use rawk_value::Value;
use std::alloc::Global;

/// A text, the places of its fields, and the fields with values of their own. A record that was read has none of those.
#[derive(Drop)]
pub struct Parts {
    pub text: Vec<u8>,
    pub pieces: Vec<Piece>,
    pub kept: Vec<Option<Value>>,
}

/// A field, lent: a piece of `$0`, or a value of its own.
#[derive(Clone, Copy)]
pub enum FieldRef<'a> {
    Piece(&'a [u8]),
    Kept(&'a Value),
}

/// A field's own value, where it has one.
fn own_value(kept: &Vec<Option<Value>>, place: usize) -> Option<&Value>
    ensures { option_copied result ≡ slice_index_or kept.now.items place None }
{
    if place < kept.len() {
        kept[place].as_ref()
    } else {
        None
    }
}

/// The field at a place, from 0.
fn field_at(parts: &Parts, place: usize) -> FieldRef<'_>
    requires placed { IsPlaced parts.now }
    requires present { place < vec_len parts.now.pieces }
    ensures { (d : Value) → slice_index_or (values_of parts.now) place d ≡ ref_value result }
{
    match own_value(&parts.kept, place) {
        Some(value) => FieldRef::Kept(value),
        None => {
            let piece = parts.pieces[place];
            FieldRef::Piece(&parts.text[piece.start..piece.end])
        }
    }
}

/// Where the field at a place, from 0, stands, where it has no value of its own; `None` past the last.
pub(crate) fn piece_at(parts: &Parts, place: usize) -> Option<Piece>
    requires placed { IsPlaced parts.now }
    ensures range { IfSome result (IsInRange parts.now.text.items) }
    ensures value { IfSome result (λ p. (d : Value) → slice_index_or (values_of parts.now) place d ≡ Input (slice_range parts.now.text.items p.start p.end)) }
{
    if parts.pieces.len() <= place {
        return None;
    }
    match own_value(&parts.kept, place) {
        Some(_) => None,
        None => Some(parts.pieces[place]),
    }
}

/// The field of a number, from 1, and `None` past the last.
pub(crate) fn field_in(parts: &Parts, number: usize) -> Option<FieldRef<'_>>
    requires placed { IsPlaced parts.now }
    requires low { 0 < number }
    ensures { option_map ref_value result ≡ slice_get (values_of parts.now) (number - 1) }
{
    if parts.pieces.len() < number {
        return None;
    }
    Some(field_at(parts, number - 1))
}

/// No text and no fields. It takes no memory.
pub(crate) fn no_parts(alloc: Global) -> Parts
    ensures text { result.text.items ≡ [] }
    ensures pieces { result.pieces.items ≡ [] }
    ensures kept { result.kept.items ≡ [] }
{
    Parts {
        text: Vec::new(alloc),
        pieces: Vec::new(alloc),
        kept: Vec::new(alloc),
    }
}
