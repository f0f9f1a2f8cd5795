//! Texts that functions make of texts that lie there, which are pushed at once.

ghost use Rattle.std.specs.Bool.{OnTrue};
ghost use Rattle.std.specs.Prelude.{◌≡◌, ◌++◌, ◌+◌, ◌≤◌, IfOk, IfSome, Ok, length, map, take};
ghost use Rattle.rawk_value.specs.declared.value.Value.{Value};
ghost use Rattle.rawk_value.specs.Values.{next_ok, text_of};
ghost use Rattle.rawk_builtins.specs.Builtins.{lower, upper};
ghost use Rattle.rawk_code.specs.Term as term;
ghost use Rattle.rawk_store.specs.Layout.{Grown};
ghost use Rattle.rawk_store.specs.State.{field_number};
ghost use Rattle.rawk_store.specs.Stores.{start_of};
ghost use Rattle.rawk_frames.specs.LaidFrames.{frames_of};
ghost use Rattle.rawk_operands.specs.Borrowed.{shown_value};
ghost use Rattle.rawk_operands.specs.Moving.{moving, simple_in, simple_of, term_in};
ghost use Rattle.rawk_texts.specs.Pushes.{IsPushedIf};

use itoa::Buffer;
use rawk_builtins::substr;
use rawk_code::{Formula, Op, Operand, Shape, Simple};
use rawk_operands::borrowed::simple_in;
use rawk_operands::formulas::field_of;
use rawk_operands::numbers::{few_number, given_number};
use rawk_operands::stack::push_string;
use rawk_operators::{Borrowed, text_borrowed};
use rawk_store::{Cells, Current, FieldRef, Frames, Local, Store};
use rawk_tree::{Joiner, Unary};
use rawk_value::Value;
use std::alloc::{AllocError, Global};

/// How many bytes a text has at most that is made in place and then copied.
const FEW: usize = 64;

/// The text that a value is; none of another value.
#[inline(always)]
fn held_text(value: &Value) -> Option<&[u8]>
    ensures { IfSome result (λ t. text_of value.now ≡ t.now) }
{
    match value {
        Value::String(text) => Some(text.as_slice()),
        Value::Input(text) => Some(text.as_slice()),
        _ => None,
    }
}

/// The text of `$0`, of a field that is a part of it, of a constant or of a variable that holds one; none of what else has its value at once.
#[inline(always)]
pub fn text_lying<'a>(
    from: &'a Simple,
    globals: &'a Cells,
    frames: &'a Frames,
    current: &'a Current,
) -> Option<&'a [u8]>
    ensures { IfSome result (λ t. text_of (simple_of from.now globals.now.now (frames_of frames.now.now) current.now.now) ≡ t.now) }
{
    match from {
        Simple::Field(0) => Some(current.text()),
        Simple::Field(number) => match current.field(*number) {
            Some(FieldRef::Piece(text)) => Some(text),
            _ => None,
        },
        Simple::Text(text) => Some(text.as_slice()),
        Simple::Global(number) => match globals.value(*number) {
            Some(value) => held_text(value),
            None => None,
        },
        Simple::Local(number) => match frames.local(*number) {
            Some(Local::Holds(value)) => held_text(value),
            _ => None,
        },
        _ => None,
    }
}

/// The number that a formula is, or makes of few numbers, without a call where it is a constant or a variable; none of others, and where there is a fault.
#[inline(always)]
pub(crate) fn number_of_few(formula: &Formula, store: &Store) -> Option<i64>
    ensures { IfSome result (λ n. term_in formula.now (moving store.now) ≡ Ok (Value.Number n)) }
{
    match given_number(formula, store) {
        Some(n) => Some(n),
        None => few_number(formula, store),
    }
}

/// The part of a text that lies there becomes the newest operand, where its place and its count are made of few numbers; whether it did is answered, and else nothing has changed. It fails
/// where memory is refused.
#[inline(never)]
pub fn push_part<const SAVES: bool>(
    alloc: Global,
    store: &mut Store,
    from: &Simple,
    place: &Formula,
    count: &Formula,
) -> Result<bool, AllocError>
    ensures did { IfOk result (λ done. IsPushedIf done (Op.SubstrOf from.now place.now count.now) store.old store.new) }
    ensures start { OnTrue SAVES (Grown (start_of store.old) (start_of store.new)) }
{
    let Some(at) = number_of_few(place, store) else {
        return Ok(false);
    };
    let Some(size) = number_of_few(count, store) else {
        return Ok(false);
    };
    let Some(text) = text_lying(from, &store.globals, &store.frames, &store.current) else {
        return Ok(false);
    };
    push_string::<SAVES>(alloc, &mut store.operands, substr(text, at, Some(size)))?;
    Ok(true)
}

/// The same of the part from a place on.
#[inline(always)]
fn push_rest<const SAVES: bool>(
    alloc: Global,
    store: &mut Store,
    from: &Simple,
    place: &Formula,
) -> Result<bool, AllocError>
    ensures did { IfOk result (λ done. IsPushedIf done (Op.JoinOf from.now Joiner.Substr place.now) store.old store.new) }
    ensures start { OnTrue SAVES (Grown (start_of store.old) (start_of store.new)) }
{
    let Some(at) = number_of_few(place, store) else {
        return Ok(false);
    };
    let Some(text) = text_lying(from, &store.globals, &store.frames, &store.current) else {
        return Ok(false);
    };
    push_string::<SAVES>(alloc, &mut store.operands, substr(text, at, None))?;
    Ok(true)
}

/// Puts bytes behind the first `begin` of a buffer.
#[inline(always)]
fn put_behind(own: &mut [u8; 64], begin: usize, more: &[u8])
    requires { begin + length more.now ≤ 64 }
    ensures { take (begin + length more.now) own.new ≡ take begin own.old ++ more.now }
{
    own[begin..begin + more.len()].copy_from_slice(more);
}

/// Few bytes side by side, in a buffer.
#[inline(always)]
fn beside<'a>(own: &'a mut [u8; 64], left: &[u8], right: &[u8]) -> &'a [u8]
    requires { length left.now + length right.now ≤ 64 }
    ensures { result.now ≡ left.now ++ right.now }
{
    put_behind(own, 0, left);
    put_behind(own, left.len(), right);
    &own[..left.len() + right.len()]
}

/// The text of what has its value at once; that of a number stands in the buffer.
#[inline(always)]
fn simple_text<'a>(from: &'a Simple, store: &'a Store, digits: &'a mut Buffer) -> &'a [u8]
    ensures { result.now ≡ text_of (simple_in from.now (moving store.now)) }
{
    match text_lying(from, &store.globals, &store.frames, &store.current) {
        Some(text) => text,
        None => text_borrowed(simple_in(from, store), digits),
    }
}

/// The text of the field of a number; none of a number that no field has, and of a field that is no part of the record's text.
#[inline(always)]
pub(crate) fn field_piece(n: i64, current: &Current) -> Option<&[u8]>
    ensures { IfSome result (λ t. (v : Value) × (next_ok (field_number n) (λ k. Ok (shown_value k current.now.now)) ≡ Ok v) × (text_of v ≡ t.now)) }
{
    match field_of(n, current) {
        Ok(Borrowed::Input(text)) => Some(text),
        _ => None,
    }
}

/// The same, where the number is what a formula is, or makes of few numbers; none of others.
#[inline(always)]
pub fn field_lying<'a>(number: &Formula, store: &'a Store) -> Option<&'a [u8]>
    ensures { IfSome result (λ t. (v : Value) × (term_in (term.At number.now) (moving store.now) ≡ Ok v) × (text_of v ≡ t.now)) }
{
    let n = number_of_few(number, store)?;
    field_piece(n, &store.current)
}

/// The text of what a formula is, where that has its value at once or is such a field; none of others.
#[inline(always)]
fn text_behind<'a>(
    formula: &'a Formula,
    store: &'a Store,
    digits: &'a mut Buffer,
) -> Option<&'a [u8]>
    ensures { IfSome result (λ t. (v : Value) × (term_in formula.now (moving store.now) ≡ Ok v) × (text_of v ≡ t.now)) }
{
    match formula.shape() {
        Shape::Given(last) => Some(simple_text(last, store, digits)),
        Shape::At(number) => field_lying(number, store),
        _ => None,
    }
}

/// Two texts side by side become the newest operand, where they have few bytes: that of what has its value at once, and behind it such a one or a field's; whether they did is answered, and else nothing has changed. It fails where
/// memory is refused.
#[inline(always)]
fn push_both<const SAVES: bool>(
    alloc: Global,
    store: &mut Store,
    from: &Simple,
    behind: &Formula,
) -> Result<bool, AllocError>
    ensures did { IfOk result (λ done. IsPushedIf done (Op.JoinOf from.now Joiner.Concat behind.now) store.old store.new) }
    ensures start { OnTrue SAVES (Grown (start_of store.old) (start_of store.new)) }
{
    let mut left_digits = Buffer::new();
    let mut right_digits = Buffer::new();
    let Some(right) = text_behind(behind, store, &mut right_digits) else {
        return Ok(false);
    };
    let left = simple_text(from, store, &mut left_digits);
    if left.len() > FEW || right.len() > FEW - left.len() {
        return Ok(false);
    }
    let mut own = [0; 64];
    let both = beside(&mut own, left, right);
    push_string::<SAVES>(alloc, &mut store.operands, both)?;
    Ok(true)
}

/// The same of what lies there and a formula make.
#[inline(never)]
pub fn push_joint<const SAVES: bool>(
    alloc: Global,
    store: &mut Store,
    from: &Simple,
    joiner: Joiner,
    formula: &Formula,
) -> Result<bool, AllocError>
    ensures did { IfOk result (λ done. IsPushedIf done (Op.JoinOf from.now joiner formula.now) store.old store.new) }
    ensures start { OnTrue SAVES (Grown (start_of store.old) (start_of store.new)) }
{
    match joiner {
        Joiner::Substr => push_rest::<SAVES>(alloc, store, from, formula),
        Joiner::Concat => push_both::<SAVES>(alloc, store, from, formula),
        _ => Ok(false),
    }
}

/// Few bytes with the upper-case letters of ASCII in lower case, in a buffer.
#[inline(always)]
fn lowered<'a>(own: &'a mut [u8; 64], text: &[u8]) -> &'a [u8]
    requires { length text.now ≤ 64 }
    ensures { result.now ≡ map lower text.now }
{
    own[..text.len()].copy_from_slice(text);
    own.make_ascii_lowercase();
    &own[..text.len()]
}

/// Few bytes with the lower-case letters of ASCII in upper case, in a buffer.
#[inline(always)]
fn raised<'a>(own: &'a mut [u8; 64], text: &[u8]) -> &'a [u8]
    requires { length text.now ≤ 64 }
    ensures { result.now ≡ map upper text.now }
{
    own[..text.len()].copy_from_slice(text);
    own.make_ascii_uppercase();
    &own[..text.len()]
}

/// A text that lies there becomes the newest operand with its letters in lower or in upper case, where it has few bytes; whether it did is answered, and else nothing has changed. It fails where memory is
/// refused.
#[inline(never)]
pub fn push_cased<const SAVES: bool>(
    alloc: Global,
    store: &mut Store,
    unary: Unary,
    from: &Simple,
) -> Result<bool, AllocError>
    ensures did { IfOk result (λ done. IsPushedIf done (Op.Unary unary (Operand.Given from.now)) store.old store.new) }
    ensures start { OnTrue SAVES (Grown (start_of store.old) (start_of store.new)) }
{
    let Some(text) = text_lying(from, &store.globals, &store.frames, &store.current) else {
        return Ok(false);
    };
    if text.len() > FEW {
        return Ok(false);
    }
    let mut own = [0; 64];
    match unary {
        Unary::ToLower => {
            push_string::<SAVES>(alloc, &mut store.operands, lowered(&mut own, text))?;
            Ok(true)
        }
        Unary::ToUpper => {
            push_string::<SAVES>(alloc, &mut store.operands, raised(&mut own, text))?;
            Ok(true)
        }
        _ => Ok(false),
    }
}
