//! The fields of a text, as places in it.

ghost use Rattle.std.specs.Prelude.{◌≡◌, ◌≤◌, ◌<◌, ◌+◌, ◌++◌, [], false, IfOk, OnOk, length, min, vec_capacity, vec_len};
ghost use Rattle.std.specs.Option.{option_copied};
ghost use Rattle.rawk_pieces.specs.Fields.{byte_parts, ere_parts, fields_of};
ghost use Rattle.rawk_pieces.specs.Masks.{IsMaskFrom};
ghost use Rattle.rawk_pieces.specs.Pieces.{AllInRange, IsFieldsAnswer, Decides, ExpressionDecides, IsCut, run_piece, runs_by, singles, split_by, texts};

use crate::class::{Blank, ByteClass, Class, mask_at, mask_of_short};
use crate::mask::{lowest_bit, without_bit};
use crate::matches::cut_matches;
use rawk_ere::Ere;
use rawk_search::CachedExpression;
use rawk_value::Fault;
use std::alloc::{AllocError, Global};

/// Where a field stands in its text: from `start` up to `end`, in bytes.
#[derive(Clone, Copy, PartialEq, Eq)]
pub struct Piece {
    pub start: usize,
    pub end: usize,
}

/// What separates fields (POSIX awk, Variables and Special Variables, FS).
#[derive(Clone, Copy)]
pub enum Separator<'a> {
    /// Runs of space, tab and newline.
    Blanks,
    /// Each occurrence of a byte.
    Byte(u8),
    /// Nothing: each byte is a field.
    Nothing,
    /// Each match of an extended regular expression that is not empty.
    Matches(&'a Ere),
}

impl<'a> Separator<'a> {
    /// The separator that a text names; the expression that several bytes are stands beside, and is read anew only where the text is another one than last time.
    ///
    /// Several bytes that are no extended regular expression are refused: `BadEre`. Where memory is refused the answer is `OutOfMemory`.
    #[inline(always)]
    pub fn named(
        alloc: Global,
        fs: &[u8],
        last: &'a mut CachedExpression,
    ) -> Result<Separator<'a>, Fault>
        ensures { Decides fs.now result }
    {
        match fs {
            [] => Ok(Separator::Nothing),
            [b' '] => Ok(Separator::Blanks),
            [byte] => Ok(Separator::Byte(*byte)),
            _ => matches_of(last.get(alloc, fs)?),
        }
    }
}

/// The separator that an expression is.
fn matches_of(ere: Option<&Ere>) -> Result<Separator<'_>, Fault>
    ensures { ExpressionDecides (option_copied ere.entry) result }
{
    match ere {
        Some(ere) => Ok(Separator::Matches(ere)),
        None => Err(Fault::BadEre),
    }
}

/// Ends a run: its piece is kept where it has bytes, or where empty ones are kept too.
#[inline(always)]
fn end_run(
    pieces: &mut Vec<Piece>,
    empty_too: bool,
    start: usize,
    end: usize,
) -> Result<(), AllocError>
    ensures { OnOk result (pieces.new.items ≡ pieces.old.items ++ run_piece empty_too start end) }
{
    if empty_too || start < end {
        pieces.push(Piece { start, end })?;
    }
    Ok(())
}

/// The same where there is room for a piece.
#[inline(always)]
fn end_run_reserved(pieces: &mut Vec<Piece>, empty_too: bool, start: usize, end: usize)
    requires { vec_len pieces.old < vec_capacity pieces.old }
    ensures items { pieces.new.items ≡ pieces.old.items ++ run_piece empty_too start end }
    ensures len { vec_len pieces.new ≤ vec_len pieces.old + 1 }
    ensures capacity { vec_capacity pieces.new ≡ vec_capacity pieces.old }
{
    if start < end || empty_too {
        pieces.push_reserved(Piece { start, end });
    }
}

/// Ends a run at each separator, byte by byte, and gives where the last run begins.
fn cut_bytes<C: Class>(
    class: &C,
    empty_too: bool,
    text: &[u8],
    pieces: &mut Vec<Piece>,
) -> Result<usize, AllocError>
    requires { pieces.old.items ≡ [] }
    ensures { IfOk result (λ start. IsCut (C.contains class.now) empty_too text.now pieces.new.items start (length text.now)) }
{
    let mut start = 0;
    for end in 0..text.len() {
        if class.has(text[end]) {
            end_run(pieces, empty_too, start, end)?;
            start = end + 1;
        }
    }
    Ok(start)
}

/// Ends a run at each separator among the next 32 bytes, which are marked, and gives where the last run begins.
#[inline(always)]
fn cut_block<C: Class>(
    class: &C,
    empty_too: bool,
    text: &[u8],
    marks: u64,
    at: usize,
    begin: usize,
    pieces: &mut Vec<Piece>,
) -> Result<usize, AllocError>
    requires marks { IsMaskFrom (C.contains class.now) text.now at at marks }
    requires inside { at < length text.now }
    requires cut { IsCut (C.contains class.now) empty_too text.now pieces.old.items begin at }
    ensures { IfOk result (λ start. IsCut (C.contains class.now) empty_too text.now pieces.new.items start (min (at + 32) (length text.now))) }
{
    let (_class, _text) = (class, text);
    pieces.reserve(32)?;
    let mut rest = marks;
    let mut start = begin;
    while rest != 0 {
        let bit = lowest_bit(rest);
        end_run_reserved(pieces, empty_too, start, at + bit);
        start = at + bit + 1;
        rest = without_bit(rest, bit);
    }
    Ok(start)
}

/// Ends a run at each separator, 32 bytes at a time, and gives where the last run begins. Room for the pieces of a usual line is taken at once.
fn cut_blocks<C: Class>(
    class: &C,
    empty_too: bool,
    text: &[u8],
    pieces: &mut Vec<Piece>,
) -> Result<usize, AllocError>
    requires long { 32 ≤ length text.now }
    requires none { pieces.old.items ≡ [] }
    ensures { IfOk result (λ start. IsCut (C.contains class.now) empty_too text.now pieces.new.items start (length text.now)) }
{
    pieces.reserve(64)?;
    let mut start = 0;
    let mut at = 0;
    while at < text.len() {
        let marks = mask_at(class, text, at);
        start = cut_block(class, empty_too, text, marks, at, start, pieces)?;
        at = (at + 32).min(text.len());
    }
    Ok(start)
}

/// Ends a run at each separator, byte by byte, or up to 32 bytes at once, and gives where the last run begins.
fn cut_front<C: Class>(
    class: &C,
    empty_too: bool,
    text: &[u8],
    pieces: &mut Vec<Piece>,
) -> Result<usize, AllocError>
    requires { pieces.old.items ≡ [] }
    ensures { IfOk result (λ start. IsCut (C.contains class.now) empty_too text.now pieces.new.items start (length text.now)) }
{
    if text.len() < 8 {
        return cut_bytes(class, empty_too, text, pieces);
    }
    if text.len() < 32 {
        let marks = mask_of_short(class, text);
        return cut_block(class, empty_too, text, marks, 0, 0, pieces);
    }
    cut_blocks(class, empty_too, text, pieces)
}

/// The runs of bytes outside the class, without the empty ones or with them.
fn cut_runs<C: Class>(
    class: &C,
    empty_too: bool,
    text: &[u8],
    pieces: &mut Vec<Piece>,
) -> Result<(), AllocError>
    requires { pieces.old.items ≡ [] }
    ensures fields { OnOk result (texts text.now pieces.new.items ≡ runs_by empty_too (C.contains class.now) text.now) }
    ensures in_range { OnOk result (AllInRange text.now pieces.new.items) }
{
    let start = cut_front(class, empty_too, text, pieces)?;
    end_run(pieces, empty_too, start, text.len())?;
    Ok(())
}

/// The parts between bytes of the class; an empty text has none.
fn cut_parts<C: Class>(class: &C, text: &[u8], pieces: &mut Vec<Piece>) -> Result<(), AllocError>
    requires { pieces.old.items ≡ [] }
    ensures fields { OnOk result (texts text.now pieces.new.items ≡ byte_parts (C.contains class.now) text.now) }
    ensures in_range { OnOk result (AllInRange text.now pieces.new.items) }
{
    if text.len() == 0 {
        return Ok(());
    }
    cut_runs(class, true, text, pieces)
}

/// Each byte.
fn cut_singles(text: &[u8], pieces: &mut Vec<Piece>) -> Result<(), AllocError>
    requires { pieces.old.items ≡ [] }
    ensures fields { OnOk result (texts text.now pieces.new.items ≡ singles text.now) }
    ensures in_range { AllInRange text.now pieces.new.items }
{
    for start in 0..text.len() {
        pieces.push(Piece {
            start,
            end: start + 1,
        })?;
    }
    Ok(())
}

/// Cuts a text into its fields; `newline` says whether a newline separates too. It fails where memory is refused.
pub fn cut(
    alloc: Global,
    text: &[u8],
    separator: Separator<'_>,
    newline: bool,
    pieces: &mut Vec<Piece>,
) -> Result<(), AllocError>
    requires { pieces.old.items ≡ [] }
    ensures fields { OnOk result (texts text.now pieces.new.items ≡ split_by separator.entry newline text.now) }
    ensures in_range { OnOk result (AllInRange text.now pieces.new.items) }
{
    match separator {
        Separator::Blanks => cut_runs(&Blank, false, text, pieces),
        Separator::Byte(byte) => cut_parts(&ByteClass { byte, newline }, text, pieces),
        Separator::Nothing => cut_singles(text, pieces),
        Separator::Matches(ere) => cut_matches(alloc, ere, newline, text, pieces),
    }
}

/// The fields of a text, as places in it.
#[derive(Drop)]
pub struct Fields {
    pub pieces: Vec<Piece>,
}

/// The fields of a text by a separator; `newline` says whether a newline separates too. The memory of `spare` is used for them, whatever stands there.
///
/// Several bytes that are no extended regular expression are refused: `BadEre`. Where memory is refused the answer is `OutOfMemory`.
pub fn fields_of(
    alloc: Global,
    spare: Vec<Piece>,
    text: &[u8],
    fs: &[u8],
    newline: bool,
) -> Result<Fields, Fault>
    ensures { IsFieldsAnswer text.now (fields_of text.now fs.now newline) result }
{
    let mut last = CachedExpression::new(alloc);
    let separator = Separator::named(alloc, fs, &mut last)?;
    let mut pieces = spare;
    pieces.clear();
    match cut(alloc, text, separator, newline, &mut pieces) {
        Ok(()) => Ok(Fields { pieces }),
        Err(AllocError) => Err(Fault::OutOfMemory),
    }
}

/// The parts of a text between the matches of an expression that are not empty, whatever the expression's length. An empty text has none. The memory of `spare` is used for them, whatever
/// stands there. It fails where memory is refused.
pub fn pieces_between(
    alloc: Global,
    spare: Vec<Piece>,
    text: &[u8],
    ere: &Ere,
) -> Result<Fields, AllocError>
    ensures fields { IfOk result (λ f. texts text.now f.pieces.items ≡ ere_parts ere.now false text.now) }
    ensures in_range { IfOk result (λ f. AllInRange text.now f.pieces.items) }
{
    let mut pieces = spare;
    pieces.clear();
    cut_matches(alloc, ere, false, text, &mut pieces)?;
    Ok(Fields { pieces })
}
