//! The fields between the matches of an extended regular expression.

ghost use Rattle.std.specs.Prelude.{◌≡◌, ◌≤◌, [], true, IfOk, OnOk, length};
ghost use Rattle.rawk_search.specs.Matches.{first_nonempty};
ghost use Rattle.rawk_pieces.specs.Fields.{comes_first, ere_parts, nearer, newline_from};
ghost use Rattle.rawk_pieces.specs.Pieces.{AllInRange, texts};
ghost use Rattle.rawk_pieces.specs.Separators.{IsAhead};

use crate::pieces::Piece;
use memchr::memchr;
use rawk_ere::{Ere, Finder};
use rawk_search::{Span, next_nonempty_on};
use std::alloc::{AllocError, Global};

/// What comes next from a place on: a match, and where newlines separate too, a newline.
#[derive(Clone, Copy)]
pub(crate) struct Ahead {
    pub from: usize,
    pub found: Option<Span>,
    pub line: Option<Span>,
}

/// The first newline from a place on, where newlines separate.
fn newline_from(newline: bool, text: &[u8], from: usize) -> Option<Span>
    requires { from ≤ length text.now }
    ensures { result ≡ newline_from newline text.now from }
{
    if !newline {
        return None;
    }
    match memchr(b'\n', &text[from..]) {
        Some(at) => Some(Span {
            start: from + at,
            end: from + at + 1,
        }),
        None => None,
    }
}

/// Whether the second stretch begins before the first, or where that does and is longer.
fn comes_first(a: Span, b: Span) -> bool
    ensures { result ≡ comes_first a b }
{
    b.start < a.start || b.start == a.start && a.end < b.end
}

/// The nearer of two stretches, and the longer at one place.
fn nearer(a: Option<Span>, b: Option<Span>) -> Option<Span>
    ensures { result ≡ nearer a b }
{
    match (a, b) {
        (None, b) => b,
        (Some(a), None) => Some(a),
        (Some(a), Some(b)) => { if comes_first(a, b) { Some(b) } else { Some(a) } }
    }
}

/// The next match from a place on. The one that was found before is kept until it is passed.
fn match_from(
    alloc: Global,
    finder: &mut Finder<'_>,
    ahead: Ahead,
    from: usize,
) -> Result<Option<Span>, AllocError>
    requires found { ahead.found ≡ first_nonempty true finder.old.text finder.old.ere ahead.from }
    requires low { ahead.from ≤ from }
    requires high { from ≤ length finder.old.text }
    ensures same { finder.new ≡ finder.old }
    ensures found { IfOk result (λ o. o ≡ first_nonempty true finder.old.text finder.old.ere from) }
{
    match ahead.found {
        None => Ok(None),
        Some(span) => {
            if from <= span.start {
                return Ok(Some(span));
            }
            next_nonempty_on(alloc, finder, from)
        }
    }
}

/// The next newline from a place on, where newlines separate. The one that was found before is kept until it is passed.
fn line_from(newline: bool, text: &[u8], ahead: Ahead, from: usize) -> Option<Span>
    requires line { ahead.line ≡ newline_from newline text.now ahead.from }
    requires low { ahead.from ≤ from }
    requires high { from ≤ length text.now }
    ensures { result ≡ newline_from newline text.now from }
{
    match ahead.line {
        None => None,
        Some(span) => {
            if from <= span.start {
                return Some(span);
            }
            newline_from(newline, text, from)
        }
    }
}

/// What comes next from the beginning of a text.
fn first_ahead(
    alloc: Global,
    finder: &mut Finder<'_>,
    newline: bool,
    text: &[u8],
) -> Result<Ahead, AllocError>
    requires { finder.old.text ≡ text.now }
    ensures same { finder.new ≡ finder.old }
    ensures ahead { IfOk result (λ ahead. IsAhead finder.old.ere newline text.now ahead × (ahead.from ≡ 0)) }
{
    let found = next_nonempty_on(alloc, finder, 0)?;
    let line = newline_from(newline, text, 0);
    Ok(Ahead {
        from: 0,
        found,
        line,
    })
}

/// What comes next from a later place on.
fn ahead_from(
    alloc: Global,
    finder: &mut Finder<'_>,
    newline: bool,
    text: &[u8],
    ahead: Ahead,
    from: usize,
) -> Result<Ahead, AllocError>
    requires text { finder.old.text ≡ text.now }
    requires was { IsAhead finder.old.ere newline text.now ahead }
    requires low { ahead.from ≤ from }
    requires high { from ≤ length text.now }
    ensures same { finder.new ≡ finder.old }
    ensures ahead { IfOk result (λ new. IsAhead finder.old.ere newline text.now new × (new.from ≡ from)) }
{
    let found = match_from(alloc, finder, ahead, from)?;
    let line = line_from(newline, text, ahead, from);
    Ok(Ahead { from, found, line })
}

/// The parts between the matches that are not empty; where `newline` says so, a newline separates too, and at one place the longer separator counts. An empty text has none.
pub(crate) fn cut_matches(
    alloc: Global,
    ere: &Ere,
    newline: bool,
    text: &[u8],
    pieces: &mut Vec<Piece>,
) -> Result<(), AllocError>
    requires { pieces.old.items ≡ [] }
    ensures fields { OnOk result (texts text.now pieces.new.items ≡ ere_parts ere.now newline text.now) }
    ensures in_range { OnOk result (AllInRange text.now pieces.new.items) }
{
    if text.len() == 0 {
        return Ok(());
    }
    let mut finder = Finder::new(ere, text);
    let mut ahead = first_ahead(alloc, &mut finder, newline, text)?;
    while let Some(cut) = nearer(ahead.found, ahead.line) {
        pieces.push(Piece {
            start: ahead.from,
            end: cut.start,
        })?;
        ahead = ahead_from(alloc, &mut finder, newline, text, ahead, cut.end)?;
    }
    pieces.push(Piece {
        start: ahead.from,
        end: text.len(),
    })?;
    Ok(())
}
