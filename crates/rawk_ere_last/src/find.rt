//! The one place where a match may be.

ghost use Rattle.std.specs.Prelude.{◌<◌, ◌≤◌, ◌↔◌, length, IfOk, IsTrue};
ghost use Rattle.std.specs.Option.{ForSome};
ghost use Rattle.rawk_ere_automaton.specs.Table.{IsTable};
ghost use Rattle.rawk_ere_walks.specs.Ways.{BeginsIn};
ghost use Rattle.rawk_ere_automaton.specs.Search.{IsFound};
ghost use Rattle.rawk_ere_last.specs.Shapes.{AreLast};

use rawk_ere_automaton::search::{first, is_found_by_walk};
use rawk_ere_automaton::table::{Table, first_stop};
use rawk_ere_tree::code::Code;
use std::alloc::{AllocError, Global};

/// The first way from a place on, where each way has `width` bytes and ends at the end of the text: it looks at one place.
#[inline(always)]
fn find_last(
    table: &Table,
    code: &Code,
    text: &[u8],
    from: usize,
    width: usize,
) -> Option<(usize, usize)>
    requires within { from ≤ length text.now }
    requires some { 0 < length text.now }
    requires table { IsTable code.now table.now }
    requires last { AreLast code.now text.now width }
    ensures { IsFound code.now text.now from result }
{
    if text.len() - from < width {
        return None;
    }
    let begin = text.len() - width;
    let found = first_stop(table, code, text, begin);
    if found.is_end {
        Some((begin, text.len()))
    } else {
        None
    }
}

/// The first way from a place on, and the longest there: by one look where there is a table and it is known how many bytes
/// each way has, which ends at the end of the text, else by walks of state sets.
#[inline(never)]
pub fn first_apart(
    alloc: Global,
    table: &Option<Table>,
    width: Option<usize>,
    code: &Code,
    text: &[u8],
    from: usize,
) -> Result<Option<(usize, usize)>, AllocError>
    requires within { from ≤ length text.now }
    requires some { 0 < length text.now }
    requires table { ForSome table.now (IsTable code.now) }
    requires last { ForSome width (AreLast code.now text.now) }
    ensures { IfOk result (IsFound code.now text.now from) }
{
    if let Some(table) = table {
        if let Some(width) = width {
            return Ok(find_last(table, code, text, from, width));
        }
    }
    first(alloc, code, text, from)
}

/// Whether there is a way at all, found in the same manner.
pub fn is_found_apart(
    alloc: Global,
    table: &Option<Table>,
    width: Option<usize>,
    code: &Code,
    text: &[u8],
) -> Result<bool, AllocError>
    requires some { 0 < length text.now }
    requires table { ForSome table.now (IsTable code.now) }
    requires last { ForSome width (AreLast code.now text.now) }
    ensures { IfOk result (λ b. IsTrue b ↔ BeginsIn code.now text.now 0 (length text.now)) }
{
    if let Some(table) = table {
        if let Some(width) = width {
            return Ok(find_last(table, code, text, 0, width).is_some());
        }
    }
    is_found_by_walk(alloc, code, text)
}
