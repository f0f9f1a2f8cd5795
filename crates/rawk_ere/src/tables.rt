//! The tables of a code, where it is short enough to have them.

ghost use Rattle.std.specs.Prelude.{IfOk};
ghost use Rattle.std.specs.Option.{ForSome};
ghost use Rattle.rawk_ere_tree.specs.Code.{wide_code};
ghost use Rattle.rawk_ere_automaton.specs.Table.{IsTable};

use rawk_ere_automaton::table::{Table, build};
use rawk_ere_tree::code::Code;
use rawk_ere_tree::emit::widen;
use std::alloc::{AllocError, Global};

/// Only a code that is no longer than this gets a table.
const SHORT: usize = 512;

/// How many rows a table may have, and how many states all of them, so that it is made soon.
const ROWS: usize = 256;

const STATES: usize = 32768;

/// The table of a code that is short and needs few rows.
pub fn small_table(alloc: Global, code: &Code) -> Result<Option<Table>, AllocError>
    ensures { IfOk result (λ table. ForSome table (IsTable code.now)) }
{
    if code.len() > SHORT {
        return Ok(None);
    }
    let rows = STATES / (code.len() + 1);
    build(alloc, code, rows.min(ROWS))
}

/// The table of the wide code, where the code has one.
pub fn small_wide(
    alloc: Global,
    code: &Code,
    table: &Option<Table>,
) -> Result<Option<Table>, AllocError>
    ensures { IfOk result (λ wide. ForSome wide (IsTable (wide_code code.now))) }
{
    if table.is_none() {
        return Ok(None);
    }
    let wide = widen(alloc, code)?;
    let found = small_table(alloc, &wide)?;
    Ok(found)
}
