//! Where a match stands in a text.

ghost use Rattle.std.specs.Bool.{OnTrue};
ghost use Rattle.std.specs.Prelude.{◌≡◌, IfOk, OnOk};
ghost use Rattle.rawk_store.specs.Layout.{Grown};
ghost use Rattle.rawk_store.specs.Stores.{start_of};
ghost use Rattle.rawk_operators.specs.Operators.{found_in};
ghost use Rattle.rawk_operands.specs.Moving.{moving, simple_in};
ghost use Rattle.rawk_operate.specs.Done.{Done, led_by};
ghost use Rattle.rawk_act.specs.Matched.{with_match};

use rawk_code::{Instr, Op, Operand, Simple};
use rawk_operands::borrowed::simple_in;
use rawk_operands::stack::{drop_taken, put};
use rawk_operate::transfer::{Outcome, faulted};
use rawk_operators::{Match, find};
use rawk_patterns::Expressions;
use rawk_places::operands::operand_found;
use rawk_special::{RLENGTH, RSTART};
use rawk_store::Store;
use rawk_value::{Fault, Value};
use std::alloc::{AllocError, Global};

/// RLENGTH and RSTART take where a match stands. It fails where memory is refused.
#[inline(always)]
fn set_match<const SAVES: bool>(store: &mut Store, told: Match) -> Result<(), AllocError>
    ensures did { OnOk result (moving store.new ≡ with_match told (moving store.old)) }
    ensures start { OnTrue SAVES (start_of store.new ≡ start_of store.old) }
{
    let length = Value::Number(told.length);
    store.globals.set::<SAVES>(RLENGTH, length)?;
    let start = Value::Number(told.start);
    store.globals.set::<SAVES>(RSTART, start)
}

/// RSTART and RLENGTH take where the first match of the last operand stands in the one below it, which RSTART's value replaces. It fails where memory is refused.
pub(crate) fn match_text<const SAVES: bool>(
    alloc: Global,
    expressions: &mut Expressions,
    store: &mut Store,
    from: &Operand,
) -> Result<Outcome, AllocError>
    ensures did { IfOk result (λ w. Done (Instr.Do (Op.Match from.now)) (moving store.old) (led_by w) (moving store.new)) }
    ensures start { OnTrue SAVES (Grown (start_of store.old) (start_of store.new)) }
{
    let found = operand_found(alloc, expressions, from, store)?;
    match found {
        Err(fault) => Ok(faulted(fault)),
        Ok(told) => {
            set_match::<SAVES>(store, told)?;
            drop_taken(store, from);
            put::<SAVES>(store, 1, Value::Number(told.start))?;
            Ok(Outcome::Next)
        }
    }
}

/// Where the first match of `by` stands in `text`, both of which have their value at once, or a fault. An error: memory was refused.
fn found_at_once(
    alloc: Global,
    expressions: &mut Expressions,
    text: &Simple,
    by: &Simple,
    store: &Store,
) -> Result<Result<Match, Fault>, AllocError>
    ensures { IfOk result (λ r. r ≡ found_in (simple_in text.now (moving store.now)) (simple_in by.now (moving store.now))) }
{
    find(
        alloc,
        expressions,
        simple_in(text, store),
        simple_in(by, store),
    )
}

/// RSTART and RLENGTH take where the first match of `by` stands in `text`, both of which have their value at once, and RSTART's value becomes the newest operand. It fails where memory is refused.
pub(crate) fn match_of<const SAVES: bool>(
    alloc: Global,
    expressions: &mut Expressions,
    store: &mut Store,
    text: &Simple,
    by: &Simple,
) -> Result<Outcome, AllocError>
    ensures did { IfOk result (λ w. Done (Instr.Do (Op.MatchOf text.now by.now)) (moving store.old) (led_by w) (moving store.new)) }
    ensures start { OnTrue SAVES (Grown (start_of store.old) (start_of store.new)) }
{
    let found = found_at_once(alloc, expressions, text, by, store)?;
    match found {
        Err(fault) => Ok(faulted(fault)),
        Ok(told) => {
            set_match::<SAVES>(store, told)?;
            put::<SAVES>(store, 0, Value::Number(told.start))?;
            Ok(Outcome::Next)
        }
    }
}
