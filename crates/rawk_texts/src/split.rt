//! Arrays that take the parts of a text.

ghost use Rattle.std.specs.Bool.{OnTrue};
ghost use Rattle.std.specs.Prelude.{◌≡◌, IfOk};
ghost use Rattle.rawk_value.specs.Values.{next_ok, text_of};
ghost use Rattle.rawk_operators.specs.Borrowed.{borrowed_value};
ghost use Rattle.rawk_operators.specs.Operators.{separated};
ghost use Rattle.rawk_operators.specs.Separations.{Separates};
ghost use Rattle.rawk_store.specs.Layout.{Grown};
ghost use Rattle.rawk_store.specs.Stacked.{live_values};
ghost use Rattle.rawk_store.specs.Stores.{start_of};
ghost use Rattle.rawk_code.specs.Machine.{below, top};
ghost use Rattle.rawk_operands.specs.Moving.{moving, left_in, operand_in};
ghost use Rattle.rawk_operate.specs.Done.{Done, led_by};

use itoa::Buffer;
use rawk_code::{Instr, Op, Operand, Simple};
use rawk_operands::borrowed::{operand_borrowed, popped_borrowed, simple_borrowed};
use rawk_operands::stack::{drop_taken, put};
use rawk_operate::elements::counted;
use rawk_operate::transfer::{Outcome, faulted};
use rawk_operators::{Borrowed, separate, text_borrowed};
use rawk_patterns::Expressions;
use rawk_store::{Fields, Operands, Store, fill_elements};
use rawk_tree::Separation;
use rawk_value::Fault;
use rawk_words::Array;
use std::alloc::{AllocError, Global};

/// The operand below the last one.
fn below_borrowed<'a>(operands: &'a Operands, from: &Operand) -> Borrowed<'a>
    ensures { borrowed_value result ≡ top (below from.now (live_values operands.now.now)) }
{
    match from {
        Operand::Popped => popped_borrowed(operands, 1),
        Operand::Given(_) => popped_borrowed(operands, 0),
        Operand::Computed(_) => popped_borrowed(operands, 0),
    }
}

/// The parts of the text below the last operand between the separators that this is, or a fault. An error: memory was refused.
fn operand_parts(
    alloc: Global,
    expressions: &mut Expressions,
    how: Separation,
    from: &Operand,
    store: &Store,
) -> Result<Result<Fields, Fault>, AllocError>
    ensures { IfOk result (λ r. Separates (text_of (left_in from.now (moving store.now))) (next_ok (operand_in from.now (moving store.now)) (separated how (left_in from.now (moving store.now)))) r) }
{
    match operand_borrowed(alloc, expressions, from, store)? {
        Err(fault) => Ok(Err(fault)),
        Ok(by) => {
            let mut digits = Buffer::new();
            let text = text_borrowed(below_borrowed(&store.operands, from), &mut digits);
            separate(alloc, expressions, how, text, by)
        }
    }
}

/// An array takes the parts of the text below the last operand between the separators that this is, and how many there are becomes the newest operand. It fails where memory is
/// refused.
pub fn split<const SAVES: bool>(
    alloc: Global,
    expressions: &mut Expressions,
    store: &mut Store,
    how: Separation,
    array: Array,
    from: &Operand,
) -> Result<Outcome, AllocError>
    ensures did { IfOk result (λ w. Done (Instr.Do (Op.Split how array from.now)) (moving store.old) (led_by w) (moving store.new)) }
    ensures start { OnTrue SAVES (Grown (start_of store.old) (start_of store.new)) }
{
    let made = operand_parts(alloc, expressions, how, from, store)?;
    match made {
        Err(fault) => Ok(faulted(fault)),
        Ok(fields) => {
            let count = counted(fields.pieces.len())?;
            let mut digits = Buffer::new();
            let text = text_borrowed(below_borrowed(&store.operands, from), &mut digits);
            fill_elements::<SAVES>(
                alloc,
                &mut store.arrays,
                &store.frames,
                array,
                text,
                &fields.pieces,
            )?;
            expressions.take_back(fields);
            drop_taken(store, from);
            put::<SAVES>(store, 1, count)?;
            Ok(Outcome::Next)
        }
    }
}

/// An array takes the parts of `text` between the separators that `by` is, both of which have their value at once, and how many there are becomes the newest operand. It fails where memory is refused.
pub fn split_of<const SAVES: bool>(
    alloc: Global,
    expressions: &mut Expressions,
    store: &mut Store,
    how: Separation,
    array: Array,
    text: &Simple,
    by: &Simple,
) -> Result<Outcome, AllocError>
    ensures did { IfOk result (λ w. Done (Instr.Do (Op.SplitOf how array text.now by.now)) (moving store.old) (led_by w) (moving store.new)) }
    ensures start { OnTrue SAVES (Grown (start_of store.old) (start_of store.new)) }
{
    let mut digits = Buffer::new();
    let from = simple_borrowed(text, &store.globals, &store.frames, &store.current);
    let bytes = text_borrowed(from, &mut digits);
    let between = simple_borrowed(by, &store.globals, &store.frames, &store.current);
    let made = separate(alloc, expressions, how, bytes, between)?;
    match made {
        Err(fault) => Ok(faulted(fault)),
        Ok(fields) => {
            let count = counted(fields.pieces.len())?;
            fill_elements::<SAVES>(
                alloc,
                &mut store.arrays,
                &store.frames,
                array,
                bytes,
                &fields.pieces,
            )?;
            expressions.take_back(fields);
            put::<SAVES>(store, 0, count)?;
            Ok(Outcome::Next)
        }
    }
}
