// Loops over the keys of arrays, and what is deleted of arrays.

ghost use Rattle.std.specs.Prelude.{◌≡◌, [], ◌∷◌, ◌++◌, ◌+◌, ◌<◌, ◌^◌, Some, IfOk, OnOk, length, map};
ghost use Rattle.rawk_emission.specs.Expressions.{expr_code, key_code, key_operand, unless_ready};
ghost use Rattle.rawk_compiler.specs.Code.{keys_around, scalar_destination};
ghost use Rattle.rawk_compiler.specs.Written.{keys_written};

use crate::loops::Around;
use rawk_code::{Destination, Instr, Op, Variable};
use rawk_emission::expressions::emit_key_operand;
use rawk_selection::instructions::{patch, put, put_open, put_point};
use rawk_tree::{Expr, Scalar};
use rawk_words::Array;
use std::alloc::{AllocError, Global};

// What takes a key.
fn as_taker(x: Scalar) -> Destination
    ensures { result ≡ scalar_destination x }
{
    match x {
        Scalar::Global(number) => Destination::Variable(Variable::Global(number)),
        Scalar::Local(number) => Destination::Variable(Variable::Local(number)),
        Scalar::FieldCount => Destination::FieldCount,
    }
}

// A loop over keys up to its body, whose jumps forward are still open, and the place of its first instruction.
pub(crate) fn begin_keys(
    code: &mut Vec<Instr>,
    site: usize,
    x: Scalar,
    array: Array,
) -> Result<usize, AllocError>
    ensures items { IfOk result (λ start. code.new.items ≡ code.old.items ++ Instr.TakeKeys array ∷ (Instr.GoOn 0 ∷ (Instr.GoOn 0 ∷ (Instr.Point (Some site) ∷ (Instr.AssignKey (scalar_destination x) ∷ []))))) }
    ensures start { IfOk result (λ start. start ≡ length code.old.items) }
    ensures room { IfOk result (λ start. start + 3 < 2 ^ 63) }
{
    let start = code.len();
    put(code, Instr::TakeKeys(array))?;
    put_open(code)?;
    put_open(code)?;
    put_point(code, site)?;
    put(code, Instr::AssignKey(as_taker(x)))?;
    Ok(start)
}

// What stands around the body of a loop over keys that begins at this place. An error: more loops than any memory holds.
pub(crate) fn keys_body_of(start: usize, around: Around) -> Result<Around, AllocError>
    requires { start + 3 < 2 ^ 63 }
    ensures { IfOk result (λ body. body ≡ keys_around start around) }
{
    match around.held.checked_add(1) {
        Some(held) => Ok(Around {
            exit: Some(start + 2),
            again: Some(start + 1),
            held,
        }),
        None => Err(AllocError),
    }
}

// The last instructions of a loop over keys, and its jumps forward.
pub(crate) fn end_keys(code: &mut Vec<Instr>, start: usize) -> Result<(), AllocError>
    requires { start + 3 < length code.old.items }
    ensures { OnOk result (code.new.items ≡ keys_written start code.old.items) }
{
    let last = code.len();
    put(code, Instr::BackIfKey(start + 3))?;
    put(code, Instr::DropKeys)?;
    patch(code, start + 1, last - start - 2);
    patch(code, start + 2, last - start - 2);
    Ok(())
}

// An element is deleted.
pub(crate) fn emit_delete(
    alloc: Global,
    code: &mut Vec<Instr>,
    site: usize,
    array: Array,
    subscripts: &[Expr],
) -> Result<(), AllocError>
    ensures { OnOk result (code.new.items ≡ code.old.items ++ Instr.Point (Some site) ∷ (unless_ready (key_operand subscripts.now) (key_code (map expr_code subscripts.now)) ++ Instr.Do (Op.Delete array (key_operand subscripts.now)) ∷ [])) }
{
    put_point(code, site)?;
    put_deletion(alloc, code, array, subscripts)
}

// The same behind its point.
fn put_deletion(
    alloc: Global,
    code: &mut Vec<Instr>,
    array: Array,
    subscripts: &[Expr],
) -> Result<(), AllocError>
    ensures { OnOk result (code.new.items ≡ code.old.items ++ (unless_ready (key_operand subscripts.now) (key_code (map expr_code subscripts.now)) ++ Instr.Do (Op.Delete array (key_operand subscripts.now)) ∷ [])) }
{
    let from = emit_key_operand(alloc, code, subscripts)?;
    put(code, Instr::Do(Op::Delete(array, from)))
}

// All elements of an array are deleted.
pub(crate) fn emit_clear(code: &mut Vec<Instr>, site: usize, array: Array) -> Result<(), AllocError>
    ensures { OnOk result (code.new.items ≡ code.old.items ++ Instr.Point (Some site) ∷ (Instr.Do (Op.Clear array) ∷ [])) }
{
    put_point(code, site)?;
    put(code, Instr::Do(Op::Clear(array)))
}
