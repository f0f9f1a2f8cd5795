// Loops: what stands before and behind their bodies.

ghost use Rattle.std.specs.Prelude.{◌≡◌, [], ◌∷◌, ◌++◌, ◌+◌, ◌<◌, ◌≤◌, ◌^◌, if◌then◌else◌, IfOk, OnOk, length};
ghost use Rattle.rawk_compiler.specs.Code.{condition_code, condition_leap, jump_code, step_around, body_around};
ghost use Rattle.rawk_compiler.specs.Written.{loop_written};

use crate::emit_statements::emit_condition;
use rawk_code::Instr;
use rawk_selection::instructions::{patch, put, put_go_to, put_open};
use rawk_tree::Expr;
use std::alloc::{AllocError, Global};

/// What stands around a statement: where `break` and `continue` go, and how many loops over keys are open in its body.
#[derive(Clone, Copy)]
pub struct Around {
    pub exit: Option<usize>,
    pub again: Option<usize>,
    pub held: usize,
}

// A loop whose jumps forward are still open: the place of its first instruction, and that of the jump behind its test.
#[derive(Clone, Copy)]
pub(crate) struct Opened {
    pub(crate) start: usize,
    pub(crate) test_end: usize,
}

// A loop as far as the jump behind its test.
pub(crate) fn begin_loop(
    alloc: Global,
    code: &mut Vec<Instr>,
    site: usize,
    e: &Expr,
) -> Result<Opened, AllocError>
    ensures items { IfOk result (λ loop. code.new.items ≡ code.old.items ++ Instr.GoOn 0 ∷ (Instr.GoOn 0 ∷ (Instr.GoOn 0 ∷ (condition_code site e.now ++ condition_leap e.now ∷ [])))) }
    ensures start { IfOk result (λ loop. loop.start ≡ length code.old.items) }
    ensures test { IfOk result (λ loop. loop.test_end ≡ length code.old.items + 3 + length (condition_code site e.now)) }
    ensures room { IfOk result (λ loop. loop.start + 3 < 2 ^ 63) }
{
    let start = code.len();
    put_open(code)?;
    put_open(code)?;
    put_open(code)?;
    let test_end = emit_condition(alloc, code, site, e)?;
    Ok(Opened { start, test_end })
}

// A loop's last instruction, and its jumps forward.
pub(crate) fn end_loop(
    code: &mut Vec<Instr>,
    body_first: bool,
    opened: Opened,
    body_end: usize,
) -> Result<(), AllocError>
    requires first { opened.start + 3 < opened.test_end }
    requires second { opened.test_end < body_end }
    requires third { body_end ≤ length code.now.items }
    ensures { OnOk result (code.new.items ≡ loop_written body_first opened.start opened.test_end body_end code.old.items) }
{
    let Opened { start, test_end } = opened;
    put_go_to(code, start + 3)?;
    let last = code.len();
    patch(code, start, entry_of(body_first, test_end - start));
    patch(code, start + 1, last - start - 2);
    patch(code, start + 2, body_end - start - 3);
    patch(code, test_end, last - test_end - 1);
    Ok(())
}

// How far a loop's first jump goes.
fn entry_of(body_first: bool, over_test: usize) -> usize
    ensures { result ≡ (if body_first then over_test else 2) }
{
    if body_first { over_test } else { 2 }
}

// What stands around the body of a loop that begins at this place.
pub(crate) fn body_of(start: usize, around: Around) -> Around
    requires { start + 3 < 2 ^ 63 }
    ensures { result ≡ body_around start around }
{
    Around {
        exit: Some(start + 1),
        again: Some(start + 2),
        held: around.held,
    }
}

// What stands around its step.
pub(crate) fn step_of(start: usize, around: Around) -> Around
    requires { start + 3 < 2 ^ 63 }
    ensures { result ≡ step_around start around }
{
    Around {
        exit: Some(start + 1),
        again: around.again,
        held: around.held,
    }
}

// The jump of a `break` or `continue`.
pub(crate) fn emit_jump(code: &mut Vec<Instr>, target: Option<usize>) -> Result<(), AllocError>
    ensures { OnOk result (code.new.items ≡ code.old.items ++ jump_code target) }
{
    match target {
        Some(place) => put_go_to(code, place),
        None => put(code, Instr::Quit),
    }
}
