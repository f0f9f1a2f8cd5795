// The whole program.

ghost use Rattle.std.specs.Prelude.{◌≡◌, [], ◌∷◌, ◌++◌, ◌+◌, IfOk, OnOk, false, map, length};
ghost use Rattle.rawk_emission.specs.Expressions.{fork_of};
ghost use Rattle.rawk_compiler.specs.Code.{behind_point, condition_code, condition_leap, in_turn, nowhere, when_code, closing_code, opened_code, guard_code, rule_code, function_code, functions_code, entries_from, records_code, main_code, stmt_code, IsCompiled, HasPlaces};
ghost use Rattle.rawk_code.specs.Correct.{CodeOf};
ghost use Rattle.rawk_code.specs.Trace.{reads};

use crate::emit_statements::{emit_block, emit_condition, emit_stmt};
use crate::loops::Around;
use rawk_code::{Entry, Instr, Operand, Simple};
use rawk_emission::expressions::emit_skip;
use rawk_selection::instructions::{
    items_of, pass_rest, patch, put, put_go_to, put_point, put_range,
};
use rawk_selection::logic::is_neutral;
use rawk_told::Code;
use rawk_tree::{Expr, Function, Guard, Program, Rule, Stmt};
use rawk_value::Bytes;
use std::alloc::{AllocError, Global};

// In no loop.
const NOWHERE: Around = Around {
    exit: None,
    again: None,
    held: 0,
};

/// The code of a program, which does what the program does, with any first values, on any input, under any sets and with any number of steps.
/// It fails where memory is refused.
pub fn compile(alloc: Global, program: &Program) -> Result<Code, AllocError>
    ensures meaning { IfOk result (λ code. CodeOf program.now code) }
    ensures names { IfOk result (λ code. code.names ≡ program.now.names.items) }
    ensures places { IfOk result (λ code. HasPlaces program.now code) }
{
    let Parts {
        instrs,
        names,
        record_at,
        end_at,
        entries,
        ranges,
    } = parts_of(alloc, program)?;
    let code = Code::new(alloc, instrs, names, record_at, end_at, entries, ranges)?;
    Ok(code)
}

// What a code is made of.
#[derive(Drop)]
struct Parts {
    instrs: Vec<Instr>,
    names: Vec<Bytes>,
    record_at: usize,
    end_at: usize,
    entries: Vec<Entry>,
    ranges: usize,
}

// The parts of a program's code.
fn parts_of(alloc: Global, program: &Program) -> Result<Parts, AllocError>
    ensures { IfOk result (λ parts. IsCompiled program.now (record { instrs = parts.instrs.items; names = parts.names.items; record_at = parts.record_at; end_at = parts.end_at; entries = parts.entries.items; ranges = parts.ranges })) }
{
    let mut instrs = Vec::new(alloc);
    emit_block(alloc, &mut instrs, NOWHERE, &program.begin)?;
    let begin_len = instrs.len();
    emit_main(alloc, &mut instrs, has_records(program), &program.rules)?;
    let end_at = emit_end(alloc, &mut instrs, &program.end)?;
    let entries = emit_functions(alloc, &mut instrs, &program.functions)?;
    let names = copied(alloc, &program.names)?;
    Ok(Parts {
        instrs,
        names,
        record_at: begin_len + 1,
        end_at,
        entries,
        ranges: program.ranges,
    })
}

// Whether records are read.
fn has_records(program: &Program) -> bool
    ensures { result ≡ reads program.now }
{
    program.rules.len() > 0 || program.end.len() > 0
}

// The records, where they are read.
fn emit_main(
    alloc: Global,
    code: &mut Vec<Instr>,
    reads: bool,
    rules: &[Rule],
) -> Result<(), AllocError>
    ensures { OnOk result (code.new.items ≡ code.old.items ++ main_code reads rules.now (length code.old.items)) }
{
    if reads {
        put(code, Instr::BeginMain)?;
        emit_records(alloc, code, rules)?;
    }
    Ok(())
}

// The readings of the records, and the main rules.
fn emit_records(alloc: Global, code: &mut Vec<Instr>, rules: &[Rule]) -> Result<(), AllocError>
    ensures { OnOk result (code.new.items ≡ code.old.items ++ records_code rules.now (length code.old.items)) }
{
    let start = code.len();
    let read = put_reading(code)?;
    emit_rules(alloc, code, rules)?;
    put_go_to(code, start)?;
    pass_rest(code, read);
    Ok(())
}

// The reading of a record, whose jump at the end of the input is left open, and the place of that jump.
fn put_reading(code: &mut Vec<Instr>) -> Result<usize, AllocError>
    ensures items { IfOk result (λ read. code.new.items ≡ code.old.items ++ Instr.Point None ∷ (Instr.ReadRecord 0 ∷ [])) }
    ensures place { IfOk result (λ read. read ≡ length code.old.items + 1) }
{
    put(code, Instr::Point(None))?;
    let read = code.len();
    put(code, Instr::ReadRecord(0))?;
    Ok(read)
}

// The main rules, one after another.
fn emit_rules(alloc: Global, code: &mut Vec<Instr>, rules: &[Rule]) -> Result<(), AllocError>
    ensures { OnOk result (code.new.items ≡ code.old.items ++ in_turn (map rule_code rules.now) nowhere (length code.old.items)) }
{
    for rule in rules {
        emit_guarded(alloc, code, &rule.guard, rule.site, &rule.action)?;
    }
    Ok(())
}

// A rule's guard, and its action.
fn emit_guarded(
    alloc: Global,
    code: &mut Vec<Instr>,
    guard: &Guard,
    site: usize,
    action: &Stmt,
) -> Result<(), AllocError>
    ensures { OnOk result (code.new.items ≡ code.old.items ++ guard_code guard.now site (stmt_code action.now) nowhere (length code.old.items)) }
{
    match guard {
        Guard::When(test) => emit_when(alloc, code, site, test, action),
        Guard::Between(range, first, last) => {
            emit_between(alloc, code, site, *range, first, last, action)
        }
    }
}

// A test, and its action where the test holds; a constant that is true needs no test.
fn emit_when(
    alloc: Global,
    code: &mut Vec<Instr>,
    site: usize,
    test: &Expr,
    action: &Stmt,
) -> Result<(), AllocError>
    ensures { OnOk result (code.new.items ≡ code.old.items ++ guard_code (Guard.When test.now) site (stmt_code action.now) nowhere (length code.old.items)) }
{
    if is_neutral(false, test) {
        emit_behind(alloc, code, site, action)
    } else {
        emit_tested(alloc, code, site, test, action)
    }
}

// An action behind its point.
fn emit_behind(
    alloc: Global,
    code: &mut Vec<Instr>,
    site: usize,
    action: &Stmt,
) -> Result<(), AllocError>
    ensures { OnOk result (code.new.items ≡ code.old.items ++ behind_point site (stmt_code action.now) nowhere (length code.old.items)) }
{
    put_point(code, site)?;
    emit_stmt(alloc, code, NOWHERE, action)?;
    Ok(())
}

// A test, and its action behind the test's jump.
fn emit_tested(
    alloc: Global,
    code: &mut Vec<Instr>,
    site: usize,
    test: &Expr,
    action: &Stmt,
) -> Result<(), AllocError>
    ensures { OnOk result (code.new.items ≡ code.old.items ++ when_code (condition_code site test.now) (condition_leap test.now) (stmt_code action.now) nowhere (length code.old.items)) }
{
    let test_end = emit_condition(alloc, code, site, test)?;
    emit_stmt(alloc, code, NOWHERE, action)?;
    pass_rest(code, test_end);
    Ok(())
}

// A range, and its action on the records that it takes.
fn emit_between(
    alloc: Global,
    code: &mut Vec<Instr>,
    site: usize,
    range: usize,
    first: &Expr,
    last: &Expr,
    action: &Stmt,
) -> Result<(), AllocError>
    ensures { OnOk result (code.new.items ≡ code.old.items ++ guard_code (Guard.Between range first.now last.now) site (stmt_code action.now) nowhere (length code.old.items)) }
{
    put_point(code, site)?;
    let skip = code.len();
    put(code, Instr::SkipIfOn(range, 0))?;
    let behind = emit_range(alloc, code, range, first, last, action)?;
    patch(code, skip, behind - skip - 1);
    Ok(())
}

// The tests of a range and the action, and the place behind the first test.
fn emit_range(
    alloc: Global,
    code: &mut Vec<Instr>,
    range: usize,
    first: &Expr,
    last: &Expr,
    action: &Stmt,
) -> Result<usize, AllocError>
    ensures items { IfOk result (λ behind. code.new.items ≡ code.old.items ++ when_code (fork_of first.now false).front (condition_leap first.now) (opened_code range last.now (stmt_code action.now)) nowhere (length code.old.items)) }
    ensures behind { IfOk result (λ behind. behind ≡ length code.old.items + length (fork_of first.now false).front + 2) }
{
    let skip = emit_skip(alloc, code, first, false)?;
    put_range(code, range, true)?;
    let behind = code.len();
    emit_closing(alloc, code, range, last)?;
    emit_stmt(alloc, code, NOWHERE, action)?;
    pass_rest(code, skip);
    Ok(behind)
}

// The second test of a range, which turns it off.
fn emit_closing(
    alloc: Global,
    code: &mut Vec<Instr>,
    range: usize,
    last: &Expr,
) -> Result<(), AllocError>
    ensures { OnOk result (code.new.items ≡ code.old.items ++ closing_code range last.now) }
{
    let skip = emit_skip(alloc, code, last, false)?;
    put_range(code, range, false)?;
    pass_rest(code, skip);
    Ok(())
}

// The functions, and where each begins.
fn emit_functions(
    alloc: Global,
    code: &mut Vec<Instr>,
    functions: &[Function],
) -> Result<Vec<Entry>, AllocError>
    ensures items { IfOk result (λ entries. code.new.items ≡ code.old.items ++ functions_code functions.now (length code.old.items)) }
    ensures entries { IfOk result (λ entries. entries.items ≡ entries_from functions.now (length code.old.items)) }
{
    let mut entries = Vec::new(alloc);
    for function in functions {
        let place = code.len();
        let kinds = items_of(alloc, &function.kinds)?;
        entries.push(Entry { place, kinds })?;
        emit_function(alloc, code, function)?;
    }
    Ok(entries)
}

// A function: the point of its entry, its body, and a return without a value.
fn emit_function(
    alloc: Global,
    code: &mut Vec<Instr>,
    function: &Function,
) -> Result<(), AllocError>
    ensures { OnOk result (code.new.items ≡ code.old.items ++ function_code function.now nowhere (length code.old.items)) }
{
    put_point(code, function.site)?;
    emit_stmt(alloc, code, NOWHERE, &function.body)?;
    put(
        code,
        Instr::Return(0, Operand::Given(Simple::Uninitialized)),
    )
}

// END, and the place of its first instruction.
fn emit_end(alloc: Global, code: &mut Vec<Instr>, end: &[Stmt]) -> Result<usize, AllocError>
    ensures items { IfOk result (λ end_at. code.new.items ≡ code.old.items ++ Instr.BeginEnd ∷ (in_turn (map stmt_code end.now) nowhere (length code.old.items + 1) ++ Instr.Halt ∷ [])) }
    ensures place { IfOk result (λ end_at. end_at ≡ length code.old.items + 1) }
{
    put(code, Instr::BeginEnd)?;
    let end_at = code.len();
    emit_block(alloc, code, NOWHERE, end)?;
    put(code, Instr::Halt)?;
    Ok(end_at)
}

// Copies of names.
fn copied(alloc: Global, names: &[Bytes]) -> Result<Vec<Bytes>, AllocError>
    ensures { IfOk result (λ copies. copies.items ≡ names.now) }
{
    let mut copies = Vec::new(alloc);
    for name in names {
        copies.push(Bytes::from_slice(alloc, name.as_slice())?)?;
    }
    Ok(copies)
}
