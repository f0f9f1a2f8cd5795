//! Statements and items as answers show them.

use crate::expressions::{put, put_expr, put_exprs, put_name, put_place};
use rawk_grammar::tree::{Act, Action, Branch, Condition, Head, Item, Jump, Pattern, Stmt};
use rawk_items::{Boxed, Items};
use rawk_parsing::tree::{Expr, Name};
use std::alloc::AllocError;

/// A list behind the word of its statement.
fn put_list(out: &mut Vec<u8>, begin: &[u8], list: &Items<Boxed<Expr>>) -> Result<(), AllocError> {
    put(out, begin)?;
    put_exprs(out, list.as_slice())?;
    put(out, b")")
}

fn put_act(out: &mut Vec<u8>, act: &Act) -> Result<(), AllocError> {
    match act {
        Act::Evaluate(e) => put_expr(out, e.get()),
        Act::Print(list) => put_list(out, b" (print", list),
        Act::Printf(list) => put_list(out, b" (printf", list),
        Act::Delete(place) => {
            put(out, b" (delete")?;
            put_place(out, place)?;
            put(out, b")")
        }
    }
}

/// The value of a jump, if it has one.
fn put_value(
    out: &mut Vec<u8>,
    begin: &[u8],
    value: &Option<Boxed<Expr>>,
) -> Result<(), AllocError> {
    put(out, begin)?;
    if let Some(e) = value {
        put_expr(out, e.get())?;
    }
    put(out, b")")
}

fn put_jump(out: &mut Vec<u8>, jump: &Jump) -> Result<(), AllocError> {
    match jump {
        Jump::Next => put(out, b" (next)"),
        Jump::Break => put(out, b" (break)"),
        Jump::Continue => put(out, b" (continue)"),
        Jump::Exit(value) => put_value(out, b" (exit", value),
        Jump::Return(value) => put_value(out, b" (return", value),
    }
}

fn put_condition(out: &mut Vec<u8>, condition: &Condition) -> Result<(), AllocError> {
    put_expr(out, condition.test.get())
}

/// The condition of a `for`.
fn put_test(out: &mut Vec<u8>, test: &Option<Boxed<Expr>>) -> Result<(), AllocError> {
    match test {
        None => put(out, b" ()"),
        Some(e) => put_expr(out, e.get()),
    }
}

/// What stands before the first statement in a statement.
fn put_begin(out: &mut Vec<u8>, stmt: &Stmt) -> Result<(), AllocError> {
    match stmt {
        Stmt::Empty => put(out, b" (empty)"),
        Stmt::Simple(simple) => put_act(out, &simple.get().act),
        Stmt::Jump(_, jump) => put_jump(out, jump.get()),
        Stmt::Block(_) => put(out, b" (block"),
        Stmt::If(..) => Ok(()),
        Stmt::While(condition, _) => {
            put(out, b" (while")?;
            put_condition(out, condition.get())
        }
        Stmt::Do(..) => put(out, b" (do"),
        Stmt::For(..) => put(out, b" (for"),
        Stmt::ForIn(_, variable, array, _) => {
            put(out, b" (for-in")?;
            put_name(out, variable)?;
            put_name(out, array)
        }
    }
}

/// What stands behind the last statement in a statement.
fn put_end(out: &mut Vec<u8>, stmt: &Stmt) -> Result<(), AllocError> {
    match stmt {
        Stmt::Empty | Stmt::Simple(_) | Stmt::Jump(..) => Ok(()),
        Stmt::Do(_, condition) => {
            put_condition(out, condition.get())?;
            put(out, b")")
        }
        Stmt::If(branches, _) => {
            for _ in branches.as_slice() {
                put(out, b")")?;
            }
            Ok(())
        }
        Stmt::Block(_) | Stmt::While(..) | Stmt::For(..) | Stmt::ForIn(..) => put(out, b")"),
    }
}

/// A statement that may be missing, and what stands there if it is.
#[cycle(statements)]
fn put_optional(
    out: &mut Vec<u8>,
    stmt: &Option<Boxed<Stmt>>,
    missing: &[u8],
) -> Result<(), AllocError> {
    match stmt {
        None => put(out, missing),
        Some(stmt) => put_stmt(out, stmt.get()),
    }
}

#[cycle(statements)]
fn put_head(out: &mut Vec<u8>, head: &Head) -> Result<(), AllocError> {
    put_optional(out, &head.first, b" ()")?;
    put_test(out, &head.test)?;
    put_optional(out, &head.last, b" ()")
}

/// Branches, of which each next one is what the one before does otherwise.
#[cycle(statements)]
fn put_branches(out: &mut Vec<u8>, branches: &[Boxed<Branch>]) -> Result<(), AllocError> {
    for branch in branches {
        put_branch(out, branch.get())?;
    }
    Ok(())
}

#[cycle(statements)]
fn put_branch(out: &mut Vec<u8>, branch: &Branch) -> Result<(), AllocError> {
    put(out, b" (if")?;
    put_condition(out, branch.condition.get())?;
    put_stmt(out, branch.body.get())
}

#[cycle(statements)]
fn put_stmts(out: &mut Vec<u8>, stmts: &[Boxed<Stmt>]) -> Result<(), AllocError> {
    for stmt in stmts {
        put_stmt(out, stmt.get())?;
    }
    Ok(())
}

#[cycle(statements)]
fn put_stmt(out: &mut Vec<u8>, stmt: &Stmt) -> Result<(), AllocError> {
    put_begin(out, stmt)?;
    match stmt {
        Stmt::Empty | Stmt::Simple(_) | Stmt::Jump(..) => {}
        Stmt::Block(stmts) => put_stmts(out, stmts.as_slice())?,
        Stmt::If(branches, last) => {
            put_branches(out, branches.as_slice())?;
            put_optional(out, last, b"")?;
        }
        Stmt::For(head, body) => {
            put_head(out, head.get())?;
            put_stmt(out, body.get())?;
        }
        Stmt::While(_, body) | Stmt::Do(body, _) | Stmt::ForIn(_, _, _, body) => {
            put_stmt(out, body.get())?
        }
    }
    put_end(out, stmt)
}

fn put_pattern(out: &mut Vec<u8>, pattern: &Pattern) -> Result<(), AllocError> {
    match pattern {
        Pattern::When(_, e) => put_expr(out, e.get()),
        Pattern::Range(_, first, last) => {
            put(out, b" (range")?;
            put_expr(out, first.get())?;
            put_expr(out, last.get())?;
            put(out, b")")
        }
    }
}

/// Statements behind what they belong to.
fn put_block(
    out: &mut Vec<u8>,
    begin: &[u8],
    stmts: &Items<Boxed<Stmt>>,
) -> Result<(), AllocError> {
    put(out, begin)?;
    put_stmts(out, stmts.as_slice())?;
    put(out, b")")
}

fn put_rule(out: &mut Vec<u8>, pattern: &Pattern, action: &Action) -> Result<(), AllocError> {
    put(out, b"(when")?;
    put_pattern(out, pattern)?;
    if let Action::Given(stmts) = action {
        put_block(out, b" (block", stmts)?;
    }
    put(out, b")")
}

/// The name of a function, and those of its parameters.
fn put_signature(out: &mut Vec<u8>, name: &Name, parameters: &[Name]) -> Result<(), AllocError> {
    put(out, b"(function")?;
    put_name(out, name)?;
    put(out, b" (parameters")?;
    for parameter in parameters {
        put_name(out, parameter)?;
    }
    put(out, b")")
}

fn put_item(out: &mut Vec<u8>, item: &Item) -> Result<(), AllocError> {
    match item {
        Item::Begin(stmts) => put_block(out, b"(BEGIN", stmts),
        Item::End(stmts) => put_block(out, b"(END", stmts),
        Item::Always(_, stmts) => put_block(out, b"(always", stmts),
        Item::Rule(pattern, action) => put_rule(out, pattern.get(), action),
        Item::Function(_, name, parameters, stmts) => {
            put_signature(out, name, parameters.as_slice())?;
            put_block(out, b"", stmts)
        }
    }
}

/// Adds a program's items, with a blank between two.
pub fn put_program(out: &mut Vec<u8>, items: &[Item]) -> Result<(), AllocError> {
    let mut before: &[u8] = b"";
    for item in items {
        put(out, before)?;
        put_item(out, item)?;
        before = b" ";
    }
    Ok(())
}
