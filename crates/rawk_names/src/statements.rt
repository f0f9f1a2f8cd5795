//! The names of statements, in the order of the text.

ghost use Rattle.std.specs.Prelude.{◌≡◌, map, OnOk};
ghost use Rattle.rawk_names.specs.Mentions.{every};
ghost use Rattle.rawk_names.specs.Noted.{noted_all, shown};
ghost use Rattle.rawk_names.specs.Statements.{act_mentions, action_mentions, branch_mentions, deleted, given_mentions, head_mentions, jump_mentions, maybe_expr, maybe_statement, pattern_mentions, stmt_mentions};
ghost use Rattle.rawk_names.specs.Mentions.{place_seen};

use crate::expressions::{note_expr, note_list, note_place, place_name};
use crate::register::Register;
use crate::usage::Manner;
use rawk_grammar::tree::{Act, Action, Branch, Head, Jump, Pattern, Stmt};
use rawk_items::Boxed;
use rawk_parsing::tree::{Expr, Place};
use std::alloc::{AllocError, Global};

/// An expression that may be missing.
fn note_maybe(
    alloc: Global,
    register: &mut Register,
    e: &Option<Boxed<Expr>>,
) -> Result<(), AllocError>
    ensures { OnOk result (shown register.new ≡ noted_all (maybe_expr e.now) (shown register.old)) }
{
    match e {
        None => Ok(()),
        Some(e) => note_expr(alloc, register, e.get()),
    }
}

/// What is deleted: an array, or an element.
fn note_deleted(alloc: Global, register: &mut Register, place: &Place) -> Result<(), AllocError>
    ensures { OnOk result (shown register.new ≡ noted_all (deleted (place_seen place.now)) (shown register.old)) }
{
    match place_name(place) {
        None => note_place(alloc, register, place),
        Some(name) => register.name(alloc, Manner::Array, name),
    }
}

fn note_act(alloc: Global, register: &mut Register, act: &Act) -> Result<(), AllocError>
    ensures { OnOk result (shown register.new ≡ noted_all (act_mentions act.now) (shown register.old)) }
{
    match act {
        Act::Evaluate(e) => note_expr(alloc, register, e.get()),
        Act::Print(values) => note_list(alloc, register, values.as_slice()),
        Act::Printf(values) => note_list(alloc, register, values.as_slice()),
        Act::Delete(place) => note_deleted(alloc, register, place),
    }
}

fn note_jump(alloc: Global, register: &mut Register, jump: &Jump) -> Result<(), AllocError>
    ensures { OnOk result (shown register.new ≡ noted_all (jump_mentions jump.now) (shown register.old)) }
{
    match jump {
        Jump::Next => Ok(()),
        Jump::Break => Ok(()),
        Jump::Continue => Ok(()),
        Jump::Exit(status) => note_maybe(alloc, register, status),
        Jump::Return(value) => note_maybe(alloc, register, value),
    }
}

#[cycle(bodies)]
#[tactic(auto, using(crate::specs::StatementLaws::bodies))]
fn note_maybe_statement(
    alloc: Global,
    register: &mut Register,
    s: &Option<Boxed<Stmt>>,
) -> Result<(), AllocError>
    ensures { OnOk result (shown register.new ≡ noted_all (maybe_statement s.now) (shown register.old)) }
{
    match s {
        None => Ok(()),
        Some(s) => note_statement(alloc, register, s.get()),
    }
}

#[cycle(bodies)]
#[tactic(auto, using(crate::specs::StatementLaws::bodies))]
fn note_branch(alloc: Global, register: &mut Register, branch: &Branch) -> Result<(), AllocError>
    ensures { OnOk result (shown register.new ≡ noted_all (branch_mentions branch.now) (shown register.old)) }
{
    note_expr(alloc, register, branch.condition.get().test.get())?;
    note_statement(alloc, register, branch.body.get())
}

#[cycle(bodies)]
fn note_branches(
    alloc: Global,
    register: &mut Register,
    branches: &[Boxed<Branch>],
) -> Result<(), AllocError>
    ensures { OnOk result (shown register.new ≡ noted_all (every (map branch_mentions branches.now)) (shown register.old)) }
{
    for branch in branches {
        note_branch(alloc, register, branch.get())?;
    }
    Ok(())
}

#[cycle(bodies)]
#[tactic(auto, using(crate::specs::StatementLaws::bodies))]
fn note_head(alloc: Global, register: &mut Register, head: &Head) -> Result<(), AllocError>
    ensures { OnOk result (shown register.new ≡ noted_all (head_mentions head.now) (shown register.old)) }
{
    note_maybe_statement(alloc, register, &head.first)?;
    note_maybe(alloc, register, &head.test)?;
    note_maybe_statement(alloc, register, &head.last)
}

/// A statement.
#[cycle(bodies)]
#[tactic(auto, using(crate::specs::StatementLaws::bodies))]
fn note_statement(alloc: Global, register: &mut Register, s: &Stmt) -> Result<(), AllocError>
    ensures { OnOk result (shown register.new ≡ noted_all (stmt_mentions s.now) (shown register.old)) }
{
    match s {
        Stmt::Empty => Ok(()),
        Stmt::Simple(simple) => note_act(alloc, register, &simple.get().act),
        Stmt::Jump(_, jump) => note_jump(alloc, register, jump.get()),
        Stmt::Block(statements) => note_statements(alloc, register, statements.as_slice()),
        Stmt::If(branches, otherwise) => {
            note_branches(alloc, register, branches.as_slice())?;
            note_maybe_statement(alloc, register, otherwise)
        }
        Stmt::While(condition, body) => {
            note_expr(alloc, register, condition.get().test.get())?;
            note_statement(alloc, register, body.get())
        }
        Stmt::Do(body, condition) => {
            note_statement(alloc, register, body.get())?;
            note_expr(alloc, register, condition.get().test.get())
        }
        Stmt::For(head, body) => {
            note_head(alloc, register, head.get())?;
            note_statement(alloc, register, body.get())
        }
        Stmt::ForIn(_, variable, array, body) => {
            register.name(alloc, Manner::Scalar, variable)?;
            register.name(alloc, Manner::Array, array)?;
            note_statement(alloc, register, body.get())
        }
    }
}

/// Statements, one after another.
#[cycle(bodies)]
pub fn note_statements(
    alloc: Global,
    register: &mut Register,
    statements: &[Boxed<Stmt>],
) -> Result<(), AllocError>
    ensures { OnOk result (shown register.new ≡ noted_all (action_mentions statements.now) (shown register.old)) }
{
    for s in statements {
        note_statement(alloc, register, s.get())?;
    }
    Ok(())
}

/// A pattern.
#[tactic(auto, using(crate::specs::StatementLaws::bodies))]
pub fn note_pattern(
    alloc: Global,
    register: &mut Register,
    pattern: &Pattern,
) -> Result<(), AllocError>
    ensures { OnOk result (shown register.new ≡ noted_all (pattern_mentions pattern.now) (shown register.old)) }
{
    match pattern {
        Pattern::When(_, test) => note_expr(alloc, register, test.get()),
        Pattern::Range(_, first, last) => {
            note_expr(alloc, register, first.get())?;
            note_expr(alloc, register, last.get())
        }
    }
}

/// The action of a rule.
pub fn note_action(
    alloc: Global,
    register: &mut Register,
    action: &Action,
) -> Result<(), AllocError>
    ensures { OnOk result (shown register.new ≡ noted_all (given_mentions action.now) (shown register.old)) }
{
    match action {
        Action::Missing(_) => Ok(()),
        Action::Given(statements) => note_statements(alloc, register, statements.as_slice()),
    }
}
