//! Statements: each gets the sites of its points.

ghost use Rattle.std.specs.Prelude.{◌≡◌, [], length, IfOk, IsTrue};
ghost use Rattle.std.specs.Global.{Vec};
ghost use Rattle.rawk_grammar.specs.declared.tree.Stmt.TheVariants as from;
ghost use Rattle.rawk_tree.specs.declared.tree.Stmt as settled;
ghost use Rattle.rawk_tree.specs.declared.tree.Stmt.TheVariants as tree;
ghost use Rattle.rawk_resolution.specs.InOrder as order;
ghost use Rattle.rawk_resolution.specs.Meant.{sense_of};
ghost use Rattle.rawk_resolution.specs.Settled.{Settles, AnExpr};
ghost use Rattle.rawk_syntax.specs.Laid.{sited, Simply, Exits, Returns, Jumps, Tests, Lays, AStmt, SomeStmts, SomeBranches, AnOther};

use crate::deletion::settle_delete;
use crate::lines::Sites;
use rawk_grammar::tree as parsed;
use rawk_grammar::tree::{Act, Condition, Jump, Simple};
use rawk_items::Boxed;
use rawk_parsing::tree::Name;
use rawk_resolution::growth::{boxed, push};
use rawk_resolution::{
    Scope, settle_expr, settle_formatted, settle_printed, the_array, the_scalar,
};
use rawk_tree::{Branch, Expr, Stmt};
use std::alloc::{AllocError, Global};

/// A simple statement, whose site is added.
fn settle_simple(
    alloc: Global,
    sites: &mut Sites<'_>,
    scope: &Scope<'_>,
    simple: &Simple,
) -> Result<Stmt, AllocError>
    requires { IsTrue (order.act_in_order (sense_of scope.now) simple.now.act) }
    ensures text { sites.new.text ≡ sites.old.text }
    ensures settled { IfOk result (λ t. Simply sites.old.text.now (sense_of scope.now) simple.now t sites.old.lines.items sites.new.lines.items) }
{
    let site = sites.lines.len();
    sites.add(simple.left)?;
    match &simple.act {
        Act::Evaluate(e) => {
            let value = settle_expr(alloc, scope, e.get())?;
            Ok(Stmt::Do(site, value))
        }
        Act::Print(list) => {
            let values = settle_printed(alloc, scope, list.as_slice())?;
            Ok(Stmt::Print(site, values))
        }
        Act::Printf(list) => {
            let (format, values) = settle_formatted(alloc, scope, list.as_slice())?;
            Ok(Stmt::Printf(site, format, values))
        }
        Act::Delete(place) => settle_delete(alloc, scope, site, place),
    }
}

/// An `exit` with its site and, where one is given, its status.
fn settle_exit(
    alloc: Global,
    scope: &Scope<'_>,
    site: usize,
    status: &Option<Boxed<rawk_parsing::tree::Expr>>,
) -> Result<Stmt, AllocError>
    requires { IsTrue (order.maybe_in_order (sense_of scope.now) status.now) }
    ensures { IfOk result (λ t. Exits (sense_of scope.now) site status.now t) }
{
    match status {
        None => Ok(Stmt::Exit(site)),
        Some(e) => {
            let status = settle_expr(alloc, scope, e.get())?;
            Ok(Stmt::ExitWith(site, status))
        }
    }
}

/// A `return` with its site and, where one is given, its value.
fn settle_return(
    alloc: Global,
    scope: &Scope<'_>,
    site: usize,
    value: &Option<Boxed<rawk_parsing::tree::Expr>>,
) -> Result<Stmt, AllocError>
    requires { IsTrue (order.maybe_in_order (sense_of scope.now) value.now) }
    ensures { IfOk result (λ t. Returns (sense_of scope.now) site value.now t) }
{
    match value {
        None => Ok(Stmt::Return(site)),
        Some(e) => {
            let value = settle_expr(alloc, scope, e.get())?;
            Ok(Stmt::ReturnWith(site, value))
        }
    }
}

/// A jump, whose site is added.
fn settle_jump(
    alloc: Global,
    sites: &mut Sites<'_>,
    scope: &Scope<'_>,
    left: usize,
    jump: &Jump,
) -> Result<Stmt, AllocError>
    requires { IsTrue (order.jump_in_order (sense_of scope.now) jump.now) }
    ensures text { sites.new.text ≡ sites.old.text }
    ensures settled { IfOk result (λ t. Jumps sites.old.text.now (sense_of scope.now) left jump.now t sites.old.lines.items sites.new.lines.items) }
{
    let site = sites.lines.len();
    sites.add(left)?;
    match jump {
        Jump::Next => Ok(Stmt::Next(site)),
        Jump::Break => Ok(Stmt::Break(site)),
        Jump::Continue => Ok(Stmt::Continue(site)),
        Jump::Exit(status) => settle_exit(alloc, scope, site, status),
        Jump::Return(value) => settle_return(alloc, scope, site, value),
    }
}

/// A condition, whose site is added; the site was the next one.
fn settle_condition(
    alloc: Global,
    sites: &mut Sites<'_>,
    scope: &Scope<'_>,
    condition: &Condition,
) -> Result<Expr, AllocError>
    requires { IsTrue (order.in_order (sense_of scope.now) condition.now.test) }
    ensures text { sites.new.text ≡ sites.old.text }
    ensures settled { IfOk result (λ e. Settles (sense_of scope.now) (AnExpr condition.now.test e)) }
    ensures sited { IfOk result (λ e. sites.new.lines.items ≡ sited sites.old.text.now condition.now.left sites.old.lines.items) }
{
    sites.add(condition.left)?;
    settle_expr(alloc, scope, condition.test.get())
}

/// A statement, whose sites are added.
#[cycle(statements)]
fn settle_statement(
    alloc: Global,
    sites: &mut Sites<'_>,
    scope: &Scope<'_>,
    s: &parsed::Stmt,
) -> Result<Stmt, AllocError>
    requires { IsTrue (order.stmt_in_order (sense_of scope.now) s.now) }
    ensures text { sites.new.text ≡ sites.old.text }
    ensures settled { IfOk result (λ t. Lays sites.old.text.now (sense_of scope.now) (AStmt s.now t) sites.old.lines.items sites.new.lines.items) }
{
    match s {
        parsed::Stmt::Empty => Ok(Stmt::Block(Vec::new(alloc))),
        parsed::Stmt::Simple(simple) => settle_simple(alloc, sites, scope, simple.get()),
        parsed::Stmt::Block(all) => {
            let steps = settle_statements(alloc, sites, scope, all.as_slice())?;
            Ok(Stmt::Block(steps))
        }
        parsed::Stmt::Jump(left, jump) => settle_jump(alloc, sites, scope, *left, jump.get()),
        parsed::Stmt::If(branches, other) => {
            let branches = settle_branches(alloc, sites, scope, branches.as_slice())?;
            let otherwise = settle_other(alloc, sites, scope, other)?;
            Ok(Stmt::If(branches, otherwise))
        }
        parsed::Stmt::While(condition, body) => settle_while(
            alloc,
            sites,
            scope,
            condition.get(),
            body.get(),
        ),
        parsed::Stmt::Do(body, condition) => settle_do(
            alloc,
            sites,
            scope,
            body.get(),
            condition.get(),
        ),
        parsed::Stmt::For(head, body) => settle_for(alloc, sites, scope, head.get(), body.get()),
        parsed::Stmt::ForIn(left, taker, array, body) => {
            settle_for_in(alloc, sites, scope, *left, taker, array, body.get())
        }
    }
}

/// A `while`, whose sites are added.
#[cycle(statements)]
fn settle_while(
    alloc: Global,
    sites: &mut Sites<'_>,
    scope: &Scope<'_>,
    condition: &Condition,
    body: &parsed::Stmt,
) -> Result<Stmt, AllocError>
    requires test { IsTrue (order.in_order (sense_of scope.now) condition.now.test) }
    requires body { IsTrue (order.stmt_in_order (sense_of scope.now) body.now) }
    ensures text { sites.new.text ≡ sites.old.text }
    ensures settled { IfOk result (λ t. Lays sites.old.text.now (sense_of scope.now) (AStmt (from.While condition.now body.now) t) sites.old.lines.items sites.new.lines.items) }
{
    let site = sites.lines.len();
    let test = settle_condition(alloc, sites, scope, condition)?;
    let turn = settle_body(alloc, sites, scope, body)?;
    Ok(Stmt::While(site, test, turn))
}

/// A `do`, whose sites are added.
#[cycle(statements)]
fn settle_do(
    alloc: Global,
    sites: &mut Sites<'_>,
    scope: &Scope<'_>,
    body: &parsed::Stmt,
    condition: &Condition,
) -> Result<Stmt, AllocError>
    requires body { IsTrue (order.stmt_in_order (sense_of scope.now) body.now) }
    requires test { IsTrue (order.in_order (sense_of scope.now) condition.now.test) }
    ensures text { sites.new.text ≡ sites.old.text }
    ensures settled { IfOk result (λ t. Lays sites.old.text.now (sense_of scope.now) (AStmt (from.Do body.now condition.now) t) sites.old.lines.items sites.new.lines.items) }
{
    let turn = settle_body(alloc, sites, scope, body)?;
    let site = sites.lines.len();
    let test = settle_condition(alloc, sites, scope, condition)?;
    Ok(Stmt::DoWhile(turn, site, test))
}

/// A `for` that counts, whose sites are added.
#[cycle(statements)]
fn settle_for(
    alloc: Global,
    sites: &mut Sites<'_>,
    scope: &Scope<'_>,
    head: &parsed::Head,
    body: &parsed::Stmt,
) -> Result<Stmt, AllocError>
    requires head { IsTrue (order.head_parts (sense_of scope.now) head.now) }
    requires body { IsTrue (order.stmt_in_order (sense_of scope.now) body.now) }
    ensures text { sites.new.text ≡ sites.old.text }
    ensures settled { IfOk result (λ t. Lays sites.old.text.now (sense_of scope.now) (AStmt (from.For head.now body.now) t) sites.old.lines.items sites.new.lines.items) }
{
    let first = settle_other(alloc, sites, scope, &head.first)?;
    let site = sites.lines.len();
    let test = settle_test(alloc, sites, scope, head.left, &head.test)?;
    let step = settle_other(alloc, sites, scope, &head.last)?;
    let turn = settle_body(alloc, sites, scope, body)?;
    Ok(Stmt::For(first, site, test, step, turn))
}

/// A loop over the keys of an array, whose sites are added.
#[cycle(statements)]
fn settle_for_in(
    alloc: Global,
    sites: &mut Sites<'_>,
    scope: &Scope<'_>,
    left: usize,
    taker: &Name,
    array: &Name,
    body: &parsed::Stmt,
) -> Result<Stmt, AllocError>
    requires keys { IsTrue (order.keys_in_order (sense_of scope.now) taker.now array.now) }
    requires body { IsTrue (order.stmt_in_order (sense_of scope.now) body.now) }
    ensures text { sites.new.text ≡ sites.old.text }
    ensures settled { IfOk result (λ t. Lays sites.old.text.now (sense_of scope.now) (AStmt (from.ForIn left taker.now array.now body.now) t) sites.old.lines.items sites.new.lines.items) }
{
    let site = sites.lines.len();
    sites.add(left)?;
    let turn = settle_body(alloc, sites, scope, body)?;
    Ok(Stmt::ForIn(
        site,
        the_scalar(scope, taker),
        the_array(scope, array),
        turn,
    ))
}

/// A statement that is the body of another.
#[cycle(statements)]
fn settle_body(
    alloc: Global,
    sites: &mut Sites<'_>,
    scope: &Scope<'_>,
    s: &parsed::Stmt,
) -> Result<Box<Stmt>, AllocError>
    requires { IsTrue (order.stmt_in_order (sense_of scope.now) s.now) }
    ensures text { sites.new.text ≡ sites.old.text }
    ensures settled { IfOk result (λ b. Lays sites.old.text.now (sense_of scope.now) (AStmt s.now b.value) sites.old.lines.items sites.new.lines.items) }
{
    let settled = settle_statement(alloc, sites, scope, s)?;
    boxed(alloc, settled)
}

/// The condition of a `for`, whose site is added; a missing one is the number 1.
fn settle_test(
    alloc: Global,
    sites: &mut Sites<'_>,
    scope: &Scope<'_>,
    left: usize,
    test: &Option<Boxed<rawk_parsing::tree::Expr>>,
) -> Result<Expr, AllocError>
    requires { IsTrue (order.maybe_in_order (sense_of scope.now) test.now) }
    ensures text { sites.new.text ≡ sites.old.text }
    ensures settled { IfOk result (λ e. Tests (sense_of scope.now) test.now e) }
    ensures sited { IfOk result (λ e. sites.new.lines.items ≡ sited sites.old.text.now left sites.old.lines.items) }
{
    sites.add(left)?;
    match test {
        None => Ok(Expr::Number(1)),
        Some(e) => settle_expr(alloc, scope, e.get()),
    }
}

/// A statement that does nothing.
fn nothing(alloc: Global) -> Result<Box<Stmt>, AllocError>
    ensures { IfOk result (λ b. (ts : Vec settled.Stmt) × (ts.items ≡ []) × (b.value ≡ tree.Block ts)) }
{
    boxed(alloc, Stmt::Block(Vec::new(alloc)))
}

/// A statement that may be missing: then it does nothing.
#[cycle(statements)]
fn settle_other(
    alloc: Global,
    sites: &mut Sites<'_>,
    scope: &Scope<'_>,
    other: &Option<Boxed<parsed::Stmt>>,
) -> Result<Box<Stmt>, AllocError>
    requires { IsTrue (order.other_in_order (sense_of scope.now) other.now) }
    ensures text { sites.new.text ≡ sites.old.text }
    ensures settled { IfOk result (λ t. Lays sites.old.text.now (sense_of scope.now) (AnOther other.now t.value) sites.old.lines.items sites.new.lines.items) }
{
    match other {
        None => nothing(alloc),
        Some(s) => settle_body(alloc, sites, scope, s.get()),
    }
}

/// A branch of an `if`, whose sites are added.
#[cycle(statements)]
fn settle_branch(
    alloc: Global,
    sites: &mut Sites<'_>,
    scope: &Scope<'_>,
    branch: &parsed::Branch,
) -> Result<Branch, AllocError>
    requires { IsTrue (order.branch_in_order (sense_of scope.now) branch.now) }
    ensures text { sites.new.text ≡ sites.old.text }
    ensures site { IfOk result (λ b. b.site ≡ length sites.old.lines.items) }
    ensures test { IfOk result (λ b. Settles (sense_of scope.now) (AnExpr branch.now.condition.test b.test)) }
    ensures body { IfOk result (λ b. Lays sites.old.text.now (sense_of scope.now) (AStmt branch.now.body b.body) (sited sites.old.text.now branch.now.condition.left sites.old.lines.items) sites.new.lines.items) }
{
    let site = sites.lines.len();
    let test = settle_condition(alloc, sites, scope, branch.condition.get())?;
    let body = settle_statement(alloc, sites, scope, branch.body.get())?;
    Ok(Branch { site, test, body })
}

/// The branches of an `if`, whose sites are added.
#[cycle(statements)]
fn settle_branches(
    alloc: Global,
    sites: &mut Sites<'_>,
    scope: &Scope<'_>,
    all: &[Boxed<parsed::Branch>],
) -> Result<Vec<Branch>, AllocError>
    requires { IsTrue (order.each (order.branch_in_order (sense_of scope.now)) all.now) }
    ensures text { sites.new.text ≡ sites.old.text }
    ensures settled { IfOk result (λ v. Lays sites.old.text.now (sense_of scope.now) (SomeBranches all.now v.items) sites.old.lines.items sites.new.lines.items) }
{
    let mut settled = Vec::new(alloc);
    for b in all {
        let branch = settle_branch(alloc, sites, scope, b.get())?;
        push(&mut settled, branch)?;
    }
    Ok(settled)
}

/// Statements one after another, whose sites are added.
#[cycle(statements)]
pub fn settle_statements(
    alloc: Global,
    sites: &mut Sites<'_>,
    scope: &Scope<'_>,
    all: &[Boxed<parsed::Stmt>],
) -> Result<Vec<Stmt>, AllocError>
    requires { IsTrue (order.each (order.stmt_in_order (sense_of scope.now)) all.now) }
    ensures text { sites.new.text ≡ sites.old.text }
    ensures settled { IfOk result (λ v. Lays sites.old.text.now (sense_of scope.now) (SomeStmts all.now v.items) sites.old.lines.items sites.new.lines.items) }
{
    let mut settled = Vec::new(alloc);
    for s in all {
        let step = settle_statement(alloc, sites, scope, s.get())?;
        push(&mut settled, step)?;
    }
    Ok(settled)
}
