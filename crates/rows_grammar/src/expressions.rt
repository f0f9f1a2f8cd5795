//! Expressions as answers show them: each operator before its operands, in parentheses, behind a blank.

use rawk_items::Boxed;
use rawk_keywords::Builtin;
use rawk_parsing::tree::{Assignment, Change, Expr, Link, Name, Operator, Place};
use rawk_value::{Arithmetic, Comparison, push_number};
use rawk_words::{Logic, Sign};
use std::alloc::AllocError;

/// Adds bytes.
pub fn put(out: &mut Vec<u8>, bytes: &[u8]) -> Result<(), AllocError> {
    out.extend_from_slice(bytes)?;
    Ok(())
}

/// Adds a blank, and bytes between two others.
fn put_between(out: &mut Vec<u8>, mark: &[u8], bytes: &[u8]) -> Result<(), AllocError> {
    put(out, b" ")?;
    put(out, mark)?;
    put(out, bytes)?;
    put(out, mark)
}

/// Adds the begin of a node, behind a blank.
fn put_open(out: &mut Vec<u8>, operator: &[u8]) -> Result<(), AllocError> {
    put(out, b" (")?;
    put(out, operator)
}

/// Adds the begins of nodes, each of which is the first operand of the one before.
fn put_opens(out: &mut Vec<u8>, operator: &[u8], count: usize) -> Result<(), AllocError> {
    for _ in 0..count {
        put_open(out, operator)?;
    }
    Ok(())
}

/// Adds a name behind a blank.
pub fn put_name(out: &mut Vec<u8>, name: &Name) -> Result<(), AllocError> {
    put(out, b" ")?;
    put(out, name.word.as_slice())
}

fn arithmetic(operator: Arithmetic) -> &'static [u8] {
    match operator {
        Arithmetic::Add => b"+",
        Arithmetic::Sub => b"-",
        Arithmetic::Mul => b"*",
        Arithmetic::Div => b"/",
        Arithmetic::Rem => b"%",
        Arithmetic::Pow => b"^",
    }
}

fn comparison(operator: Comparison) -> &'static [u8] {
    match operator {
        Comparison::Less => b"<",
        Comparison::LessEqual => b"<=",
        Comparison::Equal => b"==",
        Comparison::NotEqual => b"!=",
        Comparison::Greater => b">",
        Comparison::GreaterEqual => b">=",
    }
}

fn operator(operator: Operator) -> &'static [u8] {
    match operator {
        Operator::Arithmetic(operator) => arithmetic(operator),
        Operator::Comparison(operator) => comparison(operator),
        Operator::Concat => b"join",
        Operator::Match => b"~",
        Operator::NotMatch => b"!~",
    }
}

fn logic(logic: Logic) -> &'static [u8] {
    match logic {
        Logic::And => b"&&",
        Logic::Or => b"||",
    }
}

fn sign(sign: Sign) -> &'static [u8] {
    match sign {
        Sign::Plus => b"+",
        Sign::Minus => b"-",
        Sign::Not => b"!",
    }
}

fn change(change: Change) -> &'static [u8] {
    match change {
        Change::Increment => b"++",
        Change::Decrement => b"--",
    }
}

fn function(function: Builtin) -> &'static [u8] {
    match function {
        Builtin::Length => b"length",
        Builtin::Index => b"index",
        Builtin::Substr => b"substr",
        Builtin::Split => b"split",
        Builtin::Sub => b"sub",
        Builtin::Gsub => b"gsub",
        Builtin::Match => b"match",
        Builtin::Sprintf => b"sprintf",
        Builtin::Tolower => b"tolower",
        Builtin::Toupper => b"toupper",
        Builtin::Int => b"int",
    }
}

fn put_assignment(out: &mut Vec<u8>, assignment: Assignment) -> Result<(), AllocError> {
    put(out, b" (")?;
    match assignment {
        Assignment::Plain => {}
        Assignment::Update(operator) => put(out, arithmetic(operator))?,
    }
    put(out, b"=")
}

/// The begins of a chain's operators, of which the last one is outermost.
fn put_operators(out: &mut Vec<u8>, links: &[Link]) -> Result<(), AllocError> {
    for link in links.iter().rev() {
        put_open(out, operator(link.operator))?;
    }
    Ok(())
}

/// The arrays behind `in`.
fn put_arrays(out: &mut Vec<u8>, arrays: &[Name]) -> Result<(), AllocError> {
    for array in arrays {
        put_name(out, array)?;
        put(out, b")")?;
    }
    Ok(())
}

fn put_number(out: &mut Vec<u8>, value: i64) -> Result<(), AllocError> {
    put(out, b" ")?;
    push_number(out, value)
}

/// What stands before an expression's first operand.
fn put_begin(out: &mut Vec<u8>, e: &Expr) -> Result<(), AllocError> {
    match e {
        Expr::Number(value) => put_number(out, *value),
        Expr::Text(bytes) => put_between(out, b"\"", bytes.as_slice()),
        Expr::Ere(_, bytes) => put_between(out, b"/", bytes.as_slice()),
        Expr::Of(_) => Ok(()),
        Expr::Group(_) => put(out, b" (group"),
        Expr::Before(kind, _) => put_open(out, change(*kind)),
        Expr::After(..) => put(out, b" (after"),
        Expr::Power(..) => put(out, b" (^"),
        Expr::Signed(kind, _) => put_open(out, sign(*kind)),
        Expr::Chain(_, links) => put_operators(out, links.as_slice()),
        Expr::In(_, arrays) => put_opens(out, b"in", arrays.len()),
        Expr::ListIn(..) => put(out, b" (in (list"),
        Expr::Logic(kind, tests) => put_opens(out, logic(*kind), tests.len().saturating_sub(1)),
        Expr::Choice(..) => put(out, b" (?:"),
        Expr::Assign(assignment, ..) => put_assignment(out, *assignment),
        Expr::Builtin(kind, _) => put_open(out, function(*kind)),
        Expr::Call(name, _) => {
            put(out, b" (call")?;
            put_name(out, name)
        }
        Expr::Getline | Expr::GetlineTo(_) => put(out, b" (getline"),
    }
}

/// What stands behind an expression's last operand.
fn put_end(out: &mut Vec<u8>, e: &Expr) -> Result<(), AllocError> {
    match e {
        Expr::Number(_) | Expr::Text(_) | Expr::Ere(..) | Expr::Of(_) => Ok(()),
        Expr::Chain(..) | Expr::Logic(..) => Ok(()),
        Expr::In(_, arrays) => put_arrays(out, arrays.as_slice()),
        Expr::ListIn(_, array) => {
            put(out, b")")?;
            put_name(out, array)?;
            put(out, b")")
        }
        Expr::After(kind, _) => {
            put(out, b" ")?;
            put(out, change(*kind))?;
            put(out, b")")
        }
        _ => put(out, b")"),
    }
}

/// The right operands of a chain.
#[cycle(expressions)]
fn put_links(out: &mut Vec<u8>, links: &[Link]) -> Result<(), AllocError> {
    for link in links {
        put_expr(out, link.operand.get())?;
        put(out, b")")?;
    }
    Ok(())
}

/// The operands of `&&` or `||`, of which the first ones belong together.
#[cycle(expressions)]
fn put_tests(out: &mut Vec<u8>, tests: &[Boxed<Expr>]) -> Result<(), AllocError> {
    let mut end: &[u8] = b"";
    for test in tests {
        put_expr(out, test.get())?;
        put(out, end)?;
        end = b")";
    }
    Ok(())
}

#[cycle(expressions)]
pub fn put_exprs(out: &mut Vec<u8>, exprs: &[Boxed<Expr>]) -> Result<(), AllocError> {
    for e in exprs {
        put_expr(out, e.get())?;
    }
    Ok(())
}

#[cycle(expressions)]
pub fn put_place(out: &mut Vec<u8>, place: &Place) -> Result<(), AllocError> {
    match place {
        Place::Name(name) => return put_name(out, name),
        Place::Element(name, subscripts) => {
            put(out, b" (at")?;
            put_name(out, name)?;
            put_exprs(out, subscripts.as_slice())?;
        }
        Place::Field(e) => {
            put(out, b" ($")?;
            put_expr(out, e.get())?;
        }
    }
    put(out, b")")
}

#[cycle(expressions)]
pub fn put_expr(out: &mut Vec<u8>, e: &Expr) -> Result<(), AllocError> {
    put_begin(out, e)?;
    match e {
        Expr::Number(_) | Expr::Text(_) | Expr::Ere(..) | Expr::Getline => {}
        Expr::Of(place) | Expr::Before(_, place) | Expr::After(_, place) | Expr::GetlineTo(place) =>
            put_place(out, place)?,
        Expr::Group(inner) | Expr::Signed(_, inner) | Expr::In(inner, _) => {
            put_expr(out, inner.get())?
        }
        Expr::Power(base, exponent) => {
            put_expr(out, base.get())?;
            put_expr(out, exponent.get())?;
        }
        Expr::Chain(first, links) => {
            put_expr(out, first.get())?;
            put_links(out, links.as_slice())?;
        }
        Expr::Logic(_, tests) => put_tests(out, tests.as_slice())?,
        Expr::Choice(test, second, third) => {
            put_expr(out, test.get())?;
            put_expr(out, second.get())?;
            put_expr(out, third.get())?;
        }
        Expr::Assign(_, place, value) => {
            put_place(out, place)?;
            put_expr(out, value.get())?;
        }
        Expr::ListIn(list, _) | Expr::Builtin(_, list) | Expr::Call(_, list) => {
            put_exprs(out, list.as_slice())?
        }
    }
    put_end(out, e)
}
