//! From a tree to the instructions of its automaton.

ghost use Rattle.std.specs.Prelude.{◌≡◌, ◌+◌, ◌-◌, ◌*◌, [], ◌++◌, ◌↔◌, IsTrue, IfOk, OnOk, length, map, reverse};
ghost use Rattle.rawk_ere_tree.specs.Node.{tree_of, joined, alternated};
ghost use Rattle.rawk_ere_tree.specs.Code.{code_of, count_code, star_code, plus_code, maybe_code, times_code, maybes_code, either_code, wide_code};
ghost use Rattle.rawk_ere_tree.specs.declared.code.Instruction.TheVariants.{Split};

use crate::code::{Code, Instruction};
use crate::node::{Count, Node};
use std::alloc::{AllocError, Global};

/// Appends the instructions of the tree.
#[cycle(emit)]
pub fn emit(alloc: Global, code: &mut Code, node: &Node) -> Result<(), AllocError>
    ensures { OnOk result (code.new ≡ code.old ++ code_of (tree_of node.now)) }
{
    match node {
        Node::Empty => Ok(()),
        Node::OneOf(set) => code.push(&Instruction::Bytes(*set)),
        Node::Start => code.push(&Instruction::Start),
        Node::End => code.push(&Instruction::End),
        Node::Join(parts) => emit_joined(alloc, code, parts),
        Node::Either(parts) => emit_alternated(alloc, code, parts),
        Node::Group(part) => emit(alloc, code, part),
        Node::Repeat(part, count) => {
            if is_never(*count) {
                return Ok(());
            }
            let mut once = Code::new(alloc);
            emit(alloc, &mut once, part)?;
            repeat(code, &once, *count)
        }
    }
}

/// Appends the instructions of the parts, one after the other.
#[cycle(emit)]
fn emit_joined(alloc: Global, code: &mut Code, parts: &[Node]) -> Result<(), AllocError>
    ensures { OnOk result (code.new ≡ code.old ++ code_of (joined (map tree_of parts.now))) }
{
    if parts.len() == 0 {
        return Ok(());
    }
    emit(alloc, code, &parts[0])?;
    for index in 1..parts.len() {
        emit(alloc, code, &parts[index])?;
    }
    Ok(())
}

/// Appends the instructions of one of the parts. The splits come first, that of the last part before the others.
#[cycle(emit)]
fn emit_alternated(alloc: Global, code: &mut Code, parts: &[Node]) -> Result<(), AllocError>
    ensures { OnOk result (code.new ≡ code.old ++ code_of (alternated (map tree_of parts.now))) }
{
    if parts.len() == 0 {
        return Ok(());
    }
    let mut splits = Vec::new(alloc);
    let mut body = Code::new(alloc);
    emit(alloc, &mut body, &parts[0])?;
    for index in 1..parts.len() {
        let mut part = Code::new(alloc);
        emit(alloc, &mut part, &parts[index])?;
        alternate(&mut splits, &mut body, &part)?;
    }
    splits.reverse();
    split(code, &splits)?;
    code.extend(&body)
}

/// Adds a part to those that one is taken of. A split is how far it leads.
fn alternate(splits: &mut Vec<usize>, body: &mut Code, part: &Code) -> Result<(), AllocError>
    ensures { OnOk result (map Split (reverse splits.new.items) ++ body.new ≡ either_code (map Split (reverse splits.old.items) ++ body.old) part.now) }
{
    body.push(&Instruction::Go(part.len() + 1))?;
    splits.push(splits.len() + body.len() + 1)?;
    body.extend(part)
}

/// Appends the splits.
fn split(code: &mut Code, splits: &[usize]) -> Result<(), AllocError>
    ensures { OnOk result (code.new ≡ code.old ++ map Split splits.now) }
{
    for index in 0..splits.len() {
        code.push(&Instruction::Split(splits[index]))?;
    }
    Ok(())
}

/// Whether the part may stand no time at all: then it may be of any size.
fn is_never(count: Count) -> bool
    ensures { IsTrue result ↔ (count ≡ Count.Between 0 0) }
{
    match count {
        Count::Star => false,
        Count::Plus => false,
        Count::Maybe => false,
        Count::AtLeast(_) => false,
        Count::Between(least, more) => least == 0 && more == 0,
    }
}

/// Appends the instructions of a repeated part.
fn repeat(code: &mut Code, part: &Code, count: Count) -> Result<(), AllocError>
    ensures { OnOk result (code.new ≡ code.old ++ count_code count part.now) }
{
    match count {
        Count::Star => star(code, part),
        Count::Plus => plus(code, part),
        Count::Maybe => maybe(code, part),
        Count::AtLeast(m) => {
            if m == 0 {
                star(code, part)
            } else {
                times(code, part, m - 1)?;
                plus(code, part)
            }
        }
        Count::Between(m, more) => {
            times(code, part, m)?;
            maybes(code, part, more)
        }
    }
}

fn star(code: &mut Code, part: &Code) -> Result<(), AllocError>
    ensures { OnOk result (code.new ≡ code.old ++ star_code part.now) }
{
    let length = part.len();
    code.push(&Instruction::Split(length + 2))?;
    code.extend(part)?;
    code.push(&Instruction::Back(length + 1))
}

fn plus(code: &mut Code, part: &Code) -> Result<(), AllocError>
    ensures { OnOk result (code.new ≡ code.old ++ plus_code part.now) }
{
    code.extend(part)?;
    code.push(&Instruction::Fork(part.len()))
}

fn maybe(code: &mut Code, part: &Code) -> Result<(), AllocError>
    ensures { OnOk result (code.new ≡ code.old ++ maybe_code part.now) }
{
    code.push(&Instruction::Split(part.len() + 1))?;
    code.extend(part)
}

fn times(code: &mut Code, part: &Code, count: u8) -> Result<(), AllocError>
    ensures { OnOk result (code.new ≡ code.old ++ times_code count part.now) }
{
    for _done in 0..count {
        code.extend(part)?;
    }
    Ok(())
}

fn maybes(code: &mut Code, part: &Code, count: u8) -> Result<(), AllocError>
    ensures { OnOk result (code.new ≡ code.old ++ maybes_code count part.now) }
{
    for _done in 0..count {
        maybe(code, part)?;
    }
    Ok(())
}

/// The code, after any bytes.
pub fn widen(alloc: Global, code: &Code) -> Result<Code, AllocError>
    ensures { IfOk result (λ wide. wide ≡ wide_code code.now) }
{
    let mut any = Code::new(alloc);
    any.push(&Instruction::Bytes([u64::MAX; 4]))?;
    let mut wide = Code::new(alloc);
    star(&mut wide, &any)?;
    wide.extend(code)?;
    Ok(wide)
}
