//! Which variables are arrays.

ghost use Rattle.std.specs.Prelude.{◌≡◌, ◌<◌, ◌≤◌, ℕ, ◌↔◌, false, true, List, [], ◌∷◌, ◌++◌, IfOk, OnOk, length, replicate, slice_index};
ghost use Rattle.rawk_names.specs.Arrays.{IsArray};
ghost use Rattle.rawk_names.specs.Marking.{AreBelow, AreLinks, AreUsedMarked, IsBelow, IsMarking, Followed, Keeps, flags_after, froms_of, is_marked, pending_after, tos_of, used_flags, used_pending};

use crate::usage::{Manner, Usage, What};
use rawk_keys::chains::Chains;
use std::alloc::{AllocError, Global};

/// Pairs of variables of which one is an array where the other is, each both ways.
#[derive(Drop)]
struct Links {
    from: Chains,
    to: Vec<usize>,
}

fn larger(a: usize, b: usize) -> usize
    ensures first { a ≤ result }
    ensures second { b ≤ result }
{
    if a < b { b } else { a }
}

/// More than each variable of a use. A number beyond what memory can hold is reported as want of memory.
fn end_of(what: What) -> Result<usize, AllocError>
    ensures { IfOk result (IsBelow what) }
{
    let last = match what {
        What::Named(Manner::Argument(parameter), variable) => parameter.max(variable),
        What::Named(_, variable) => variable,
        _ => 0,
    };
    last.checked_add(1).ok_or(AllocError)
}

/// More than each variable of some uses.
fn end_of_all(uses: &[Usage]) -> Result<usize, AllocError>
    ensures { IfOk result (AreBelow uses.now) }
{
    let mut end = 0;
    for usage in uses {
        end = larger(end, end_of(usage.what)?);
    }
    Ok(end)
}

impl Links {
    fn push(&mut self, alloc: Global, from: usize, to: usize) -> Result<(), AllocError>
        requires { length self.old.from ≡ length self.old.to.items }
        ensures from { OnOk result (self.new.from ≡ self.old.from ++ from ∷ []) }
        ensures to { OnOk result (self.new.to.items ≡ self.old.to.items ++ to ∷ []) }
    {
        self.to.push(to)?;
        self.from.push(alloc, from)
    }
}

/// The links of a use.
fn link_use(alloc: Global, links: &mut Links, what: What) -> Result<(), AllocError>
    requires { length links.old.from ≡ length links.old.to.items }
    ensures from { OnOk result (links.new.from ≡ links.old.from ++ froms_of what) }
    ensures to { OnOk result (links.new.to.items ≡ links.old.to.items ++ tos_of what) }
{
    match what {
        What::Named(Manner::Argument(parameter), variable) => {
            links.push(alloc, variable, parameter)?;
            links.push(alloc, parameter, variable)
        }
        What::Named(Manner::Scalar, _) => Ok(()),
        What::Named(Manner::Array, _) => Ok(()),
        What::Named(Manner::Either, _) => Ok(()),
        What::Value(_) => Ok(()),
        What::Pattern(_) => Ok(()),
        What::Misuse => Ok(()),
    }
}

/// The links of some uses.
fn links_of(alloc: Global, uses: &[Usage]) -> Result<Links, AllocError>
    ensures { IfOk result (λ links. AreLinks uses.now links.from links.to.items) }
{
    let mut links = Links {
        from: Chains::new(alloc),
        to: Vec::new(alloc),
    };
    links.from.spread(alloc, uses.len())?;
    for usage in uses {
        link_use(alloc, &mut links, usage.what)?;
    }
    Ok(links)
}

#[tactic(auto, unfolding(crate::specs::Marking::flags_after, crate::specs::Marking::pending_after))]
/// Marks a variable as an array, whose links are then still to be followed.
fn mark(flags: &mut Vec<bool>, pending: &mut Vec<usize>, variable: usize) -> Result<(), AllocError>
    requires { variable < length flags.old.items }
    ensures flags { OnOk result (flags.new.items ≡ flags_after variable flags.old.items) }
    ensures pending { OnOk result (pending.new.items ≡ pending_after variable flags.old.items pending.old.items) }
{
    if flags[variable] {
        return Ok(());
    }
    pending.push(variable)?;
    flags[variable] = true;
    Ok(())
}

/// The variables that are marked as arrays, and those of them whose links are still to be followed.
#[derive(Drop)]
struct Marks {
    flags: Vec<bool>,
    pending: Vec<usize>,
}

/// No marks, for `count` variables.
fn no_marks(alloc: Global, count: usize) -> Result<Marks, AllocError>
    ensures flags { IfOk result (λ m. m.flags.items ≡ replicate count false) }
    ensures pending { IfOk result (λ m. m.pending.items ≡ []) }
{
    let mut flags = Vec::new(alloc);
    flags.resize(count, false)?;
    Ok(Marks {
        flags,
        pending: Vec::new(alloc),
    })
}

/// Marks the variable of a use as an array.
fn mark_use(marks: &mut Marks, what: What) -> Result<(), AllocError>
    requires { IsBelow what (length marks.old.flags.items) }
    ensures flags { OnOk result (marks.new.flags.items ≡ used_flags what marks.old.flags.items) }
    ensures pending { OnOk result (marks.new.pending.items ≡ used_pending what marks.old.flags.items marks.old.pending.items) }
{
    match what {
        What::Named(Manner::Array, variable) => {
            mark(&mut marks.flags, &mut marks.pending, variable)
        }
        What::Named(Manner::Argument(_), _) => Ok(()),
        What::Named(Manner::Scalar, _) => Ok(()),
        What::Named(Manner::Either, _) => Ok(()),
        What::Value(_) => Ok(()),
        What::Pattern(_) => Ok(()),
        What::Misuse => Ok(()),
    }
}

/// Marks what is used as an array.
fn used_marks(alloc: Global, uses: &[Usage]) -> Result<Marks, AllocError>
    ensures marking { IfOk result (λ m. (froms tos : List ℕ) → IsMarking uses.now froms tos m.flags.items m.pending.items) }
    ensures used { IfOk result (λ m. AreUsedMarked uses.now m.flags.items) }
    ensures below { IfOk result (λ m. AreBelow uses.now (length m.flags.items)) }
{
    let mut marks = no_marks(alloc, end_of_all(uses)?)?;
    for usage in uses {
        mark_use(&mut marks, usage.what)?;
    }
    Ok(marks)
}

/// Marks what the links of a variable lead to.
fn follow(links: &Links, marks: &mut Marks, variable: usize) -> Result<(), AllocError>
    requires size { length links.now.from ≡ length links.now.to.items }
    requires below { (e : ℕ) → e < length links.now.to.items → slice_index links.now.to.items e < length marks.old.flags.items }
    ensures { OnOk result (Followed links.now.from links.now.to.items variable marks.old.flags.items marks.old.pending.items marks.new.flags.items marks.new.pending.items) }
{
    let mut at = links.from.latest(variable);
    while let Some(link) = at {
        mark(&mut marks.flags, &mut marks.pending, links.to[link])?;
        at = links.from.earlier(link);
    }
    Ok(())
}

/// Follows all links from what is marked. The uses are read by the clauses alone.
fn spread(uses: &[Usage], links: &Links, marks: &mut Marks) -> Result<(), AllocError>
    requires links { AreLinks uses.now links.now.from links.now.to.items }
    requires below { AreBelow uses.now (length marks.old.flags.items) }
    requires marking { IsMarking uses.now links.now.from links.now.to.items marks.old.flags.items marks.old.pending.items }
    ensures marking { OnOk result (IsMarking uses.now links.now.from links.now.to.items marks.new.flags.items []) }
    ensures kept { OnOk result (Keeps marks.old.flags.items marks.new.flags.items) }
{
    let _count = uses.len();
    while let Some(variable) = marks.pending.pop() {
        follow(links, marks, variable)?;
    }
    Ok(())
}

/// For each variable, whether it is an array.
pub fn arrays(alloc: Global, uses: &[Usage]) -> Result<Vec<bool>, AllocError>
    ensures { IfOk result (λ flags. (v : ℕ) → (is_marked flags.items v ≡ true) ↔ IsArray uses.now v) }
{
    let links = links_of(alloc, uses)?;
    let mut marks = used_marks(alloc, uses)?;
    spread(uses, &links, &mut marks)?;
    Ok(marks.flags)
}
