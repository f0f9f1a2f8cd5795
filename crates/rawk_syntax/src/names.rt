//! The names of a program, where each regular expression in it is one.

ghost use Rattle.std.specs.Prelude.{◌≡◌, IfOk, OnOk};
ghost use Rattle.rawk_names.specs.Items.{program};
ghost use Rattle.rawk_names.specs.Named.{IsNamed, known};
ghost use Rattle.rawk_names.specs.Noted.{shown};
ghost use Rattle.rawk_syntax.specs.Patterns.{AllReadable};
ghost use Rattle.rawk_syntax.specs.Texts as spec;
ghost use Rattle.rawk_syntax.specs.Texts.{IsMisnamed, IsRefusedSo, Tells};

use crate::patterns::bad_of;
use rawk_grammar::tree::Item;
use rawk_names::{NameError, Names, Register, note, resolve};
use rawk_parsing::{ParseError, RefusalKind};
use std::alloc::Global;

/// What is reported of names.
fn parse_error_of(refused: NameError) -> ParseError
    ensures { result ≡ spec.parse_error_of refused }
{
    match refused {
        NameError::OutOfMemory => ParseError::OutOfMemory,
        NameError::Misused(left) => ParseError::Here(RefusalKind::NameMisused, left),
    }
}

/// The names of a program of which each regular expression is one.
fn resolved_names(alloc: Global, register: Register) -> Result<Names, ParseError>
    requires { AllReadable (shown register) }
    ensures exact { Tells (IsRefusedSo (shown register)) result }
    ensures named { IfOk result (λ n. IsNamed (shown register) (known n)) }
{
    match resolve(alloc, register) {
        Ok(names) => Ok(names),
        Err(refused) => Err(parse_error_of(refused)),
    }
}

/// The names of a program, by what it says of them.
fn names_from(alloc: Global, register: Register) -> Result<Names, ParseError>
    ensures exact { Tells (IsRefusedSo (shown register)) result }
    ensures named { IfOk result (λ n. IsNamed (shown register) (known n)) }
    ensures readable { OnOk result (AllReadable (shown register)) }
{
    match bad_of(alloc, &register)? {
        Some(left) => Err(ParseError::Here(RefusalKind::BadEre, left)),
        None => resolved_names(alloc, register),
    }
}

/// What the names of items are. It leaves the items as they are.
///
/// It refuses a regular expression that is none or too large (`BadEre`): of the first such one, where it stands first. Where each is one,
/// it refuses a misused name (`NameMisused`).
pub fn names_of(alloc: Global, items: &[Item]) -> Result<Names, ParseError>
    // A refusal is one of the items, or memory was refused; where there are names the items have no refusal.
    ensures exact { Tells (IsMisnamed items.now) result }
    // The names are those of the items, and in order.
    ensures named { IfOk result (λ n. IsNamed (program items.now) (known n)) }
    // Each regular expression is one.
    ensures readable { OnOk result (AllReadable (program items.now)) }
{
    let register = note(alloc, items)?;
    names_from(alloc, register)
}
