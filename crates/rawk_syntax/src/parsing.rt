//! Whole texts.

ghost use Rattle.std.specs.Prelude.{◌≡◌, ◌≤◌, List, length, IfOk};
ghost use Rattle.rawk_limits.specs.declared.TheConstants as limits;
ghost use Rattle.rawk_grammar.specs.declared.tree.Item as part;
ghost use Rattle.rawk_names.specs.Items as naming;
ghost use Rattle.rawk_names.specs.Named.{IsNamed, known};
ghost use Rattle.rawk_syntax.specs.Patterns.{AllReadable};
ghost use Rattle.rawk_syntax.specs.Texts as spec;
ghost use Rattle.rawk_syntax.specs.Texts.{Answers, IsFlawIn, IsMisnamed, IsOrderly, IsProgram, IsRead, IsReading, IsSettled, IsSettledAs, IsText, Tells};

use crate::items::settle;
use crate::names::names_of;
use rawk_grammar::program;
use rawk_grammar::tree::Item;
use rawk_lexer::{Cursor, line_of};
use rawk_limits::{OPEN_CONSTRUCTS, PROGRAM_BYTES};
use rawk_names::Names;
use rawk_parsing::{ParseError, Refusal, RefusalKind};
use rawk_tree::Program;
use std::alloc::Global;

/// Parses the text of a program (POSIX awk, Grammar); the names of the program are numbers, and its sites are numbered.
///
/// It refuses, in this order: a text of more than 1,048,576 bytes (`TooDeep`); a text that the grammar does not give, by the token at
/// which it stops (`Syntax`, `BadToken`, `Unterminated`, `LeftOut`, `Misplaced`), with a constant that is not whole or does not fit
/// 64 bits (`BadNumber`), or with more than 200 constructs open at once (`TooDeep`); a regular expression that is none or too large
/// (`BadEre`), and then a misused name (`NameMisused`), wherever they stand in the program. `OutOfMemory` is the refusal of a growth, and
/// its line is 0.
/// A token is looked at no more often than constructs may be open, and each name is found by a hash.
pub fn parse(alloc: Global, text: &[u8]) -> Result<Program, Refusal>
    // A refusal has the kind and the line that the text gives, or memory was refused; where there is a program the text gives none.
    ensures exact { Answers text.now result }
    // The program is settled from items that the grammar gives the text, within the limits, and whose regular expressions and names are in
    // order.
    ensures found { IfOk result (λ p. IsProgram text.now p) }
    // A text that the grammar gives items with regular expressions and names in order, within the limits, is read as those, unless memory
    // is refused.
    ensures derived { (items : List part.Item) → length text.now ≤ limits.PROGRAM_BYTES → IsOrderly text.now items → IsRead text.now items result }
{
    if text.len() > PROGRAM_BYTES {
        return Err(refusal_of(
            text,
            ParseError::Here(RefusalKind::TooDeep, text.len() - PROGRAM_BYTES),
        ));
    }
    match read(alloc, text) {
        Ok(program) => Ok(program),
        Err(refused) => Err(refusal_of(text, refused)),
    }
}

/// The line of a refusal is counted only now.
fn refusal_of(text: &[u8], refused: ParseError) -> Refusal
    ensures { result ≡ spec.refusal_of text.now refused }
{
    match refused {
        ParseError::OutOfMemory => Refusal {
            kind: RefusalKind::OutOfMemory,
            line: 0,
        },
        ParseError::Here(kind, left) => Refusal {
            kind,
            line: line_of(text, left),
        },
    }
}

/// The program of items that the grammar gives a text, and whose regular expressions and names are in order.
fn settle_named(
    alloc: Global,
    text: &[u8],
    names: Names,
    items: &[Item],
) -> Result<Program, ParseError>
    requires derived { IsText text.now items.now }
    requires named { IsNamed (naming.program items.now) (known names) }
    requires readable { AllReadable (naming.program items.now) }
    ensures exact { Tells (IsMisnamed items.now) result }
    ensures found { IfOk result (λ p. IsSettled text.now items.now p) }
{
    let settled = settle(alloc, text, &names, items);
    drop(names);
    Ok(settled?)
}

/// The program of items that the grammar gives a text.
fn settle_items(alloc: Global, text: &[u8], items: &[Item]) -> Result<Program, ParseError>
    requires { IsText text.now items.now }
    ensures exact { Tells (IsMisnamed items.now) result }
    ensures found { IfOk result (λ p. IsSettled text.now items.now p) }
{
    match names_of(alloc, items) {
        Ok(names) => settle_named(alloc, text, names, items),
        Err(refused) => Err(refused),
    }
}

/// The program of a text of any length.
fn read(alloc: Global, text: &[u8]) -> Result<Program, ParseError>
    ensures exact { Tells (IsFlawIn text.now) result }
    ensures found { IfOk result (λ p. IsReading text.now p) }
    ensures derived { (items : List part.Item) → IsOrderly text.now items → IsSettledAs text.now items result }
{
    let mut tokens = Cursor::new(text);
    let items = program(alloc, &mut tokens, OPEN_CONSTRUCTS + 1)?;
    let settled = settle_items(alloc, text, items.as_slice());
    drop(items);
    settled
}
