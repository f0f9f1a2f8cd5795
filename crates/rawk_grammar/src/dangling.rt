//! Statements that end in an `if` with no `else`, behind which none comes.

ghost use Rattle.std.specs.Prelude.{◌≡◌, true, false, Ok};
ghost use Rattle.rawk_grammar.specs.Dangling as spec;
ghost use Rattle.rawk_grammar.specs.Statement.{other as the_other};

use crate::heads::other;
use crate::tree::{Branch, Stmt};
use rawk_lexer::Cursor;

/// Whether a statement ends in an `if` with no `else`.
fn dangles(stmt: &Stmt) -> bool
    ensures { result ≡ spec.dangles stmt.now }
{
    match stmt {
        Stmt::If(_, last) => match last {
            None => true,
            Some(last) => dangles(last.get()),
        },
        Stmt::While(_, body) => dangles(body.get()),
        Stmt::For(_, body) => dangles(body.get()),
        Stmt::ForIn(_, _, _, body) => dangles(body.get()),
        Stmt::Empty => false,
        Stmt::Simple(_) => false,
        Stmt::Jump(_, _) => false,
        Stmt::Block(_) => false,
        Stmt::Do(_, _) => false,
    }
}

/// Takes the `else` behind a branch, as `other` does, but looks over no newlines again where the branch's body did so last.
#[tactic(auto, unfolding(crate::specs::Dangling::branch_dangles))]
pub fn other_behind(branch: &Branch, tokens: &mut Cursor<'_>) -> bool
    requires { spec.branch_dangles branch.now ≡ true → the_other tokens.old ≡ Ok (false, tokens.old) }
    ensures { the_other tokens.old ≡ Ok (result, tokens.new) }
{
    !dangles(branch.body.get()) && other(tokens)
}
