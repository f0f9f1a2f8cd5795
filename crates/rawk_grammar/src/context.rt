//! What a statement stands in, which says where a jump may stand.

ghost use Rattle.std.specs.Prelude.{◌≡◌};

use rawk_lexer::Kind;

/// Whose body a statement stands in.
#[derive(Clone, Copy, PartialEq, Eq)]
pub enum Owner {
    /// a BEGIN or END action
    BeginOrEnd,
    /// a main rule's action
    Rule,
    /// a function
    Function,
}

/// What a statement stands in.
#[derive(Clone, Copy, PartialEq, Eq)]
pub struct Context {
    pub owner: Owner,
    /// whether a loop is open
    pub in_loop: bool,
}

impl Context {
    ghost use Rattle.rawk_grammar.specs.Context as spec;

    /// Outside of loops.
    pub fn of(owner: Owner) -> Context
        ensures { result ≡ spec.of owner }
    {
        Context {
            owner,
            in_loop: false,
        }
    }

    /// Inside a loop.
    pub fn looped(&self) -> Context
        ensures { result ≡ spec.looped self.now }
    {
        Context {
            owner: self.owner,
            in_loop: true,
        }
    }

    /// Whether a jump that begins with this token may stand here: `next` outside of BEGIN and END, `break` and `continue` in a loop,
    /// `return` in a function, `exit` anywhere.
    pub fn allows(&self, kind: Kind) -> bool
        ensures { result ≡ spec.allows self.now kind }
    {
        match kind {
            Kind::Next => !matches!(self.owner, Owner::BeginOrEnd),
            Kind::Break | Kind::Continue => self.in_loop,
            Kind::Return => matches!(self.owner, Owner::Function),
            _ => true,
        }
    }
}
