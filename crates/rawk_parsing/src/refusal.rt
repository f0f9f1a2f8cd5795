//! Why a program's text is refused.

ghost use Rattle.std.specs.Prelude.{◌≡◌};

/// Why a program's text is refused. Each has a number, P1 to P10, and a text.
#[derive(Clone, Copy, Debug, PartialEq, Eq)]
pub enum RefusalKind {
    BadToken,
    Syntax,
    Unterminated,
    BadNumber,
    BadEre,
    LeftOut,
    NameMisused,
    Misplaced,
    TooDeep,
    OutOfMemory,
}

/// A text's refusal.
#[derive(Clone, Copy, PartialEq, Eq)]
pub struct Refusal {
    pub kind: RefusalKind,
    /// from 1, or 0 where the whole text is meant
    pub line: u64,
}

impl RefusalKind {
    ghost use Rattle.rawk_parsing.specs.Refusals.{refusal_number, refusal_text};

    /// The n of its name Pn: 1 to 10.
    pub fn number(&self) -> u8
        ensures { result ≡ refusal_number self.now }
    {
        match self {
            RefusalKind::BadToken => 1,
            RefusalKind::Syntax => 2,
            RefusalKind::Unterminated => 3,
            RefusalKind::BadNumber => 4,
            RefusalKind::BadEre => 5,
            RefusalKind::LeftOut => 6,
            RefusalKind::NameMisused => 7,
            RefusalKind::Misplaced => 8,
            RefusalKind::TooDeep => 9,
            RefusalKind::OutOfMemory => 10,
        }
    }

    /// What a report says of it.
    pub fn text(&self) -> &'static str
        ensures { result.now ≡ refusal_text self.now }
    {
        match self {
            RefusalKind::BadToken => "bad token",
            RefusalKind::Syntax => "syntax error",
            RefusalKind::Unterminated => "unterminated text",
            RefusalKind::BadNumber => "number not whole or too large",
            RefusalKind::BadEre => "bad regular expression",
            RefusalKind::LeftOut => "left out of this profile",
            RefusalKind::NameMisused => "name misused",
            RefusalKind::Misplaced => "statement misplaced",
            RefusalKind::TooDeep => "too deep or too long",
            RefusalKind::OutOfMemory => "out of memory",
        }
    }
}
