//! A place in a text, which cuts each token as it is reached.

ghost use Rattle.std.specs.Prelude.{◌≡◌, ◌≤◌};
ghost use Rattle.rawk_lexer.specs.Lex as spec;

use crate::scan;
use crate::scan::Token;
use rawk_keywords::Kind;
use std::marker::Model;

/// Contracts see it as the text that is not yet read.
#[derive(Drop)]
pub struct Cursor<'a> {
    text: &'a [u8],
    /// The text from the next token on, and that token.
    ahead: &'a [u8],
    token: Token,
}

impl<'a> Model for Cursor<'a> {
    ghost use Rattle.std.specs.Prelude.{List, ℕ};

    ghost Value = { List ℕ };

    ghost use Rattle.rawk_lexer.specs.Ready.{text_of, IsReady};

    ghost view = { text_of };

    ghost invariant = { IsReady };
}

impl<'a> Cursor<'a> {
    /// At the begin of a text.
    pub fn new(text: &'a [u8]) -> Cursor<'a>
        ensures { result ≡ text.now }
    {
        let (ahead, token) = scan::skip(text);
        Cursor { text, ahead, token }
    }

    /// The kind of the next token. A slash is always an operator here, `Slash` or `SlashAssign`.
    #[tactic(auto, unfolding(crate::specs::Lex::kind))]
    pub fn peek(&self) -> Kind
        ensures { result ≡ spec.kind self.now }
    {
        self.token.0
    }

    /// The text that is not yet read, from where the last token ended.
    pub fn rest(&self) -> &'a [u8]
        ensures { result.now ≡ self.now }
    {
        self.text
    }

    /// How many bytes there are from the next token on.
    #[tactic(auto, unfolding(crate::specs::Lex::left))]
    pub fn left(&self) -> usize
        ensures { result ≡ spec.left self.now }
    {
        self.ahead.len()
    }

    /// The bytes of the next token, as they were written.
    #[tactic(auto, unfolding(crate::specs::Lex::spelling))]
    pub fn spelling(&self) -> &'a [u8]
        ensures { result.now ≡ spec.spelling self.now }
    {
        &self.ahead[..self.token.1]
    }

    /// Passes the next token. At the end of the text it stays there.
    #[tactic(auto, unfolding(crate::specs::Lex::next))]
    pub fn take(&mut self)
        ensures { self.new ≡ spec.next self.old }
    {
        *self = Cursor::new(&self.ahead[self.token.1..]);
    }

    /// The length in bytes of the regular expression that begins at the next token, with both its slashes; 0 where there is no
    /// slash, or none that ends it on its line. It reads up to the closing slash at each call.
    #[tactic(auto, unfolding(crate::specs::Lex::ere_len, crate::specs::Lex::left))]
    pub fn ere_len(&self) -> usize
        ensures value { result ≡ spec.ere_len self.now }
        ensures within { result ≤ spec.left self.now }
    {
        scan::ere_len(self.ahead)
    }

    /// The bytes of the regular expression that begins at the next token, with both its slashes; empty where none ends.
    #[tactic(auto, unfolding(crate::specs::Lex::ere_spelling, crate::specs::Lex::left))]
    pub fn ere(&self) -> &'a [u8]
        ensures { result.now ≡ spec.ere_spelling self.now }
    {
        &self.ahead[..self.ere_len()]
    }

    /// Passes the regular expression that begins at the next token, or nothing but blanks where none ends.
    #[tactic(auto, unfolding(crate::specs::Lex::past_ere, crate::specs::Lex::left))]
    pub fn take_ere(&mut self)
        ensures { self.new ≡ spec.past_ere self.old }
    {
        *self = Cursor::new(&self.ahead[self.ere_len()..]);
    }
}
