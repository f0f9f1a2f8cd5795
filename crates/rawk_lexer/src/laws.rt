//! Laws of tokens, for all texts.

ghost use Rattle.std.specs.Prelude.{◌≢◌, List, ℕ};
ghost use Rattle.rawk_keywords.specs.declared.token.Kind.{Kind};
ghost use Rattle.rawk_lexer.specs.EreToken.{IsEre};
ghost use Rattle.rawk_lexer.specs.Lex as spec;
ghost use Rattle.rawk_lexer.specs.Shown.{Shows, ShowsEre};
ghost use Rattle.rawk_lexer.specs.Token.{IsToken};

/// What a `Cursor` shows of a text is the text's next token, the longest one behind its blanks, and no other token stands
/// there.
pub fn tokens()
    ensures shown { (i : List ℕ) → IsToken (spec.kind i) (spec.spelling i) i (spec.next i) }
    ensures only { (c : Kind) (w i j : List ℕ) → IsToken c w i j → Shows c w i j }
{}

/// What a `Cursor` shows of a text as a regular expression is the one that begins there behind blanks; it shows none only where
/// none does.
pub fn eres()
    ensures shown { (i : List ℕ) → spec.ere_len i ≢ 0 → IsEre (spec.ere_spelling i) i (spec.past_ere i) }
    ensures only { (w i j : List ℕ) → IsEre w i j → ShowsEre w i j }
{}
