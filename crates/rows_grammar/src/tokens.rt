//! Tokens, strings and regular expressions in a text.
//!
//! `tokens`, a text: each token as its kind, and in brackets how it was written. `ere`, a text: the regular expression that begins
//! at its first token, or `none`, and what stands behind it. `string`, the inside of a string: the bytes that it stands for.
//! `inside`, a word: the word without its quotes.

use rawk_lexer::{Cursor, Kind};
use std::alloc::{AllocError, Global};

/// The tokens of a text, with a blank between two.
pub fn tokens_of(alloc: Global, text: &[u8]) -> Result<Vec<u8>, AllocError> {
    let mut out = Vec::new(alloc);
    let mut tokens = Cursor::new(text);
    for _ in 0..=text.len() {
        let kind = tokens.peek();
        push_token(alloc, &mut out, kind, tokens.spelling())?;
        if kind == Kind::EndOfText {
            break;
        }
        out.push(b' ')?;
        tokens.take();
    }
    Ok(out)
}

/// Adds a token: its kind, and in brackets how it is written.
fn push_token(
    alloc: Global,
    out: &mut Vec<u8>,
    kind: Kind,
    spelling: &[u8],
) -> Result<(), AllocError> {
    out.extend_from_slice(format!(in alloc; "{kind:?}[")?.as_bytes())?;
    out.extend_from_slice(spelling)?;
    out.push(b']')?;
    Ok(())
}

/// The regular expression at the first token, and what stands behind it.
pub fn ere_of(alloc: Global, text: &[u8]) -> Result<Vec<u8>, AllocError> {
    let mut tokens = Cursor::new(text);
    if tokens.ere_len() == 0 {
        return Vec::from_slice(alloc, b"none");
    }
    let mut out = Vec::from_slice(alloc, tokens.ere())?;
    tokens.take_ere();
    out.extend_from_slice(b", then ")?;
    out.extend_from_slice(tokens.rest())?;
    Ok(out)
}
