//! Cases of programs' texts; the modules say what the parts of a case are. A text alone is one of the grammar of the whole language:
//! its tree, or the number of its refusal and the line. Behind the cases each such text is cut after each byte.
//!
//! With the word `read` the standard input is one text, which is read once.
//!
//! A tree has an operator before its operands, in parentheses: `(- a b)`, `(- a)`, `(++ a)`; `after` is a place with the `++` or `--`
//! behind it, `at` an array with subscripts, `join` a concatenation, `group` an expression in parentheses, `list` the subscripts before
//! `in`. A rule is `always`, or `when` with its pattern and a `block`, which is missing where no action is written; a part of a `for`
//! that is missing is `()`.
#![tactic(auto)]

mod cuts;
mod expressions;
mod names;
mod programs;
mod reading;
mod settled;
mod tokens;

pub use cuts::cut_texts;
use rawk_lexer::{unescaped, unquoted};
pub use reading::read_once;
use std::alloc::{AllocError, Global};

/// What is asked of a text.
#[derive(Clone, Copy)]
enum Question {
    Names,
    Tokens,
    Ere,
    String,
    Inside,
    Syntax,
    Sites,
}

/// The first words of cases of two parts.
const QUESTIONS: [(&str, Question); 7] = [
    ("names", Question::Names),
    ("tokens", Question::Tokens),
    ("ere", Question::Ere),
    ("string", Question::String),
    ("inside", Question::Inside),
    ("syntax", Question::Syntax),
    ("sites", Question::Sites),
];

/// The question that a word asks.
fn question_of(word: &[u8]) -> Option<Question> {
    for (name, question) in &QUESTIONS {
        if name.as_bytes() == word {
            return Some(*question);
        }
    }
    None
}

/// What a case answers. It fails where memory is refused.
pub fn outcome(alloc: Global, parts: &[&[u8]]) -> Result<Vec<u8>, AllocError> {
    match parts {
        [text] => reading::answered(alloc, text),
        [word, text] => answered(alloc, word, text),
        [word, place, text] => settled::site(alloc, word, place, text),
        _ => Vec::from_slice(alloc, b"not a case"),
    }
}

/// What a text answers to a word.
fn answered(alloc: Global, word: &[u8], text: &[u8]) -> Result<Vec<u8>, AllocError> {
    match question_of(word) {
        Some(Question::Names) => names::answered(alloc, text),
        Some(Question::Tokens) => tokens::tokens_of(alloc, text),
        Some(Question::Ere) => tokens::ere_of(alloc, text),
        Some(Question::String) => unescaped(alloc, text),
        Some(Question::Inside) => Vec::from_slice(alloc, unquoted(text)),
        Some(Question::Syntax) => settled::is_read(alloc, text),
        Some(Question::Sites) => settled::sites(alloc, text),
        None => Vec::from_slice(alloc, b"not a case"),
    }
}
