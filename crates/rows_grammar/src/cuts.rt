//! Texts cut after each byte.

use crate::reading::read_text;
use rawk_parsing::{ParseError, RefusalKind};
use rows_cases::Case;
use std::alloc::{AllocError, Global};
use std::io;

/// How the beginnings of texts were answered.
#[derive(Clone, Copy)]
struct Counts {
    read: usize,
    refused: usize,
    /// refused for what the grammar knows nothing of
    unnamed: usize,
}

/// Whether the grammar alone refuses a text for this: regular expressions and names are settled later.
fn is_of_the_grammar(kind: RefusalKind) -> bool {
    match kind {
        RefusalKind::BadEre | RefusalKind::NameMisused | RefusalKind::OutOfMemory => false,
        RefusalKind::BadToken
        | RefusalKind::Syntax
        | RefusalKind::Unterminated
        | RefusalKind::BadNumber
        | RefusalKind::LeftOut
        | RefusalKind::Misplaced
        | RefusalKind::TooDeep => true,
    }
}

impl Counts {
    /// Reads the beginnings of a text, the empty one and the whole text among them.
    fn cut(&mut self, alloc: Global, text: &[u8]) -> Result<(), AllocError> {
        for end in 0..=text.len() {
            match read_text(alloc, &text[..end]) {
                Ok(_) => self.read = self.read.saturating_add(1),
                Err(ParseError::OutOfMemory) => return Err(AllocError),
                Err(ParseError::Here(kind, left)) if is_of_the_grammar(kind) && left <= end => {
                    self.refused = self.refused.saturating_add(1)
                }
                Err(_) => self.unnamed = self.unnamed.saturating_add(1),
            }
        }
        Ok(())
    }
}

/// Reads the text of each case that has nothing else, cut after each byte, and writes how many beginnings there were and how they were answered.
pub fn cut_texts<R: Print + AllocGlobal>(rt: &R, cases: &[Case]) -> io::Result<()> {
    let alloc = rt.alloc();
    let mut counts = Counts {
        read: 0,
        refused: 0,
        unnamed: 0,
    };
    for case in cases {
        if let [text] = case.parts.as_slice() {
            counts.cut(alloc, text.as_slice())?;
        }
    }
    let Counts {
        read,
        refused,
        unnamed,
    } = counts;
    println!(rt;
        "cut after each byte: {read} read, {refused} refused by the grammar, {unnamed} otherwise"
    )
}
