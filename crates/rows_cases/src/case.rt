//! The cases of a text.

use crate::escape::unescaped;
use std::alloc::{AllocError, Global};

/// A case: what is asked, what is to be answered, and where it stands.
#[derive(Drop)]
pub struct Case {
    /// The parts of its head, and what a block adds to them.
    pub parts: Vec<Vec<u8>>,
    /// The answer that is wanted.
    pub wanted: Vec<u8>,
    /// The line of its head, counted from 1.
    pub line: usize,
    /// The line of each line of a block's answer.
    pub answers_at: Vec<usize>,
}

impl Case {
    /// Adds a part of the head; one with an input is two.
    fn take(&mut self, alloc: Global, part: &str) -> Result<(), AllocError> {
        if let Some(input) = part.strip_prefix("<<< ") {
            return self.take_input(alloc, input);
        }
        match part.split_once(" <<< ") {
            Some((before, input)) => {
                self.parts.push(unescaped(alloc, before)?)?;
                self.take_input(alloc, input)
            }
            None => {
                self.parts.push(unescaped(alloc, part)?)?;
                Ok(())
            }
        }
    }

    /// Adds an input.
    fn take_input(&mut self, alloc: Global, input: &str) -> Result<(), AllocError> {
        let mut part = b"<".to_vec(alloc)?;
        part.extend_from_slice(&unescaped(alloc, input)?)?;
        self.parts.push(part)?;
        Ok(())
    }

    /// Adds a line of a block's answer.
    fn add_answer(&mut self, line: &str, number: usize) -> Result<(), AllocError> {
        if !self.answers_at.is_empty() {
            self.wanted.push(b'\n')?;
        }
        self.wanted.extend_from_slice(line.as_bytes())?;
        self.answers_at.push(number)?;
        Ok(())
    }
}

/// A case whose block goes on, with what its lines give so far.
#[derive(Drop)]
struct Block {
    case: Case,
    text: Vec<u8>,
    typed: Vec<u8>,
}

impl Block {
    /// A block with this head.
    fn new(alloc: Global, case: Case) -> Block {
        Block {
            case,
            text: Vec::new(alloc),
            typed: Vec::new(alloc),
        }
    }

    /// Adds a line: to the text, to what is typed, or to the answer.
    fn add(&mut self, line: &str, number: usize) -> Result<(), AllocError> {
        if let Some(line) = marked('|', line) {
            return add_line(&mut self.text, line);
        }
        if let Some(line) = marked('>', line) {
            return add_line(&mut self.typed, line);
        }
        self.case.add_answer(line, number)
    }

    /// The case, with the text, and with what is typed behind a `>`.
    fn ended(self, alloc: Global) -> Result<Case, AllocError> {
        let Block {
            mut case,
            text,
            typed,
        } = self;
        if !text.is_empty() {
            case.parts.push(text)?;
        }
        if !typed.is_empty() {
            let mut part = b">".to_vec(alloc)?;
            part.extend_from_slice(&typed)?;
            case.parts.push(part)?;
        }
        Ok(case)
    }
}

/// What stands on a line behind a mark and a blank, if it begins so.
fn marked(mark: char, line: &str) -> Option<&str> {
    let rest = line.strip_prefix(mark)?;
    if rest.is_empty() {
        return Some(rest);
    }
    rest.strip_prefix(' ')
}

/// Adds a line with its newline.
fn add_line(text: &mut Vec<u8>, line: &str) -> Result<(), AllocError> {
    text.extend_from_slice(line.as_bytes())?;
    text.push(b'\n')?;
    Ok(())
}

/// The head of a case, and behind it its answer, where it stands on the same line.
fn split_answer(line: &str) -> (&str, Option<&str>) {
    if let Some(head) = line.strip_suffix(" =>") {
        return (head, Some(""));
    }
    match line.rsplit_once(" => ") {
        Some((head, answer)) => (head, Some(answer)),
        None => (line, None),
    }
}

/// The cases so far, and the block that goes on.
#[derive(Drop)]
struct Reader {
    cases: Vec<Case>,
    open: Option<Block>,
}

impl Reader {
    /// Reads a line.
    fn read(&mut self, alloc: Global, line: &str, number: usize) -> Result<(), AllocError> {
        match self.open.take() {
            Some(block) if line.is_empty() => self.cases.push(block.ended(alloc)?)?,
            Some(mut block) => {
                block.add(line, number)?;
                self.open = Some(block);
            }
            None if line.is_empty() || line.starts_with('#') => {}
            None => self.begin(alloc, line, number)?,
        }
        Ok(())
    }

    /// Begins a case.
    fn begin(&mut self, alloc: Global, line: &str, number: usize) -> Result<(), AllocError> {
        let (head, answer) = match marked('|', line) {
            Some(_) => ("", None),
            None => split_answer(line),
        };
        let case = case_of(alloc, head, answer.unwrap_or(""), number)?;
        if answer.is_some() && !head.is_empty() {
            self.cases.push(case)?;
            return Ok(());
        }
        let mut block = Block::new(alloc, case);
        if head.is_empty() {
            block.add(line, number)?;
        }
        self.open = Some(block);
        Ok(())
    }

    /// Reads all lines of a text.
    fn read_all(&mut self, alloc: Global, text: &str) -> Result<(), AllocError> {
        let mut number = 0usize;
        for line in text.lines() {
            number = number.saturating_add(1);
            self.read(alloc, line, number)?;
        }
        self.read(alloc, "", number)
    }
}

/// A case with this head and this answer.
fn case_of(alloc: Global, head: &str, answer: &str, line: usize) -> Result<Case, AllocError> {
    let mut case = Case {
        parts: Vec::new(alloc),
        wanted: unescaped(alloc, answer)?,
        line,
        answers_at: Vec::new(alloc),
    };
    if !head.is_empty() {
        for part in head.split('\t') {
            case.take(alloc, part)?;
        }
    }
    Ok(case)
}

/// All cases of a text, in their order.
pub fn cases_of(alloc: Global, text: &str) -> Result<Vec<Case>, AllocError> {
    let mut reader = Reader {
        cases: Vec::new(alloc),
        open: None,
    };
    reader.read_all(alloc, text)?;
    let Reader { cases, .. } = reader;
    Ok(cases)
}
