//! Bytes as they are written in cases.

use crate::number::number_of;
use rawk_value::push_number;
use std::alloc::{AllocError, Global};

/// A repetition that is open, in one of its turns.
#[derive(Clone, Copy)]
struct Repetition {
    /// how many turns there are from this one on
    turns: usize,
    /// the number of this turn
    number: usize,
    /// whether the numbers go down
    is_down: bool,
    /// where the text of a turn begins
    start: usize,
    /// how many bytes stand before those of the first turn
    before: usize,
    /// whether its text shows the number
    is_numbered: bool,
}

/// A text, and the bytes that it stands for so far.
#[derive(Drop)]
struct Reader<'a> {
    text: &'a [u8],
    at: usize,
    bytes: Vec<u8>,
    open: Vec<Repetition>,
}

impl<'a> Reader<'a> {
    /// Reads the whole text.
    fn read_all(&mut self, alloc: Global) -> Result<(), AllocError> {
        for _ in 0..u64::MAX {
            match self.text.get(self.at) {
                Some(byte) => self.read(alloc, *byte)?,
                None => break,
            }
        }
        Ok(())
    }

    /// Reads what stands here, which begins with this byte.
    fn read(&mut self, alloc: Global, byte: u8) -> Result<(), AllocError> {
        match byte {
            b'\\' => self.read_escape(),
            b'}' => match self.open.pop() {
                Some(repetition) => self.end_turn(alloc, repetition),
                None => self.put(b"}", 1),
            },
            other => self.put(&[other], 1),
        }
    }

    /// Reads what stands here, which begins with a backslash.
    fn read_escape(&mut self) -> Result<(), AllocError> {
        match self.behind(1) {
            [b'n', ..] => self.put(b"\n", 2),
            [b't', ..] => self.put(b"\t", 2),
            [b'\\', ..] => self.put(b"\\", 2),
            [b'x', high, low, ..] => self.put(&[digit(*high).wrapping_mul(16) | digit(*low)], 4),
            [b'{', ..] => self.begin_repetition(),
            [b'}', ..] if !self.open.is_empty() => self.put(b"}", 2),
            [b'#', ..] => self.put_number(),
            _ => self.put(b"\\", 1),
        }
    }

    /// The text from some bytes behind this place on.
    fn behind(&self, size: usize) -> &'a [u8] {
        self.text.get(self.at.saturating_add(size)..).unwrap_or(&[])
    }

    /// Adds what stands here in some bytes of the text.
    fn put(&mut self, bytes: &[u8], size: usize) -> Result<(), AllocError> {
        self.bytes.extend_from_slice(bytes)?;
        self.at = self.at.saturating_add(size);
        Ok(())
    }

    /// Begins the first turn of a repetition.
    fn begin_repetition(&mut self) -> Result<(), AllocError> {
        let text = self.behind(2);
        let Some(size) = text.iter().position(|b| *b == b'*') else {
            return self.put(b"\\", 1);
        };
        let (turns, number, is_down) = turns_of(text.get(..size).unwrap_or(&[]));
        self.at = self.at.saturating_add(size).saturating_add(3);
        self.open.push(Repetition {
            turns,
            number,
            is_down,
            start: self.at,
            before: self.bytes.len(),
            is_numbered: false,
        })?;
        Ok(())
    }

    /// Adds the number of this turn.
    fn put_number(&mut self) -> Result<(), AllocError> {
        let Some(mut repetition) = self.open.pop() else {
            return self.put(b"\\", 1);
        };
        push_number(
            &mut self.bytes,
            i64::try_from(repetition.number).unwrap_or(i64::MAX),
        )?;
        repetition.is_numbered = true;
        self.open.push(repetition)?;
        self.at = self.at.saturating_add(2);
        Ok(())
    }

    /// Ends a turn, and goes on with the next one, or behind the repetition.
    fn end_turn(&mut self, alloc: Global, mut repetition: Repetition) -> Result<(), AllocError> {
        if repetition.is_numbered && 1 < repetition.turns {
            repetition.turns -= 1;
            repetition.number = match repetition.is_down {
                true => repetition.number.saturating_sub(1),
                false => repetition.number.saturating_add(1),
            };
            self.at = repetition.start;
            self.open.push(repetition)?;
            return Ok(());
        }
        if !repetition.is_numbered || repetition.turns == 0 {
            repeat(alloc, &mut self.bytes, repetition)?;
        }
        self.at = self.at.saturating_add(1);
        Ok(())
    }
}

/// How many turns a repetition has, the number of the first one, and whether the numbers go down: `N` is N turns from 1 on, and `M..N` one
/// for each number from M to N.
fn turns_of(part: &[u8]) -> (usize, usize, bool) {
    let Some(at) = part.iter().position(|b| *b == b'.') else {
        return (number_of(part).unwrap_or(0), 1, false);
    };
    let first = number_of(part.get(..at).unwrap_or(&[])).unwrap_or(0);
    let last = number_of(part.get(at.saturating_add(2)..).unwrap_or(&[])).unwrap_or(0);
    (first.abs_diff(last).saturating_add(1), first, last < first)
}

/// The value of a hexadecimal digit, and 0 of another byte.
fn digit(byte: u8) -> u8 {
    match byte {
        b'0'..=b'9' => byte - b'0',
        b'a'..=b'f' => byte - b'a' + 10,
        _ => 0,
    }
}

/// Puts the bytes of a first turn there as often as a repetition has turns.
fn repeat(alloc: Global, bytes: &mut Vec<u8>, repetition: Repetition) -> Result<(), AllocError> {
    let turn = match bytes.as_slice().get(repetition.before..) {
        Some(end) => Vec::from_slice(alloc, end)?,
        None => return Ok(()),
    };
    bytes.truncate(repetition.before);
    for _ in 0..repetition.turns {
        bytes.extend_from_slice(&turn)?;
    }
    Ok(())
}

/// The bytes that a text of a case stands for.
pub fn unescaped(alloc: Global, text: &str) -> Result<Vec<u8>, AllocError> {
    let mut reader = Reader {
        text: text.as_bytes(),
        at: 0,
        bytes: Vec::new(alloc),
        open: Vec::new(alloc),
    };
    reader.read_all(alloc)?;
    let Reader { bytes, .. } = reader;
    Ok(bytes)
}

/// Bytes as a case has them: escapes for those that cannot be seen, and for a blank at the end.
pub fn shown(alloc: Global, bytes: &[u8]) -> Result<String, AllocError> {
    let mut text = String::new(alloc);
    for byte in bytes {
        push_shown(alloc, &mut text, *byte)?;
    }
    if bytes.last() == Some(&b' ') {
        text.pop();
        text.push_str("\\x20")?;
    }
    Ok(text)
}

/// Adds a byte as a case has it: an escape, where it cannot be seen.
fn push_shown(alloc: Global, text: &mut String, byte: u8) -> Result<(), AllocError> {
    match byte {
        b'\n' => text.push_str("\\n"),
        b'\t' => text.push_str("\\t"),
        b'\\' => text.push_str("\\\\"),
        b' '..=b'~' => text.push(byte as char),
        other => {
            let escape = format!(in alloc; "\\x{other:02x}")?;
            text.push_str(escape.as_str())
        }
    }
}
