//! `record`, a field separator, an output field separator, a text, and changes: `$0` after them, how many fields there are, and
//! each: in brackets one that is a piece of `$0`, and otherwise its value. A change is a number or `NF`, `=` and a value; `0+` and a text
//! adds it to `$0`; `FS=` and `OFS=` set the separators; `step` ends the step, and `back` takes it back.
//!
//! `change`, an output field separator, a text and a change of a field or `NF`: `$0` with the change, and with it taken back.

use crate::fields::fault_text;
use crate::not_a_case;
use crate::values::value_of;
use rawk_store::{Current, FieldRef, Record, RecordChange, Reversible, field_number};
use rawk_value::{Fault, Value, text_of};
use rows_cases::push_value;
use std::alloc::{AllocError, Global};

/// Two texts, one behind the other.
fn both(alloc: Global, text: &[u8], more: &[u8]) -> Result<Vec<u8>, AllocError> {
    let mut both = Vec::from_slice(alloc, text)?;
    both.extend_from_slice(more)?;
    Ok(both)
}

/// The two sides of a `=`.
fn sides(change: &[u8]) -> Option<(&[u8], &[u8])> {
    let at = change.iter().position(|b| *b == b'=')?;
    Some((&change[..at], &change[at + 1..]))
}

/// The present record and the separators of now.
#[derive(Drop)]
struct Place<'a> {
    current: Current,
    fs: &'a [u8],
    ofs: &'a [u8],
}

impl<'a> Place<'a> {
    /// `$0` becomes a text.
    fn read(&mut self, alloc: Global, text: &[u8]) -> Result<(), Fault> {
        self.current.read::<true>(alloc, text, self.fs, false)
    }

    /// Makes one change.
    fn change(&mut self, alloc: Global, change: &'a [u8]) -> Result<(), Fault> {
        match change {
            b"step" => self.current.forget(),
            b"back" => self.current.undo_step(),
            _ => match change.strip_prefix(b"0+".as_slice()) {
                Some(more) => return self.add(alloc, more),
                None => return self.put(alloc, change),
            },
        }
        Ok(())
    }

    /// Adds a text to `$0`.
    fn add(&mut self, alloc: Global, more: &[u8]) -> Result<(), Fault> {
        let text = both(alloc, self.current.text(), more)?;
        let read = self.read(alloc, &text);
        drop(text);
        read
    }

    /// Sets a separator, or assigns.
    fn put(&mut self, alloc: Global, change: &'a [u8]) -> Result<(), Fault> {
        match sides(change) {
            Some((b"FS", separator)) => self.fs = separator,
            Some((b"OFS", separator)) => self.ofs = separator,
            Some((name, value)) => return self.assign(alloc, name, value_of(alloc, value)?),
            None => {}
        }
        Ok(())
    }

    /// Assigns to NF or to a field.
    fn assign(&mut self, alloc: Global, name: &[u8], value: Value) -> Result<(), Fault> {
        if name == b"NF".as_slice() {
            let count = field_number(&value)?;
            self.current
                .set_field_count::<true>(alloc, count, self.ofs)?;
            return Ok(());
        }
        let number = field_number(&value_of(alloc, name)?)?;
        if number != 0 {
            self.current
                .set_field::<true>(alloc, number, value, self.ofs)?;
            return Ok(());
        }
        let read = self.become_text(alloc, &value);
        drop(value);
        read
    }

    /// `$0` becomes the text of a value.
    fn become_text(&mut self, alloc: Global, value: &Value) -> Result<(), Fault> {
        let text = text_of(alloc, value)?;
        let read = self.read(alloc, &text);
        drop(text);
        read
    }
}

/// The record after its changes, or the first fault.
pub fn changed(alloc: Global, parts: &[&[u8]]) -> Result<Vec<u8>, AllocError> {
    let [fs, ofs, text, changes @ ..] = parts else {
        return not_a_case(alloc);
    };
    let mut place = Place {
        current: Current::new(alloc),
        fs,
        ofs,
    };
    let text = match change_all(alloc, &mut place, text, changes) {
        Ok(()) => shown(alloc, &place.current),
        Err(fault) => fault_text(alloc, fault),
    };
    drop(place);
    text
}

/// Reads the record, as a step of its own, and makes the changes.
fn change_all<'a>(
    alloc: Global,
    place: &mut Place<'a>,
    text: &[u8],
    changes: &[&'a [u8]],
) -> Result<(), Fault> {
    place.read(alloc, text)?;
    place.current.forget();
    for change in changes {
        place.change(alloc, change)?;
    }
    Ok(())
}

/// `$0`, how many fields there are, and each of them.
fn shown(alloc: Global, current: &Current) -> Result<Vec<u8>, AllocError> {
    let mut out = Vec::from_slice(alloc, current.text())?;
    let count = current.field_count();
    out.extend_from_slice(format!(in alloc; " | {count}")?.as_bytes())?;
    for number in 1..=count {
        push_field(&mut out, current.field(number))?;
    }
    Ok(out)
}

/// Adds a blank and a field.
fn push_field(out: &mut Vec<u8>, field: Option<FieldRef<'_>>) -> Result<(), AllocError> {
    out.push(b' ')?;
    match field {
        Some(FieldRef::Piece(bytes)) => {
            out.push(b'[')?;
            out.extend_from_slice(bytes)?;
            out.push(b']')?;
            Ok(())
        }
        Some(FieldRef::Kept(value)) => push_value(out, value),
        None => Ok(()),
    }
}

/// The change of a record that a part is.
fn change_of(alloc: Global, ofs: &[u8], change: &[u8]) -> Result<Option<RecordChange>, AllocError> {
    let separator = Vec::from_slice(alloc, ofs)?;
    let Some((name, value)) = sides(change) else {
        return Ok(None);
    };
    let value = value_of(alloc, value)?;
    if name == b"NF".as_slice() {
        return Ok(match field_number(&value) {
            Ok(count) => Some(RecordChange::Count { count, separator }),
            Err(_) => None,
        });
    }
    Ok(rows_cases::number_of(name).map(|number| RecordChange::Field {
        number,
        value,
        separator,
    }))
}

/// `$0` with a change, and with it taken back.
pub fn there_and_back(alloc: Global, parts: &[&[u8]]) -> Result<Vec<u8>, AllocError> {
    let [ofs, text, change] = parts else {
        return not_a_case(alloc);
    };
    let mut out = Vec::new(alloc);
    let mut record = Record::new(alloc);
    let done = change_and_undo(alloc, &mut record, &mut out, [ofs, text, change]);
    drop(record);
    done?;
    Ok(out)
}

/// Reads the text, makes the change and takes it back, and adds `$0` after each of the two.
fn change_and_undo(
    alloc: Global,
    record: &mut Record,
    out: &mut Vec<u8>,
    [ofs, text, change]: [&[u8]; 3],
) -> Result<(), AllocError> {
    let read = RecordChange::Read {
        text: Vec::from_slice(alloc, text)?,
        fs: Vec::from_slice(alloc, b" ")?,
        newline: false,
    };
    drop(record.apply(alloc, read)?);
    let Some(change) = change_of(alloc, ofs, change)? else {
        return Ok(());
    };
    let mut earlier = record.apply(alloc, change)?;
    let added = out.extend_from_slice(record.text());
    record.undo(&mut earlier);
    drop(earlier);
    added?;
    out.extend_from_slice(b" | ")?;
    out.extend_from_slice(record.text())
}
