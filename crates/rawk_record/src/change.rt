//! The changes of a record, and the way back.

ghost use Rattle.std.specs.Prelude.{◌≡◌, IfOk};
ghost use Rattle.rawk_record.specs.Changes.{changed_by, or_same};
ghost use Rattle.rawk_record.specs.Shown.{Shown, read_as, record_back};

use crate::record::Record;
use rawk_pieces::Separator;
use rawk_search::CachedExpression;
use rawk_slots::Reversible;
use rawk_value::{Fault, Value};
use std::alloc::{AllocError, Global};
use std::mem;

/// What is done to a record.
#[derive(Drop)]
pub enum RecordChange {
    /// It becomes a text with its fields by a field separator; `newline` says whether a newline separates too. Several bytes that are no
    /// extended regular expression change nothing.
    Read {
        text: Vec<u8>,
        fs: Vec<u8>,
        newline: bool,
    },
    /// The field of a number, from 1, gets a value, and `$0` is built anew with the separator between two fields; a number of 0 changes nothing.
    Field {
        number: usize,
        value: Value,
        separator: Vec<u8>,
    },
    /// The fields are cut or extended to this many, and `$0` is built anew with the separator between two fields.
    Count {
        count: usize,
        separator: Vec<u8>,
    },
}

/// The record that a text becomes by a field separator, where that separates.
fn read(alloc: Global, text: &[u8], fs: &[u8], newline: bool) -> Result<Option<Record>, AllocError>
    ensures { IfOk result (λ new. (old : Shown) → record_back old new ≡ or_same old (read_as text.now fs.now newline)) }
{
    let mut last = CachedExpression::new(alloc);
    match Separator::named(alloc, fs, &mut last) {
        Ok(separator) => {
            let mut new = Record::new(alloc);
            new.refill(alloc, text, separator, newline)?;
            Ok(Some(new))
        }
        Err(Fault::OutOfMemory) => Err(AllocError),
        Err(_) => Ok(None),
    }
}

/// The record that a change makes of another, where it is another one.
fn changed(alloc: Global, old: &Record, change: RecordChange) -> Result<Option<Record>, AllocError>
    ensures { IfOk result (λ new. record_back old.now new ≡ changed_by old.now change) }
{
    match change {
        RecordChange::Read { text, fs, newline } => read(alloc, &text, &fs, newline),
        RecordChange::Field {
            number,
            value,
            separator,
        } => {
            if number == 0 {
                return Ok(None);
            }
            let mut new = Record::new(alloc);
            new.rebuild_with_field(alloc, old, number, value, &separator)?;
            Ok(Some(new))
        }
        RecordChange::Count { count, separator } => {
            let mut new = Record::new(alloc);
            new.rebuild_with_count(alloc, old, count, &separator)?;
            Ok(Some(new))
        }
    }
}

impl Reversible for Record {
    ghost use Rattle.std.specs.Prelude.{◌≡◌, refl};
    ghost use Rattle.std.proofs.Common.{◌∙◌, sym};
    ghost use Rattle.rawk_record.specs.Changes.{changed_by};
    ghost use Rattle.rawk_record.specs.Shown.{Shown, record_back};

    type Change = RecordChange;

    type Undo = Option<Record>;

    // Its text and its fields.
    ghost Seen = { Shown };

    ghost sees = { λ part. part };

    ghost grown = { λ old new. new ≡ old };

    ghost makes = { λ old change new. new ≡ changed_by old change };

    ghost leads_back = { λ now undo earlier. record_back now undo ≡ earlier };

    ghost grown_same = { λ part. refl };

    ghost grown_seen = { λ old new h. h };

    ghost makes_one = { λ old new other change h k. h ∙ sym k };

    /// The new record is built beside the old one, and they change places: the entry is the old record, where it is another one.
    fn apply(&mut self, alloc: Global, change: RecordChange) -> Result<Option<Record>, AllocError> {
        let mut entry = changed(alloc, self, change)?;
        if let Some(record) = &mut entry {
            mem::swap(self, record);
        }
        Ok(entry)
    }

    /// The records change places: the entry is then the newer record.
    fn undo(&mut self, undo: &mut Option<Record>)
        ensures back { (earlier : Shown) → record_back self.old undo.old ≡ earlier → self.new ≡ earlier }
        ensures newer { record_back self.new undo.new ≡ self.old }
    {
        if let Some(record) = undo {
            mem::swap(self, record);
        }
    }
}
