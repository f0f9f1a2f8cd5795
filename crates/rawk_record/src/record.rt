//! A record: the bytes of `$0` once, and its fields as places in them.

ghost use Rattle.std.specs.Prelude.{◌≡◌, ◌<◌, ◌-◌, ◌^◌, IfSome, OnOk, length, slice_get};
ghost use Rattle.std.specs.Option.{option_map};
ghost use Rattle.rawk_record.specs.Changed.{rebuilt, resized, with_value};
ghost use Rattle.rawk_record.specs.Shown.{no_record, split_record};
ghost use Rattle.rawk_record.specs.Drafts.{IsPlaced, shown_of};
ghost use Rattle.rawk_record.specs.FieldRefs.{ref_value};
ghost use Rattle.rawk_record.specs.Helds.{IsHeld, shown_in};
ghost use Rattle.rawk_record.specs.Uncuts.{divided_record};

use crate::build::{build_with_count, build_with_value};
use crate::held::{Held, buffers_of, new_parts, refill_parts};
use crate::parts::{FieldRef, Parts, field_in, no_parts};
use crate::short::Short;
use crate::uncut::{Divider, Uncut, divider_of};
use rawk_pieces::Separator;
use rawk_value::Value;
use std::alloc::{AllocError, Global};
use std::marker::Model;

/// A text of this many bytes, or more, is always cut, so that its fields can be counted.
const LONG: usize = 1 << 62;

/// A text that is not cut comes in the place of a record, whatever that is. It fails where memory is refused.
#[inline(never)]
fn put_uncut(
    alloc: Global,
    held: &mut Held,
    text: &[u8],
    divider: Divider,
) -> Result<(), AllocError>
    requires short { length text.now < 2 ^ 62 }
    requires held { IsHeld held.old }
    ensures did { OnOk result (shown_in held.new ≡ divided_record divider text.now) }
    ensures held { IsHeld held.new }
{
    *held = Held::Uncut(Uncut::new(alloc, text, divider)?);
    Ok(())
}

/// A text that is not cut comes in the place of a record, whose buffer is used again where it is one too. It fails where memory is refused, and then it may be any record.
#[inline(always)]
fn leave_uncut(
    alloc: Global,
    held: &mut Held,
    text: &[u8],
    divider: Divider,
) -> Result<(), AllocError>
    requires short { length text.now < 2 ^ 62 }
    requires held { IsHeld held.old }
    ensures did { OnOk result (shown_in held.new ≡ divided_record divider text.now) }
    ensures held { IsHeld held.new }
{
    if let Held::Uncut(uncut) = held {
        return uncut.refill(text, divider);
    }
    put_uncut(alloc, held, text, divider)
}

/// A record and its fields.
#[derive(Drop)]
pub struct Record {
    held: Held,
}

impl Model for Record {
    ghost use Rattle.rawk_record.specs.Helds.{IsHeld, shown_in};
    ghost use Rattle.rawk_record.specs.Shown.{Shown};

    ghost Value = { Shown };

    ghost view = { λ r. shown_in r.held };

    ghost invariant = { λ r. IsHeld r.held };
}

impl Record {
    /// The empty record. It takes no memory.
    pub fn new(alloc: Global) -> Self
        ensures { result ≡ no_record }
    {
        Record {
            held: Held::Wide(no_parts(alloc)),
        }
    }

    /// The same record without buffers of its own, where it is short. It takes no memory.
    #[inline(always)]
    pub fn in_place(&self) -> Option<Record>
        ensures { IfSome result (λ r. r ≡ self.now) }
    {
        match &self.held {
            Held::Wide(parts) => match Short::of(parts) {
                Some(short) => Some(Record {
                    held: Held::InPlace(short),
                }),
                None => None,
            },
            Held::InPlace(_) => None,
            Held::Uncut(_) => None,
        }
    }

    /// The parts, where it lies in buffers.
    pub(crate) fn in_buffers(&self) -> Option<&Parts>
        ensures same { IfSome result (λ parts. shown_of parts.now ≡ self.now) }
        ensures placed { IfSome result (λ parts. IsPlaced parts.now) }
    {
        match &self.held {
            Held::Wide(parts) => Some(parts),
            Held::InPlace(_) => None,
            Held::Uncut(_) => None,
        }
    }

    /// The bytes of `$0`.
    #[inline]
    pub fn text(&self) -> &[u8]
        ensures { result.now ≡ self.now.text }
    {
        match &self.held {
            Held::Wide(parts) => &parts.text,
            Held::InPlace(short) => short.text(),
            Held::Uncut(uncut) => uncut.text(),
        }
    }

    /// How many fields there are: `NF`.
    #[inline]
    pub fn field_count(&self) -> usize
        ensures value { result ≡ length self.now.fields }
        ensures small { result < 2 ^ 63 }
    {
        match &self.held {
            Held::Wide(parts) => parts.pieces.len(),
            Held::InPlace(short) => short.field_count(),
            Held::Uncut(uncut) => uncut.field_count(),
        }
    }

    /// A field by its number, from 1, and `None` past the last. It takes no memory.
    pub fn field(&self, number: usize) -> Option<FieldRef<'_>>
        requires { 0 < number }
        ensures { option_map ref_value result ≡ slice_get self.now.fields (number - 1) }
    {
        match &self.held {
            Held::Wide(parts) => field_in(parts, number),
            Held::InPlace(short) => short.field(number),
            Held::Uncut(uncut) => uncut.field(number),
        }
    }

    /// Becomes a text with its fields; `newline` says whether a newline separates too.
    ///
    /// Its buffers are used again. It fails where memory is refused, and then it may be any record.
    pub fn refill(
        &mut self,
        alloc: Global,
        text: &[u8],
        separator: Separator<'_>,
        newline: bool,
    ) -> Result<(), AllocError>
        ensures { OnOk result (self.new ≡ split_record separator.entry newline text.now) }
    {
        match &mut self.held {
            Held::Wide(parts) => refill_parts(alloc, parts, text, separator, newline),
            _ => {
                self.held = Held::Wide(new_parts(alloc, text, separator, newline)?);
                Ok(())
            }
        }
    }

    /// The same, but the text is not cut where that can wait: its fields are sought each time that they are asked for. It is for texts of which few fields are asked for.
    #[inline(always)]
    pub fn refill_uncut(
        &mut self,
        alloc: Global,
        text: &[u8],
        separator: Separator<'_>,
        newline: bool,
    ) -> Result<(), AllocError>
        ensures { OnOk result (self.new ≡ split_record separator.entry newline text.now) }
    {
        if text.len() < LONG {
            if let Some(divider) = divider_of(separator, newline) {
                return leave_uncut(alloc, &mut self.held, text, divider);
            }
        }
        self.refill(alloc, text, separator, newline)
    }

    /// Becomes another record with a value for the field of a number, from 1, and `$0` built anew: the fields between become uninitialised.
    ///
    /// Its buffers are used again. It fails where memory is refused, and then it may be any record.
    pub fn rebuild_with_field(
        &mut self,
        alloc: Global,
        earlier: &Record,
        number: usize,
        value: Value,
        separator: &[u8],
    ) -> Result<(), AllocError>
        requires { 0 < number }
        ensures { OnOk result (self.new ≡ rebuilt separator.now (with_value number value earlier.now.fields)) }
    {
        let mut parts = buffers_of(alloc, &mut self.held);
        build_with_value(alloc, &mut parts, earlier, number, value, separator)?;
        self.held = Held::Wide(parts);
        Ok(())
    }

    /// Becomes another record with this many fields, cut or extended by uninitialised ones, and `$0` built anew.
    ///
    /// Its buffers are used again. It fails where memory is refused, and then it may be any record.
    pub fn rebuild_with_count(
        &mut self,
        alloc: Global,
        earlier: &Record,
        count: usize,
        separator: &[u8],
    ) -> Result<(), AllocError>
        ensures { OnOk result (self.new ≡ rebuilt separator.now (resized count earlier.now.fields)) }
    {
        let mut parts = buffers_of(alloc, &mut self.held);
        build_with_count(alloc, &mut parts, earlier, count, separator)?;
        self.held = Held::Wide(parts);
        Ok(())
    }
}
