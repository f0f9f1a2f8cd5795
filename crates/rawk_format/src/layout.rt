//! What a specification takes of the arguments, and how a value is then laid out.

ghost use Rattle.std.specs.Prelude.{◌≡◌, unsigned_abs, drop};
ghost use Rattle.rawk_value.specs.Values.{next_ok};
ghost use Rattle.rawk_format.specs.Format.{star, star_count, limited, asked_width, precision_from, asked_precision, settled, layout_of};

use crate::specification::{Amount, Conversion, Flags, LIMIT, Specification};
use rawk_value::fault::Fault;
use rawk_value::number::number_of;
use rawk_value::value::Value;

/// A specification whose width and precision are settled.
#[derive(Clone, Copy)]
pub struct Layout {
    pub flags: Flags,
    /// Whether spaces fill on the right.
    pub left: bool,
    pub width: usize,
    pub precision: Option<usize>,
    pub conversion: Conversion,
}

/// What stands before a number's digits.
#[derive(Clone, Copy)]
pub enum Head {
    Nothing,
    Minus,
    Plus,
    Space,
    Prefix,
    UpperPrefix,
}

/// A number as its conversion writes it.
#[derive(Clone, Copy)]
pub struct Figure {
    pub head: Head,
    pub base: u64,
    pub upper: bool,
    pub size: u64,
    /// The least number of digits.
    pub least: usize,
    pub point: bool,
    /// The zeros after the point.
    pub zeros: usize,
    /// Whether zeros fill after the head.
    pub filled: bool,
}

// The number of the next argument.
fn star(values: &[Value]) -> Result<i64, Fault>
    ensures { result ≡ star values.now }
{
    match values.first() {
        None => Err(Fault::BadFormat),
        Some(value) => number_of(value),
    }
}

/// How many arguments a width or a precision takes.
pub fn star_count(amount: Amount) -> usize
    ensures { result ≡ star_count amount }
{
    match amount {
        Amount::Missing => 0,
        Amount::Given(_) => 0,
        Amount::Argument => 1,
    }
}

fn asked_width(amount: Amount, values: &[Value]) -> Result<i64, Fault>
    ensures { result ≡ asked_width amount values.now }
{
    match amount {
        Amount::Missing => Ok(0),
        Amount::Given(n) => Ok(i64::from(n)),
        Amount::Argument => width_within(star(values)?),
    }
}

fn width_within(width: i64) -> Result<i64, Fault>
    ensures { result ≡ next_ok (limited (unsigned_abs width)) (λ n. Ok width) }
{
    if width.unsigned_abs() <= LIMIT {
        Ok(width)
    } else {
        Err(Fault::BadFormat)
    }
}

fn asked_precision(amount: Amount, values: &[Value]) -> Result<Option<usize>, Fault>
    ensures { result ≡ asked_precision amount values.now }
{
    match amount {
        Amount::Missing => Ok(None),
        Amount::Given(n) => Ok(Some(n as usize)),
        Amount::Argument => precision_from(star(values)?),
    }
}

fn precision_from(precision: i64) -> Result<Option<usize>, Fault>
    ensures { result ≡ precision_from precision }
{
    if precision < 0 {
        Ok(None)
    } else if precision.unsigned_abs() <= LIMIT {
        Ok(Some(precision.unsigned_abs() as usize))
    } else {
        Err(Fault::BadFormat)
    }
}

fn settled(specification: Specification, width: i64, precision: Option<usize>) -> Layout
    ensures { result ≡ settled specification width precision }
{
    Layout {
        flags: specification.flags,
        left: specification.flags.minus || width < 0,
        width: width.unsigned_abs() as usize,
        precision,
        conversion: specification.conversion,
    }
}

/// The layout of a specification, for which each `*` takes an argument. It is `BadFormat` where one is missing, or its size is
/// above 1,000,000, and has the faults of its number.
pub fn layout_of(specification: Specification, values: &[Value]) -> Result<Layout, Fault>
    ensures { result ≡ layout_of specification values.now }
{
    let width = asked_width(specification.width, values)?;
    let others = left_after(values, star_count(specification.width));
    let precision = asked_precision(specification.precision, others)?;
    Ok(settled(specification, width, precision))
}

/// The arguments after the first ones.
pub fn left_after(values: &[Value], count: usize) -> &[Value]
    ensures { result.now ≡ drop count values.now }
{
    if count < values.len() {
        &values[count..]
    } else {
        &[]
    }
}
