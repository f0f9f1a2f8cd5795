//! The parts before the first instruction.

ghost use Rattle.std.specs.Prelude.{◌≡◌, ◌++◌, [], false, length, replicate, IfOk, OnOk};
ghost use Rattle.rawk_value.specs.declared.value.Value.{Value};
ghost use Rattle.rawk_arrays.specs.Elements.{no_elements};
ghost use Rattle.rawk_arrays.specs.Laid.{arrays_of};
ghost use Rattle.rawk_special.specs.Special.{first_specials};
ghost use Rattle.rawk_code.specs.Trace.{with_first, settled};

use rawk_code::{FirstValue, Settings};
use rawk_special::{COUNT, first_value, global_number};
use rawk_store::{Arrays, Cells, Ranges};
use rawk_told::Code;
use rawk_value::{Bytes, Value};
use std::alloc::{AllocError, Global};

/// The special variables. It fails where memory is refused.
fn add_specials(alloc: Global, globals: &mut Cells) -> Result<(), AllocError>
    requires { globals.old.now ≡ [] }
    ensures { OnOk result (globals.new.now ≡ first_specials) }
{
    for number in 0..COUNT {
        globals.add(first_value(alloc, number)?)?;
    }
    Ok(())
}

/// The other globals, without values. It fails where memory is refused.
fn add_others(globals: &mut Cells, names: &[Bytes]) -> Result<(), AllocError>
    ensures { OnOk result (globals.new.now ≡ globals.old.now ++ replicate (length names.now) Value.Uninitialized) }
{
    for _name in names {
        globals.add(Value::Uninitialized)?;
    }
    Ok(())
}

/// The ranges, which are off. It fails where memory is refused.
fn add_ranges(ranges: &mut Ranges, count: usize) -> Result<(), AllocError>
    requires { ranges.old.now ≡ [] }
    ensures { OnOk result (ranges.new.now ≡ replicate count false) }
{
    for _number in 0..count {
        ranges.add(false)?;
    }
    Ok(())
}

/// One first value. A name that no global has is passed over. It fails where memory is refused.
fn settle_one(
    alloc: Global,
    globals: &mut Cells,
    names: &[Bytes],
    first: &FirstValue,
) -> Result<(), AllocError>
    ensures { OnOk result (globals.new.now ≡ with_first names.now first.now globals.old.now) }
{
    match global_number(names, first.name.as_slice()) {
        None => Ok(()),
        Some(number) => globals.set::<true>(number, Value::Input(first.text.copy()?)),
    }
}

/// Each first value, in their order. It fails where memory is refused.
fn settle_all(
    alloc: Global,
    globals: &mut Cells,
    names: &[Bytes],
    settings: &[FirstValue],
) -> Result<(), AllocError>
    ensures { OnOk result (globals.new.now ≡ settled names.now settings.now globals.old.now) }
{
    for first in settings {
        settle_one(alloc, globals, names, first)?;
    }
    Ok(())
}

/// The globals before the first instruction. It fails where memory is refused.
fn fill_globals(
    alloc: Global,
    globals: &mut Cells,
    names: &[Bytes],
    settings: &[FirstValue],
) -> Result<(), AllocError>
    requires { globals.old.now ≡ [] }
    ensures { OnOk result (globals.new.now ≡ settled names.now settings.now (first_specials ++ replicate (length names.now) Value.Uninitialized)) }
{
    add_specials(alloc, globals)?;
    add_others(globals, names)?;
    settle_all(alloc, globals, names, settings)
}

/// The globals, an array for each of those that are not special, and the ranges before the first instruction. It fails where memory is refused.
pub fn fill_first(
    alloc: Global,
    globals: &mut Cells,
    arrays: &mut Arrays,
    ranges: &mut Ranges,
    code: &Code,
    settings: &Settings,
) -> Result<(), AllocError>
    requires globals { globals.old.now ≡ [] }
    requires arrays { arrays_of arrays.old.now ≡ [] }
    requires ranges { ranges.old.now ≡ [] }
    ensures globals { OnOk result (globals.new.now ≡ settled code.now.names settings.now (first_specials ++ replicate (length code.now.names) Value.Uninitialized)) }
    ensures arrays { OnOk result (arrays_of arrays.new.now ≡ replicate (length code.now.names) no_elements) }
    ensures ranges { OnOk result (ranges.new.now ≡ replicate code.now.ranges false) }
{
    fill_globals(alloc, globals, code.names(), settings.as_slice())?;
    arrays.add_empty::<true>(code.names().len())?;
    add_ranges(ranges, code.ranges())
}

/// A copy of first values. It fails where memory is refused.
pub fn copy_settings(alloc: Global, settings: &Settings) -> Result<Settings, AllocError>
    ensures { IfOk result (λ copy. copy ≡ settings.now) }
{
    let mut copy = Settings::new(alloc);
    copy.set_seed(settings.seed());
    for first in settings.as_slice() {
        copy.assign(first.name.as_slice(), first.text.as_slice())?;
    }
    Ok(copy)
}
