//! Instructions, one behind another; and jumps forward, which are left open until their ends are known.

ghost use Rattle.std.specs.Prelude.{◌≡◌, ℕ, [], ◌∷◌, ◌++◌, ◌+◌, ◌-◌, ◌<◌, if◌then◌else◌, Some, pos, IfOk, OnOk, length, slice_get};
ghost use Rattle.rawk_selection.specs.Readings.{getline_code, missing_code, getline_to_code};
ghost use Rattle.rawk_selection.specs.Jumps.{over, led, closed, passed_tests, tests_written};

use rawk_code::{Destination, Instr, Op, Operand, Simple};
use rawk_items::Items;
use rawk_value::{Arithmetic, Bytes};
use rawk_words::Array;
use std::alloc::{AllocError, Global};

/// One more instruction.
pub fn put(code: &mut Vec<Instr>, instr: Instr) -> Result<(), AllocError>
    ensures { OnOk result (code.new.items ≡ code.old.items ++ instr ∷ []) }
{
    code.push(instr)?;
    Ok(())
}

/// A point.
pub fn put_point(code: &mut Vec<Instr>, site: usize) -> Result<(), AllocError>
    ensures { OnOk result (code.new.items ≡ code.old.items ++ Instr.Point (Some site) ∷ []) }
{
    put(code, Instr::Point(Some(site)))
}

/// What has its value at once goes onto the operands.
pub fn put_push(code: &mut Vec<Instr>, from: Simple) -> Result<(), AllocError>
    ensures { OnOk result (code.new.items ≡ code.old.items ++ Instr.Do (Op.Push from) ∷ []) }
{
    put(code, Instr::Do(Op::Push(from)))
}

/// A text goes onto the operands.
pub fn put_text(alloc: Global, code: &mut Vec<Instr>, text: &Bytes) -> Result<(), AllocError>
    ensures { OnOk result (code.new.items ≡ code.old.items ++ Instr.Do (Op.Push (Simple.Text text.now)) ∷ []) }
{
    let copy = text.copy()?;
    put_push(code, Simple::Text(copy))
}

/// A change of a place, whose old number becomes the newest operand.
pub fn put_after(code: &mut Vec<Instr>, op: Arithmetic, x: Destination) -> Result<(), AllocError>
    ensures { OnOk result (code.new.items ≡ code.old.items ++ Instr.Do (Op.After op x) ∷ []) }
{
    put(code, Instr::Do(Op::After(op, x)))
}

/// A change of a place, which leaves no value.
pub fn put_step(code: &mut Vec<Instr>, op: Arithmetic, x: Destination) -> Result<(), AllocError>
    ensures { OnOk result (code.new.items ≡ code.old.items ++ Instr.Do (Op.StoreUpdate op x (Operand.Given (Simple.Number (pos 1)))) ∷ []) }
{
    let one = Operand::Given(Simple::Number(1));
    put(code, Instr::Do(Op::StoreUpdate(op, x, one)))
}

/// Copies of what a call or a function has in a row.
pub fn items_of<T: Copy + Drop>(alloc: Global, from: &[T]) -> Result<Items<T>, AllocError>
    ensures { IfOk result (λ items. items ≡ from.now) }
{
    let mut items = Items::new(alloc);
    for item in from {
        items.push(*item)?;
    }
    Ok(items)
}

/// A call of a function with `count` values and with these arrays.
pub fn put_call(
    alloc: Global,
    code: &mut Vec<Instr>,
    function: usize,
    count: usize,
    arrays: &[Array],
) -> Result<(), AllocError>
    ensures { OnOk result (code.new.items ≡ code.old.items ++ Instr.Call function count arrays.now ∷ []) }
{
    let arrays = items_of(alloc, arrays)?;
    put(code, Instr::Call(function, count, arrays))
}

/// The text that a format makes of `count` arguments.
pub fn put_sprintf(code: &mut Vec<Instr>, count: usize) -> Result<(), AllocError>
    ensures { OnOk result (code.new.items ≡ code.old.items ++ Instr.Do (Op.Sprintf count) ∷ []) }
{
    put(code, Instr::Do(Op::Sprintf(count)))
}

/// A reading, and behind it whether there was a record.
pub fn put_getline(code: &mut Vec<Instr>) -> Result<(), AllocError>
    ensures { OnOk result (code.new.items ≡ code.old.items ++ getline_code) }
{
    put(code, Instr::ReadRecord(2))?;
    put_push(code, Simple::Number(1))?;
    put(code, Instr::GoOn(1))?;
    put_push(code, Simple::Number(0))
}

/// The reading of a text, which a place takes, and behind it whether there was a record.
pub fn put_getline_to(code: &mut Vec<Instr>, x: Destination) -> Result<(), AllocError>
    ensures { OnOk result (code.new.items ≡ code.old.items ++ getline_to_code x) }
{
    put(code, Instr::ReadText(3))?;
    put(code, Instr::Do(Op::Store(x, Operand::Popped)))?;
    put_push(code, Simple::Number(1))?;
    put_missing(code, x)
}

/// 0 in place of a place's part, which is passed.
fn put_missing(code: &mut Vec<Instr>, x: Destination) -> Result<(), AllocError>
    ensures { OnOk result (code.new.items ≡ code.old.items ++ missing_code x) }
{
    match x {
        Destination::Variable(_) | Destination::FieldCount | Destination::Field(_) => {
            put(code, Instr::GoOn(1))?;
            put_push(code, Simple::Number(0))
        }
        Destination::FieldBelow | Destination::ElementBelow(_) => {
            put(code, Instr::GoOn(2))?;
            put(code, Instr::Do(Op::Pop))?;
            put_push(code, Simple::Number(0))
        }
    }
}

/// A part of a text.
pub fn put_part(code: &mut Vec<Instr>) -> Result<(), AllocError>
    ensures { OnOk result (code.new.items ≡ code.old.items ++ Instr.Do Op.Substr ∷ []) }
{
    put(code, Instr::Do(Op::Substr))
}

/// What a range's flag becomes.
pub fn put_range(code: &mut Vec<Instr>, range: usize, on: bool) -> Result<(), AllocError>
    ensures { OnOk result (code.new.items ≡ code.old.items ++ Instr.Do (Op.SetRange range on) ∷ []) }
{
    put(code, Instr::Do(Op::SetRange(range, on)))
}

/// A jump to a place.
pub fn put_go_to(code: &mut Vec<Instr>, place: usize) -> Result<(), AllocError>
    ensures { OnOk result (code.new.items ≡ code.old.items ++ Instr.GoTo place ∷ []) }
{
    put(code, Instr::GoTo(place))
}

/// A jump forward that is left open.
pub fn put_open(code: &mut Vec<Instr>) -> Result<(), AllocError>
    ensures { OnOk result (code.new.items ≡ code.old.items ++ Instr.GoOn 0 ∷ []) }
{
    put(code, Instr::GoOn(0))
}

/// The jump forward at a place passes `count` instructions.
pub fn patch(code: &mut Vec<Instr>, place: usize, count: usize)
    requires { place < length code.now.items }
    ensures items { code.new.items ≡ led code.old.items place count }
    ensures size { length code.new.items ≡ length code.old.items }
{
    lead(&mut code[place], count);
}

/// A jump forward passes `count` instructions.
fn lead(jump: &mut Instr, count: usize)
    ensures { jump.new ≡ over count jump.old }
{
    match jump {
        Instr::GoOn(passed) => *passed = count,
        Instr::SkipIfFalse(passed, _) => *passed = count,
        Instr::SkipIfTrue(passed, _) => *passed = count,
        Instr::SkipIfOn(_, passed) => *passed = count,
        Instr::Decide(_, passed) => *passed = count,
        Instr::ReadRecord(passed) => *passed = count,
        _ => {}
    }
}

/// The jump forward at a place passes each instruction behind it.
pub fn pass_rest(code: &mut Vec<Instr>, place: usize)
    requires { place < length code.now.items }
    ensures { code.new.items ≡ led code.old.items place (length code.old.items - place - 1) }
{
    let count = code.len() - place - 1;
    patch(code, place, count);
}

/// The jumps at these places, which lead behind the last instruction.
pub fn close(code: &mut Vec<Instr>, ends: &[usize])
    requires { (i n : ℕ) → slice_get ends.now i ≡ Some n → n < length code.now.items }
    ensures items { code.new.items ≡ closed (length code.old.items) ends.now code.old.items }
    ensures size { length code.new.items ≡ length code.old.items }
{
    let last = code.len();
    for end in ends {
        patch(code, *end, last - (*end + 1));
    }
}

/// The jump behind tests whose jumps stand at these places, and the place of that jump, which is left open. Where one of them decides, they lead to it (`led`), or else past it.
pub fn end_tests(code: &mut Vec<Instr>, leaps: &[usize], led: bool) -> Result<usize, AllocError>
    requires { (i n : ℕ) → slice_get leaps.now i ≡ Some n → n < length code.now.items }
    ensures items { IfOk result (λ place. code.new.items ≡ tests_written led leaps.now code.old.items) }
    ensures place { IfOk result (λ place. place ≡ length code.old.items + (if led then 1 else 0)) }
{
    if led {
        pass_tests(code, leaps, 1)?;
        let place = code.len();
        put_open(code)?;
        Ok(place)
    } else {
        let place = code.len();
        pass_tests(code, leaps, 0)?;
        Ok(place)
    }
}

/// A jump over `count` instructions, past which the jumps at these places lead.
fn pass_tests(code: &mut Vec<Instr>, leaps: &[usize], count: usize) -> Result<(), AllocError>
    requires { (i n : ℕ) → slice_get leaps.now i ≡ Some n → n < length code.now.items }
    ensures items { OnOk result (code.new.items ≡ passed_tests count leaps.now code.old.items) }
    ensures size { OnOk result (length code.new.items ≡ length code.old.items + 1) }
{
    put(code, Instr::GoOn(count))?;
    close(code, leaps);
    Ok(())
}
