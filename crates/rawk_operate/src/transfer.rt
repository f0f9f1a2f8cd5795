//! Where an instruction leads.

ghost use Rattle.std.specs.Prelude.{◌≡◌};
ghost use Rattle.rawk_code.specs.Actions.{decides};
ghost use Rattle.rawk_operate.specs.Done.{led_by};

use rawk_store::registers::Ending;
use rawk_value::Fault;
use rawk_words::Logic;

/// Where an instruction leads.
#[derive(Clone, Copy)]
pub enum Transfer {
    /// to the next instruction
    Next,
    /// past this many instructions behind the next
    Skip(usize),
    /// to a place
    To(usize),
    /// to the end of the run
    Over(Ending),
    /// to a point with this site, which is still to be entered
    Point(Option<usize>),
    /// to a record that is still to be read; past this many instructions where there is none
    Read(usize),
    /// to a record whose text is still to be read; past this many instructions where there is none
    ReadText(usize),
    /// to the END actions, or in them to the end
    Quit,
    /// to the reading of the next record, where a main rule runs
    NextRecord,
    /// to the entry of a function, with this many operands that are still to be taken
    Call(usize, usize),
    /// out of the innermost activation, which is still to be removed
    Return,
}

/// What came of an operation.
#[derive(Clone, Copy)]
pub enum Outcome {
    /// it leads to the next instruction
    Next,
    /// its fault ends the run
    Faulted(Fault),
}

/// Whether a truth decides `&&` or `||`.
#[inline(always)]
pub fn decides(logic: Logic, holds: bool) -> bool
    ensures { result ≡ decides logic holds }
{
    match logic {
        Logic::And => !holds,
        Logic::Or => holds,
    }
}

/// Where an operation leads.
#[inline(always)]
pub fn led_by(outcome: Outcome) -> Transfer
    ensures { result ≡ led_by outcome }
{
    match outcome {
        Outcome::Next => Transfer::Next,
        Outcome::Faulted(fault) => over(fault),
    }
}

/// A fault of an operation ends the run.
#[inline(always)]
pub fn faulted(fault: Fault) -> Outcome
    ensures { led_by result ≡ Transfer.Over (Ending.Faulted fault) }
{
    Outcome::Faulted(fault)
}

/// A fault ends the run.
#[inline(always)]
pub fn over(fault: Fault) -> Transfer
    ensures { result ≡ Transfer.Over (Ending.Faulted fault) }
{
    Transfer::Over(Ending::Faulted(fault))
}
