//! What a session asks of a machine.

ghost use Rattle.std.specs.Prelude.{◌≡◌, ◌+◌, ◌-◌, ◌^◌, ◌<◌, Bool, length, Ok, None, Some, IfOk, OnOk, OnErr, IsTrue, IsFalse, is_some, option_map, option_copied, slice_get};
ghost use Rattle.rawk_devices.specs.Inputs.{Input, before as behind};
ghost use Rattle.rawk_devices.specs.declared.source.Ending.TheVariants.{Failed};
ghost use Rattle.rawk_record.specs.FieldRefs.{ref_value};
ghost use Rattle.rawk_frames.specs.Frame.{locals_now};
ghost use Rattle.rawk_store.specs.State.{array_in, assigned, count_in, element_in, keys_in};
ghost use Rattle.rawk_code.specs.Actions.{fault_of};
ghost use Rattle.rawk_answers.specs.Positions.{Position, Snapshot, IsPosition, Stands, IsTakenBack, gone_to, back_at, with_set, has_set_at};
ghost use Rattle.rawk_store.specs.Observed.{Observed, seen};
ghost use Rattle.rawk_answers.specs.Watching.{differs};
ghost use Rattle.rawk_answers.specs.Activations.{call_of};
ghost use Rattle.rawk_answers.specs.Works.{Work, Draws, read_failed};

use crate::stop::Watched;
use rawk_devices::Source;
use rawk_frames::Local;
use rawk_record::FieldRef;
use rawk_store::{Ending, Target};
use rawk_tree::Program;
use rawk_value::{Bytes, Fault, Value};
use rawk_words::Array;
use std::alloc::{AllocError, Global};

/// A call that goes on: its function, by its number from 0, and the site of its calling point.
#[derive(Clone, Copy)]
pub struct Call {
    pub function: usize,
    pub site: Option<usize>,
}

/// A machine that steps forward and backward through the run of its program.
///
/// The whole input is not known beforehand: `may_be` says which ones may still be it. Forward steps read, and so leave fewer of them.
pub trait Stepper: Drop {
    /// What its input is read from.
    type Device: Source + Drop;

    /// Where it stands.
    ghost position: { Self → Position };

    /// The inputs that may still be the whole input.
    ghost may_be: { Self → Input → Type 0 };

    /// What it holds.
    ghost held: { Self → Snapshot };

    /// What it has done up to now, whichever way it went.
    ghost work: { Self → Work Self.Device };

    /// What a watch saw before the last step.
    ghost before: { Self → Observed };

    /// Whether it has stepped, and nothing was set or taken back since.
    ghost fresh: { Self → Bool };

    /// What is so of each machine. It does nothing.
    fn known(&self)
        ensures position { IsPosition (position self.now) }
        ensures some { (input : Input) × may_be self.now input }
        ensures comes { (rest : Input) → Self.Device.may_give (work self.now).source rest → may_be self.now (behind (work self.now).read rest) }
        ensures read_failed { (held self.now).over ≡ Some read_failed → Self.Device.over (work self.now).source ≡ Some Failed }
        ensures stands { (input : Input) → may_be self.now input → Stands input (position self.now) (held self.now) };

    /// The program.
    fn program(&self) -> &Program
        ensures { result.now ≡ (position self.now).program };

    /// The number of the present point, or of the ending.
    fn point(&self) -> u64
        ensures { result ≡ (position self.now).point };

    /// Whether it stands at the ending.
    fn is_over(&self) -> bool
        ensures { result ≡ is_some (held self.now).over };

    /// How the run ended, if it stands at the ending.
    fn ending(&self) -> Option<Ending>
        ensures { result ≡ (held self.now).over };

    /// The site of the present point, or that of the ending.
    fn site(&self) -> Option<usize>
        ensures { result ≡ (held self.now).site };

    /// The number of activations.
    fn depth(&self) -> usize
        ensures { result ≡ length (held self.now).state.frames };

    /// The call of an activation, counted from the innermost, which is 0; `None` for a number that none has.
    fn frame(&self, number: usize) -> Option<Call>
        ensures { result ≡ option_map call_of (slice_get (held self.now).state.frames number) };

    /// A local of the innermost activation, by its number from 0; `None` for a number that none has.
    fn local(&self, number: usize) -> Option<&Local>
        ensures { option_copied result ≡ slice_get (locals_now (held self.now).state.frames) number };

    /// The exit status so far.
    fn status(&self) -> u8
        ensures { result ≡ (held self.now).state.status };

    /// The output so far.
    fn output(&self) -> &[u8]
        ensures { result.now ≡ (held self.now).state.output };

    /// A global's value; `None` for a number that no global has.
    fn global(&self, number: usize) -> Option<&Value>
        ensures { option_copied result ≡ slice_get (held self.now).state.globals number };

    /// The bytes of `$0`.
    fn text(&self) -> &[u8]
        ensures { result.now ≡ (held self.now).state.whole };

    /// NF.
    fn field_count(&self) -> usize
        ensures { result ≡ length (held self.now).state.fields };

    /// A field's value, counted from 1; `None` past the last.
    fn field(&self, number: usize) -> Option<FieldRef<'_>>
        requires { 0 < number }
        ensures { option_map ref_value result ≡ slice_get (held self.now).state.fields (number - 1) };

    /// An element of an array, if both are there.
    fn element(&self, array: Array, key: &[u8]) -> Option<&Value>
        ensures { option_copied result ≡ element_in (array_in array (held self.now).state.frames) key.now (held self.now).state.arrays };

    /// How many elements an array has, 0 where it is not there.
    fn element_count(&self, array: Array) -> usize
        ensures { result ≡ count_in (array_in array (held self.now).state.frames) (held self.now).state.arrays };

    /// The keys of an array, in byte order. It fails where memory is refused.
    fn array_keys(&self, alloc: Global, array: Array) -> Result<Vec<Bytes>, AllocError>
        ensures { IfOk result (λ keys. keys.items ≡ keys_in (array_in array (held self.now).state.frames) (held self.now).state.arrays) };

    /// Whether what a place holds differs between the points before and after the last step: the value, in kind or content, or whether an element is there.
    /// It takes no memory.
    fn changed(&self, place: &Watched) -> bool
        requires { IsTrue (fresh self.now) }
        ensures { result ≡ differs place.now (before self.now) (seen (held self.now).state) };

    /// Goes to the next point or to the ending. It fails where memory is refused, and then stands as before. A source that is over is asked for nothing. The count of
    /// instructions that were run rises, until it is the greatest number of 128 bits.
    fn advance(&mut self, alloc: Global) -> Result<(), AllocError>
        requires { (held self.old).over ≡ None }
        ensures moved { OnOk result (position self.new ≡ gone_to ((position self.old).point + 1) (position self.old)) }
        ensures before { OnOk result (before self.new ≡ seen (held self.old).state) }
        ensures fresh { OnOk result (IsTrue (fresh self.new)) }
        ensures err { OnErr result (position self.new ≡ position self.old) }
        ensures narrows { (input : Input) → may_be self.new input → may_be self.old input }
        ensures draws { Draws Self.Device.over Self.Device.handed (work self.old) (work self.new) }
        ensures counted { (work self.old).executed + 1 < 2 ^ 128 → (work self.old).executed < (work self.new).executed };

    /// Goes back to the point before, and takes back the sets made at this one. `false` only at the oldest point kept, and
    /// then nothing changes. It takes no memory, reads nothing and runs nothing: the source stays as it is, and whatever might have been the input still may.
    fn retreat(&mut self) -> bool
        ensures moved { IsTrue result → position self.new ≡ back_at ((position self.old).point - 1) (position self.old) }
        ensures kept { IsTrue result → (position self.old).oldest < (position self.old).point }
        ensures before { IsTrue result → before self.new ≡ seen (held self.old).state }
        ensures fresh { IsTrue result → IsTrue (fresh self.new) }
        ensures oldest { IsFalse result → (position self.old).point ≡ (position self.old).oldest }
        ensures same { IsFalse result → position self.new ≡ position self.old }
        ensures narrows { (input : Input) → may_be self.new input → may_be self.old input }
        ensures reads_nothing { (input : Input) → may_be self.old input → may_be self.new input }
        ensures idle { work self.new ≡ work self.old };

    /// Assigns at this point. A fault changes nothing. It fails where memory is refused, and then nothing changes.
    fn set(
        &mut self,
        alloc: Global,
        target: Target,
        value: Value,
    ) -> Result<Option<Fault>, AllocError>
        requires { (held self.old).over ≡ None }
        ensures set { result ≡ Ok None → position self.new ≡ with_set target value (position self.old) }
        ensures fault { IfOk result (λ fault. fault ≡ fault_of (assigned target value (held self.old).state)) }
        ensures same { IfOk result (λ fault. IsTrue (is_some fault) → position self.new ≡ position self.old) }
        ensures err { OnErr result (position self.new ≡ position self.old) }
        ensures narrows { (input : Input) → may_be self.new input → may_be self.old input }
        ensures reads_nothing { (input : Input) → may_be self.old input → may_be self.new input }
        ensures idle { work self.new ≡ work self.old };

    /// Takes back the last set made at this point. `false`: there is none, and nothing changes. It takes no memory, reads nothing and runs nothing.
    fn take_back(&mut self) -> bool
        ensures result { result ≡ has_set_at (position self.old).point (position self.old).sets }
        ensures taken { IsTrue result → IsTakenBack (position self.old) (position self.new) }
        ensures same { IsFalse result → position self.new ≡ position self.old }
        ensures narrows { (input : Input) → may_be self.new input → may_be self.old input }
        ensures reads_nothing { (input : Input) → may_be self.old input → may_be self.new input }
        ensures idle { work self.new ≡ work self.old };

    /// The source, as it was left. All else is let go.
    fn into_source(self) -> Self::Device
        ensures { result ≡ (work self).source };
}
