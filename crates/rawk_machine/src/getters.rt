//! What a machine holds.

ghost use Rattle.std.specs.Prelude.{◌≡◌, ◌≤◌, ◌<◌, ◌+◌, ◌-◌, IfOk, MatchOption, None, Some, length, slice_get, option_copied, option_map};
ghost use Rattle.std.specs.FinMap.{len};
ghost use Rattle.rawk_value.specs.Values.{Bytes};
ghost use Rattle.rawk_frames.specs.Frame.{Frame, IsOf, locals_now};
ghost use Rattle.rawk_arrays.specs.Elements.{array_at, element_at};
ghost use Rattle.rawk_store.specs.State.{array_in, count_in, element_in, keys_in};
ghost use Rattle.rawk_devices.specs.Inputs.{Input};
ghost use Rattle.rawk_record.specs.FieldRefs.{ref_value};
ghost use Rattle.rawk_machine.specs.Kept.{AllBelow, Few};
ghost use Rattle.rawk_machine.specs.Standing.{MayCome, LastMade};

use crate::machine::Machine;
use rawk_devices::Source;
use rawk_history::Keeper;
use rawk_store::{Activation, Ending, FieldRef, Local};
use rawk_value::{Bytes, Value};
use rawk_words::Array;
use std::alloc::{AllocError, Global};

impl<R: Source + Drop, K: Keeper> Machine<R, K> {
    /// What is so of each machine. It does nothing.
    pub fn known(&self)
        ensures within { self.now.point ≤ self.now.steps }
        ensures back { length self.now.history ≤ self.now.point }
        ensures few { Few self.now.limit (length self.now.history) }
        ensures sets { AllBelow (self.now.point + 1) self.now.sets }
        ensures made { LastMade self.now.point self.now.sets self.now.unset }
        ensures still { (gone : Bytes) → (input : Input) × MayCome R.may_give self.now gone input }
    {
        let _point = self.point;
    }

    /// How many activations there are.
    pub fn depth(&self) -> usize
        ensures { result ≡ length self.now.state.frames }
    {
        self.store.frames.depth()
    }

    /// An activation, counted from the innermost, which is 0: its function, its calling point and the site of that; `None` past the outermost.
    pub fn frame(&self, number: usize) -> Option<&Activation>
        ensures { MatchOption result (slice_get self.now.state.frames number ≡ None) (λ a. (f : Frame) × (slice_get self.now.state.frames number ≡ Some f) × IsOf a.now f) }
    {
        self.store.frames.frame(number)
    }

    /// A local of the innermost activation, by its number from 0; `None` past the last, and outside of functions.
    pub fn local(&self, number: usize) -> Option<&Local>
        ensures { option_copied result ≡ slice_get (locals_now self.now.state.frames) number }
    {
        self.store.frames.local(number)
    }

    /// How many arrays there are.
    pub fn array_count(&self) -> usize
        ensures { result ≡ length self.now.state.arrays }
    {
        self.store.arrays.len()
    }

    /// How many elements an array has, by its number from 0, at once.
    pub fn element_count(&self, array: usize) -> usize
        ensures { result ≡ len (array_at array self.now.state.arrays) }
    {
        self.store.arrays.count(array)
    }

    /// An element by the number of its array and its key, if it is there. It is not made.
    pub fn element(&self, array: usize, key: &[u8]) -> Option<&Value>
        ensures { option_copied result ≡ element_at array key.now self.now.state.arrays }
    {
        self.store.arrays.element(array, key)
    }

    /// An element of an array, if both are there. It is not made.
    pub fn element_named(&self, array: Array, key: &[u8]) -> Option<&Value>
        ensures { option_copied result ≡ element_in (array_in array self.now.state.frames) key.now self.now.state.arrays }
    {
        self.store.element(array, key)
    }

    /// How many elements an array has, 0 where it is not there. The number is kept.
    pub fn elements_named(&self, array: Array) -> usize
        ensures { result ≡ count_in (array_in array self.now.state.frames) self.now.state.arrays }
    {
        self.store.element_count(array)
    }

    /// The keys of an array in byte order, none where it is not there: a copy of each. It fails where memory is refused.
    pub fn keys_named(&self, alloc: Global, array: Array) -> Result<Vec<Bytes>, AllocError>
        ensures { IfOk result (λ keys. keys.items ≡ keys_in (array_in array self.now.state.frames) self.now.state.arrays) }
    {
        self.store.array_keys(alloc, array)
    }

    /// How the run ended, if the machine stands at the ending.
    pub fn ending(&self) -> Option<Ending>
        ensures { result ≡ self.now.ending }
    {
        self.store.registers.now.ending
    }

    /// The output that was not given yet.
    pub fn output(&self) -> &[u8]
        ensures { result.now ≡ self.now.state.output }
    {
        self.store.output.bytes()
    }

    /// A global's value, by its number from 0; `None` for a number that no global has.
    pub fn global(&self, number: usize) -> Option<&Value>
        ensures { option_copied result ≡ slice_get self.now.state.globals number }
    {
        self.store.globals.value(number)
    }

    /// Whether a range is on, by its number from 0; `None` for a number that none has.
    pub fn range(&self, number: usize) -> Option<&bool>
        ensures { option_copied result ≡ slice_get self.now.state.ranges number }
    {
        self.store.ranges.value(number)
    }

    /// The bytes of `$0`.
    pub fn text(&self) -> &[u8]
        ensures { result.now ≡ self.now.state.whole }
    {
        self.store.current.text()
    }

    /// How many fields there are: `NF`.
    pub fn field_count(&self) -> usize
        ensures { result ≡ length self.now.state.fields }
    {
        self.store.current.field_count()
    }

    /// A field's value, counted from 1; `None` past the last.
    pub fn field(&self, number: usize) -> Option<FieldRef<'_>>
        requires { 0 < number }
        ensures { option_map ref_value result ≡ slice_get self.now.state.fields (number - 1) }
    {
        self.store.current.field(number)
    }
}
