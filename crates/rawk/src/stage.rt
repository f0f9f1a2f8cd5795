//! A machine with its program.

ghost use Rattle.std.specs.Prelude.{◌≡◌, ◌++◌, IsTrue, is_some, not, option_copied, option_map, unwrap_or};
ghost use Rattle.rawk_value.specs.declared.value.Value.TheVariants.{Uninitialized};
ghost use Rattle.std.specs.Str.{bytes_eq};
ghost use Rattle.rawk_record.specs.FieldRefs.{ref_value};
ghost use Rattle.rawk_store.specs.Lent.{lent};
ghost use Rattle.rawk_answers.specs.Watching.{same_held, same_value, scalar_at};
ghost use Rattle.rawk_store.specs.Observed.{seen};
ghost use Rattle.rawk.specs.Staged.{IsStage, seen_or};

use rawk_debug::{Call, Scalar, Stepper, Watched};
use rawk_devices::Source;
use rawk_frames::Local;
use rawk_history::Keeper;
use rawk_machine::Machine;
use rawk_store::{Ending, FieldRef, Target, ValueRef};
use rawk_tree::Program;
use rawk_value::{Bytes, Fault, Value};
use rawk_words::Array;
use std::alloc::{AllocError, Global};
use std::marker::Model;

/// A machine that runs a program's code under a keeper that keeps, and the program.
#[derive(Drop)]
pub struct Stage<R: Source + Drop, K: Keeper> {
    program: Program,
    machine: Machine<R, K>,
}

impl<R: Source + Drop, K: Keeper> Model for Stage<R, K> {
    ghost use Rattle.rawk.specs.Staged.{Staged};

    ghost Value = { Staged R };

    ghost use Rattle.std.specs.Coded.{codes};
    ghost use Rattle.rawk_value.specs.contracts.value.Value as value;
    ghost use Rattle.rawk_code.specs.contracts.formula.Formula as formula;
    ghost use Rattle.rawk_machine.specs.Elements.{elements_code};
    ghost use Rattle.rawk_tree.specs.contracts.tree.Expr as expr;
    ghost use Rattle.rawk_tree.specs.contracts.tree.Stmt as stmt;

    ghost coded = { Prim.hlevel (codes, expr.the_row.coded, stmt.the_row.coded, formula.the_row.coded, elements_code value.the_row.coded, R.code) };

    ghost view = { λ s. record { program = s.program; machine = s.machine } };

    ghost use Rattle.rawk.specs.Staged.{IsStage};

    ghost invariant = { λ s. IsStage R.may_give s.program s.machine };
}

impl<R: Source + Drop, K: Keeper> Stage<R, K> {
    /// The program's machine. It takes no memory.
    pub fn new(program: Program, machine: Machine<R, K>) -> Self
        requires { IsStage R.may_give program machine }
        ensures { result ≡ record { program = program; machine = machine } }
    {
        Stage { program, machine }
    }

    /// Whether a scalar's value differs between the points before and after the last step.
    fn scalar_changed(&self, place: Scalar) -> bool
        requires { IsTrue (is_some self.now.machine.before) }
        ensures { result ≡ not (same_value (scalar_at place (seen_or self.now.machine.before)) (scalar_at place (seen self.now.machine.state))) }
    {
        match place {
            Scalar::Global(number) => {
                !same_global(
                    self.machine.earlier_global(number),
                    self.machine.global(number),
                )
            }
            Scalar::FieldCount => self.machine.earlier_field_count() != self.machine.field_count(),
            Scalar::Field(number) => {
                if number == 0 {
                    return self.machine.earlier_text() != self.machine.text();
                }
                !same_field(
                    self.machine.earlier_field(number),
                    self.machine.field(number),
                )
            }
        }
    }
}

impl<R: Source + Drop, K: Keeper> Stepper for Stage<R, K> {
    ghost use Rattle.std.specs.Prelude.{[], is_some};
    ghost use Rattle.rawk_machine.specs.Standing.{MayCome};
    ghost use Rattle.rawk.specs.Staged.{position_of, held_of, seen_or, work_of};

    type Device = R;

    ghost position = { λ s. position_of s.program s.machine };

    ghost may_be = { λ s input. MayCome R.may_give s.machine [] input };

    ghost held = { λ s. held_of s.machine };

    ghost work = { λ s. work_of s.machine };

    ghost before = { λ s. seen_or s.machine.before };

    ghost fresh = { λ s. is_some s.machine.before };

    fn known(&self) {
        self.machine.known();
        self.machine.step();
    }

    fn program(&self) -> &Program {
        &self.program
    }

    fn point(&self) -> u64 {
        self.machine.point()
    }

    fn is_over(&self) -> bool {
        self.machine.ending().is_some()
    }

    fn ending(&self) -> Option<Ending> {
        self.machine.ending()
    }

    fn site(&self) -> Option<usize> {
        self.machine.site()
    }

    fn depth(&self) -> usize {
        self.machine.depth()
    }

    fn frame(&self, number: usize) -> Option<Call> {
        match self.machine.frame(number) {
            Some(activation) => Some(Call {
                function: activation.function,
                site: activation.site,
            }),
            None => None,
        }
    }

    fn local(&self, number: usize) -> Option<&Local> {
        self.machine.local(number)
    }

    fn status(&self) -> u8 {
        self.machine.status()
    }

    fn output(&self) -> &[u8] {
        self.machine.output()
    }

    fn global(&self, number: usize) -> Option<&Value> {
        self.machine.global(number)
    }

    fn text(&self) -> &[u8] {
        self.machine.text()
    }

    fn field_count(&self) -> usize {
        self.machine.field_count()
    }

    fn field(&self, number: usize) -> Option<FieldRef<'_>> {
        self.machine.field(number)
    }

    fn element(&self, array: Array, key: &[u8]) -> Option<&Value> {
        self.machine.element_named(array, key)
    }

    fn element_count(&self, array: Array) -> usize {
        self.machine.elements_named(array)
    }

    fn array_keys(&self, alloc: Global, array: Array) -> Result<Vec<Bytes>, AllocError> {
        self.machine.keys_named(alloc, array)
    }

    fn changed(&self, place: &Watched) -> bool {
        match place {
            Watched::Scalar(place) => self.scalar_changed(*place),
            Watched::Element(array, key) => {
                !same_held(
                    self.machine.earlier_element(*array, key.as_slice()),
                    self.machine.element(*array, key.as_slice()),
                )
            }
        }
    }

    fn advance(&mut self, alloc: Global) -> Result<(), AllocError> {
        self.machine.known();
        match self.machine.advance(alloc) {
            Ok(_) => Ok(()),
            Err(refused) => Err(refused),
        }
    }

    fn retreat(&mut self) -> bool {
        self.machine.known();
        self.machine.retreat()
    }

    fn set(
        &mut self,
        alloc: Global,
        target: Target,
        value: Value,
    ) -> Result<Option<Fault>, AllocError> {
        self.machine.set(alloc, target, value)
    }

    fn take_back(&mut self) -> bool {
        self.machine.known();
        self.machine.take_back()
    }

    fn into_source(self) -> R {
        let Stage { program, machine } = self;
        drop(program);
        machine.into_source()
    }
}

/// Whether two values are the same, in kind and content.
fn same_value(left: &Value, right: &Value) -> bool
    ensures { result ≡ same_value left.now right.now }
{
    match (left, right) {
        (Value::Uninitialized, Value::Uninitialized) => true,
        (Value::Number(m), Value::Number(n)) => *m == *n,
        (Value::String(s), Value::String(t)) => s.as_slice() == t.as_slice(),
        (Value::Input(s), Value::Input(t)) => s.as_slice() == t.as_slice(),
        _ => false,
    }
}

/// Whether an element is not there twice, or has the same value twice.
fn same_held(left: Option<&Value>, right: Option<&Value>) -> bool
    ensures { result ≡ same_held (option_copied left.entry) (option_copied right.entry) }
{
    match (left, right) {
        (Some(left), Some(right)) => same_value(left, right),
        (None, None) => true,
        _ => false,
    }
}

/// Whether a global has the same value twice; one that is not there is uninitialised.
fn same_global(left: Option<ValueRef<'_>>, right: Option<&Value>) -> bool
    ensures { result ≡ same_value (unwrap_or (option_map lent left.entry) Uninitialized) (unwrap_or (option_copied right.entry) Uninitialized) }
{
    match (left, right) {
        (Some(ValueRef::Whole(left)), Some(right)) => same_value(left, right),
        (Some(ValueRef::Text(front, behind)), Some(Value::String(text))) => {
            is_joined(front, behind, text.as_slice())
        }
        (Some(ValueRef::Whole(Value::Uninitialized)), None) => true,
        (None, Some(Value::Uninitialized)) => true,
        (None, None) => true,
        _ => false,
    }
}

/// Whether a text is these two side by side.
fn is_joined(front: &[u8], behind: &[u8], text: &[u8]) -> bool
    ensures { result ≡ bytes_eq (front.now ++ behind.now) text.now }
{
    if text.len() < front.len() {
        return false;
    }
    let (first, rest) = text.split_at(front.len());
    front == first && behind == rest
}

/// Whether a field has the same value twice; one past the last is uninitialised.
fn same_field(left: Option<FieldRef<'_>>, right: Option<FieldRef<'_>>) -> bool
    ensures { result ≡ same_value (unwrap_or (option_map ref_value left.entry) Uninitialized) (unwrap_or (option_map ref_value right.entry) Uninitialized) }
{
    match (left, right) {
        (Some(FieldRef::Piece(s)), Some(FieldRef::Piece(t))) => s == t,
        (Some(FieldRef::Piece(s)), Some(FieldRef::Kept(Value::Input(t)))) => s == t.as_slice(),
        (Some(FieldRef::Kept(Value::Input(s))), Some(FieldRef::Piece(t))) => s.as_slice() == t,
        (Some(FieldRef::Kept(left)), Some(FieldRef::Kept(right))) => same_value(left, right),
        (Some(FieldRef::Kept(Value::Uninitialized)), None) => true,
        (None, Some(FieldRef::Kept(Value::Uninitialized))) => true,
        (None, None) => true,
        _ => false,
    }
}
