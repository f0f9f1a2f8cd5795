//! What names stand for where a part of a program stands.

ghost use Rattle.std.specs.Prelude.{◌≡◌, IsTrue, Some};
ghost use Rattle.rawk_names.specs.Named.{known, variable_of};
ghost use Rattle.rawk_resolution.specs.InOrder.{names_array, names_scalar};
ghost use Rattle.rawk_resolution.specs.Meant.{array_at, first_parameter, global_array, is_there, marked_array, scalar_at, sense_of, unmarked_scalar, variable_array, variable_scalar};

use rawk_names::{Meaning, Names, Variable};
use rawk_parsing::tree::Name;
use rawk_tree::{Array, Scalar};

/// The names of a program, and the scope: 0 outside functions, inside one more than the function's number.
#[derive(Drop)]
pub struct Scope<'a> {
    pub names: &'a Names,
    pub number: usize,
}

/// Where the parameters of the function around stand among all variables.
fn first_parameter(scope: &Scope<'_>) -> usize
    ensures { result ≡ first_parameter (known scope.now.names.now) scope.now.number }
{
    match scope.names.signature(scope.number.saturating_sub(1)) {
        None => 0,
        Some(signature) => signature.first,
    }
}

/// What a variable is that is no array.
fn variable_scalar(scope: &Scope<'_>, variable: Variable) -> Scalar
    ensures { result ≡ variable_scalar (known scope.now.names.now) scope.now.number variable }
{
    match variable {
        Variable::FieldCount => Scalar::FieldCount,
        Variable::Global(number) => Scalar::Global(number),
        Variable::Parameter(number) => Scalar::Local(number.saturating_sub(first_parameter(scope))),
    }
}

/// The scalar of a variable, by its place among all variables, if it is no array.
fn unmarked_scalar(scope: &Scope<'_>, variable: usize) -> Option<Scalar>
    ensures { result ≡ unmarked_scalar (known scope.now.names.now) scope.now.number variable }
{
    if scope.names.is_array(variable) {
        None
    } else {
        Some(variable_scalar(scope, scope.names.variable(variable)))
    }
}

fn scalar_at(scope: &Scope<'_>, meaning: Option<Meaning>) -> Option<Scalar>
    ensures { result ≡ scalar_at (known scope.now.names.now) scope.now.number meaning }
{
    match meaning {
        None => None,
        Some(Meaning::Function(_)) => None,
        Some(Meaning::Variable(variable)) => unmarked_scalar(scope, variable),
    }
}

/// The scalar that a name stands for, if it stands for one. It takes no memory.
fn scalar_of(scope: &Scope<'_>, word: &[u8]) -> Option<Scalar>
    ensures { result ≡ (sense_of scope.now).scalar word.now }
{
    scalar_at(scope, scope.names.meaning(scope.number, word))
}

/// The same, of a name that does.
pub fn the_scalar(scope: &Scope<'_>, name: &Name) -> Scalar
    requires { IsTrue (names_scalar (sense_of scope.now) name.now) }
    ensures { (sense_of scope.now).scalar name.now.word ≡ Some result }
{
    match scalar_of(scope, name.word.as_slice()) {
        Some(scalar) => scalar,
        None => unreachable!(),
    }
}

/// The array of a global that is not special, by its place among all variables.
fn global_array(names: &Names, variable: usize) -> Option<Array>
    ensures { result ≡ global_array (known names.now) variable }
{
    let first = names.first_own_global();
    if variable < first {
        None
    } else {
        Some(Array::Global(variable - first))
    }
}

/// The array of a variable that is one; a special variable is none.
fn variable_array(scope: &Scope<'_>, variable: usize) -> Option<Array>
    ensures { let names = known scope.now.names.now in result ≡ variable_array names scope.now.number variable (variable_of names variable) }
{
    match scope.names.variable(variable) {
        Variable::FieldCount => None,
        Variable::Global(_) => global_array(scope.names, variable),
        Variable::Parameter(number) => {
            Some(Array::Local(number.saturating_sub(first_parameter(scope))))
        }
    }
}

/// The array of a variable, by its place among all variables, if it is one.
fn marked_array(scope: &Scope<'_>, variable: usize) -> Option<Array>
    ensures { result ≡ marked_array (known scope.now.names.now) scope.now.number variable }
{
    if !scope.names.is_array(variable) {
        return None;
    }
    variable_array(scope, variable)
}

fn array_at(scope: &Scope<'_>, meaning: Option<Meaning>) -> Option<Array>
    ensures { result ≡ array_at (known scope.now.names.now) scope.now.number meaning }
{
    match meaning {
        None => None,
        Some(Meaning::Function(_)) => None,
        Some(Meaning::Variable(variable)) => marked_array(scope, variable),
    }
}

/// The array that a name stands for, if it stands for one. It takes no memory.
pub fn array_of(scope: &Scope<'_>, word: &[u8]) -> Option<Array>
    ensures { result ≡ (sense_of scope.now).array word.now }
{
    array_at(scope, scope.names.meaning(scope.number, word))
}

/// The same, of a name that does.
pub fn the_array(scope: &Scope<'_>, name: &Name) -> Array
    requires { IsTrue (names_array (sense_of scope.now) name.now) }
    ensures { (sense_of scope.now).array name.now.word ≡ Some result }
{
    match array_of(scope, name.word.as_slice()) {
        Some(array) => array,
        None => unreachable!(),
    }
}

/// The number of the function that a name stands for. It takes no memory.
pub fn the_function(scope: &Scope<'_>, name: &Name) -> usize
    requires { IsTrue (is_there ((sense_of scope.now).function name.now.word)) }
    ensures { (sense_of scope.now).function name.now.word ≡ Some result }
{
    match scope.names.entry_of(name.word.as_slice()) {
        Some(function) => function,
        None => unreachable!(),
    }
}
