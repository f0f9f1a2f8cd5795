//! What the names of a program are.

ghost use Rattle.std.specs.Prelude.{◌≡◌, ◌<◌, ◌-◌, Some, IfOk, IfErr, MatchOption, length, slice_get};
ghost use Rattle.rawk_keys.specs.ArrayKey.{ArrayKey, array_key};
ghost use Rattle.rawk_names.specs.Table.{place_of};
ghost use Rattle.rawk_names.specs.Items.{program};
ghost use Rattle.rawk_names.specs.Marking.{is_marked};
ghost use Rattle.rawk_names.specs.Noted.{shown};
ghost use Rattle.rawk_names.specs.Named.{AreArrays, IsFirst, IsNamed, IsRefused, NoMisuse, end_of_last, is_misuse, known, known_from, meaning_of, variable_of};

use crate::arrays::arrays;
use crate::register::Register;
use crate::table::Table;
use crate::usage::{Manner, SPECIALS, Signature, Usage, What};
use rawk_grammar::tree::Item;
use std::alloc::{AllocError, Global};

/// Why the names of a program are refused. A place is the number of bytes from there to the end of the text.
#[derive(Clone, Copy, PartialEq, Eq)]
pub enum NameError {
    OutOfMemory,
    /// The place of the first misuse of a name: those of definitions come first, then those of uses in the order of the text.
    Misused(usize),
}

impl From<AllocError> for NameError {
    ghost use Rattle.std.specs.Prelude.{◌≡◌};
    ghost use Rattle.rawk_names.specs.declared.names.NameError.TheVariants.{OutOfMemory};

    ghost from_gives = { λ _ e. e ≡ OutOfMemory };

    fn from(_: AllocError) -> NameError {
        NameError::OutOfMemory
    }
}

/// What a name is.
#[derive(Clone, Copy, PartialEq, Eq)]
pub enum Meaning {
    /// functions are numbered from 0 in the order of their definitions
    Function(usize),
    /// by its place among all variables
    Variable(usize),
}

/// What a variable is.
#[derive(Clone, Copy, PartialEq, Eq)]
pub enum Variable {
    /// NF
    FieldCount,
    /// the other special variables have the first numbers, the others of the program follow in the order in which they appear
    Global(usize),
    /// by its place among all variables; those of one function stand side by side
    Parameter(usize),
}

/// Functions, variables, and which of these are arrays.
#[derive(Drop)]
pub struct Names {
    functions: Table,
    signatures: Vec<Signature>,
    variables: Table,
    arrays: Vec<bool>,
}

fn is_array_in(arrays: &[bool], variable: usize) -> bool
    ensures { result ≡ is_marked arrays.now variable }
{
    match arrays.get(variable) {
        None => false,
        Some(flag) => *flag,
    }
}

/// Whether a use can't be, where these are the arrays.
fn misuses(arrays: &[bool], what: What) -> bool
    ensures { result ≡ is_misuse arrays.now what }
{
    match what {
        What::Named(Manner::Scalar, variable) => is_array_in(arrays, variable),
        What::Named(Manner::Array, variable) => variable < SPECIALS,
        What::Named(Manner::Either, _) => false,
        What::Named(Manner::Argument(_), variable) => {
            variable < SPECIALS && is_array_in(arrays, variable)
        }
        What::Value(parameter) => is_array_in(arrays, parameter),
        What::Pattern(_) => false,
        What::Misuse => true,
    }
}

/// The place of the first use that can't be.
fn first_misuse(uses: &[Usage], arrays: &[bool]) -> Option<usize>
    ensures { MatchOption result (NoMisuse arrays.now uses.now) (IsFirst arrays.now uses.now) }
{
    for usage in uses {
        if misuses(arrays, usage.what) {
            return Some(usage.left);
        }
    }
    None
}

fn arrays_of(alloc: Global, register: &Register) -> Result<Vec<bool>, AllocError>
    ensures { IfOk result (λ flags. AreArrays register.now.uses.items flags.items) }
{
    arrays(alloc, &register.uses)
}

fn misuse_of(register: &Register, arrays: &Vec<bool>) -> Option<usize>
    ensures { MatchOption result (NoMisuse arrays.now.items register.now.uses.items) (IsFirst arrays.now.items register.now.uses.items) }
{
    first_misuse(&register.uses, arrays)
}

fn names_from(register: Register, arrays: Vec<bool>) -> Names
    ensures { known result ≡ known_from register arrays.items }
{
    let Register {
        scope: _,
        functions,
        signatures,
        variables,
        patterns: _,
        uses: _,
    } = register;
    Names {
        functions,
        signatures,
        variables,
        arrays,
    }
}

/// The arrays among the names.
fn settled(alloc: Global, register: &Register) -> Result<Vec<bool>, NameError>
    ensures named { IfOk result (λ arrays. IsNamed (shown register.now) (known_from register.now arrays.items)) }
    ensures refused { IfErr result (IsRefused (shown register.now)) }
{
    let arrays = arrays_of(alloc, register)?;
    match misuse_of(register, &arrays) {
        Some(left) => Err(NameError::Misused(left)),
        None => Ok(arrays),
    }
}

/// What a program says of its names, and its regular expressions. It leaves the tree as it is, and fails where memory is refused.
pub fn note(alloc: Global, items: &[Item]) -> Result<Register, AllocError>
    ensures { IfOk result (λ register. shown register ≡ program items.now) }
{
    let mut register = Register::empty(alloc);
    register.read(alloc, items)?;
    Ok(register)
}

/// What the names of a program are, by what it says of them. Its regular expressions are not read.
///
/// It fails where memory is refused and where a name is misused: two functions of one name, a parameter twice in a list or with the name
/// of a function, a parameter or a function with the name of a special variable, a call of what is no function or with more arguments than
/// parameters, a function's name in another use, an array used as a scalar, a special variable used as an array, and for a parameter that
/// is an array an argument that is no name alone (POSIX awk, "User-Defined Functions"). `length(x)` uses x as neither.
pub fn resolve(alloc: Global, register: Register) -> Result<Names, NameError>
    ensures named { IfOk result (λ n. IsNamed (shown register) (known n)) }
    ensures refused { IfErr result (IsRefused (shown register)) }
{
    match settled(alloc, &register) {
        Ok(arrays) => Ok(names_from(register, arrays)),
        Err(error) => {
            drop(register);
            Err(error)
        }
    }
}

impl Names {
    /// What a name is where it stands: outside functions the scope is 0, inside one more than the function's number. None: the program
    /// has no such name there. It takes no memory.
    #[tactic(auto, unfolding(crate::specs::Named::meaning_of))]
    pub fn meaning(&self, scope: usize, word: &[u8]) -> Option<Meaning>
        ensures { result ≡ meaning_of (known self.now) scope word.now }
    {
        match self.variables.find(scope, word) {
            Some(variable) => Some(Meaning::Variable(variable)),
            None => match self.functions.find(0, word) {
                Some(function) => Some(Meaning::Function(function)),
                None => match self.variables.find(0, word) {
                    Some(variable) => Some(Meaning::Variable(variable)),
                    None => None,
                },
            },
        }
    }

    /// The number of a function, by its name. It takes no memory.
    pub fn entry_of(&self, word: &[u8]) -> Option<usize>
        ensures { result ≡ place_of (array_key 0 word.now) self.now.functions }
    {
        self.functions.find(0, word)
    }

    /// Where the parameters of a function stand among all variables.
    pub fn signature(&self, function: usize) -> Option<Signature>
        ensures { result ≡ slice_get self.now.signatures.items function }
    {
        self.signatures.get(function).copied()
    }

    /// How many variables there are, those with no use but special ones too.
    pub fn variable_count(&self) -> usize
        ensures { result ≡ length self.now.variables }
    {
        self.variables.len()
    }

    /// The name of a variable.
    pub fn variable_name(&self, variable: usize) -> &[u8]
        requires { variable < length self.now.variables }
        ensures { (entry : ArrayKey) → slice_get self.now.variables variable ≡ Some entry → result.now ≡ entry.key }
    {
        self.variables.word(variable)
    }

    /// Whether a variable is an array.
    pub fn is_array(&self, variable: usize) -> bool
        ensures { result ≡ is_marked self.now.arrays.items variable }
    {
        is_array_in(&self.arrays, variable)
    }

    /// The place of the first global that is not special; such globals stand behind all other variables.
    pub fn first_own_global(&self) -> usize
        ensures { result ≡ end_of_last self.now.signatures.items }
    {
        end_of_last(&self.signatures)
    }

    /// What a variable is.
    pub fn variable(&self, variable: usize) -> Variable
        ensures { result ≡ variable_of (known self.now) variable }
    {
        let behind = end_of_last(&self.signatures);
        if variable == 0 {
            Variable::FieldCount
        } else if variable < SPECIALS {
            Variable::Global(variable - 1)
        } else if variable < behind {
            Variable::Parameter(variable)
        } else {
            Variable::Global(variable - 1 - behind.saturating_sub(SPECIALS))
        }
    }
}

/// The place behind the last parameter.
fn end_of_last(signatures: &[Signature]) -> usize
    ensures { result ≡ end_of_last signatures.now }
{
    if signatures.len() == 0 {
        SPECIALS
    } else {
        signatures[signatures.len() - 1].end
    }
}
