//! What a program says of its names: what is known of these while the text is walked, and in the end.

ghost use Rattle.std.specs.Prelude.{◌≡◌, ◌<◌, IfOk, OnOk, Some, length, slice_get};
ghost use Rattle.rawk_keys.specs.ArrayKey.{ArrayKey};
ghost use Rattle.rawk_names.specs.Noted as spec;
ghost use Rattle.rawk_names.specs.Noted.{is_pattern, pattern_left, shown};

use crate::table::Table;
use crate::usage::{Manner, Signature, Usage, What};
use rawk_parsing::tree::Name;
use std::alloc::{AllocError, Global};

/// Functions, variables and regular expressions so far, and the uses of names in the order of the text.
#[derive(Drop)]
pub struct Register {
    /// 0 outside functions, else one more than the number of the function
    pub(crate) scope: usize,
    pub(crate) functions: Table,
    pub(crate) signatures: Vec<Signature>,
    pub(crate) variables: Table,
    pub(crate) patterns: Table,
    pub(crate) uses: Vec<Usage>,
}

/// The parameter for an argument, from 0, of a function with this signature.
fn parameter_of(signature: Signature, argument: usize) -> Option<usize>
    ensures { result ≡ spec.parameter_of (Some signature) argument }
{
    let Signature { first, end } = signature;
    if first < end && argument < end - first {
        Some(first + argument)
    } else {
        None
    }
}

/// The parameter for an argument, from 0, of a function.
fn parameter_in(signatures: &[Signature], function: Option<usize>, argument: usize) -> Option<usize>
    ensures { result ≡ spec.parameter_at signatures.now function argument }
{
    match function {
        None => None,
        Some(function) => match signatures.get(function) {
            None => None,
            Some(signature) => parameter_of(*signature, argument),
        },
    }
}

/// Whether a function has at least `count` parameters.
fn takes_in(signatures: &[Signature], function: Option<usize>, count: usize) -> bool
    ensures { result ≡ spec.takes_at signatures.now function count }
{
    match function {
        None => false,
        Some(function) => match signatures.get(function) {
            None => false,
            Some(signature) => count <= signature.end.saturating_sub(signature.first),
        },
    }
}

fn use_of(manner: Manner, variable: Option<usize>) -> What
    ensures { result ≡ spec.use_of manner variable }
{
    match variable {
        Some(variable) => What::Named(manner, variable),
        None => What::Misuse,
    }
}

fn is_pattern(what: What, number: usize) -> bool
    ensures { result ≡ is_pattern what number }
{
    match what {
        What::Pattern(pattern) => pattern == number,
        What::Named(_, _) => false,
        What::Value(_) => false,
        What::Misuse => false,
    }
}

/// The place of the first use of a regular expression; 0 where there is none.
fn left_of(uses: &[Usage], number: usize) -> usize
    ensures { result ≡ pattern_left number uses.now }
{
    for usage in uses {
        if is_pattern(usage.what, number) {
            return usage.left;
        }
    }
    0
}

impl Register {
    /// How many regular expressions there are. They are numbered from 0 in the order in which they appear, each once.
    pub fn pattern_count(&self) -> usize
        ensures { result ≡ length self.now.patterns }
    {
        self.patterns.len()
    }

    /// The bytes of a regular expression.
    pub fn pattern_word(&self, number: usize) -> &[u8]
        requires { number < length self.now.patterns }
        ensures { (entry : ArrayKey) → slice_get self.now.patterns number ≡ Some entry → result.now ≡ entry.key }
    {
        self.patterns.word(number)
    }

    /// The place where a regular expression stands first: the number of bytes from there to the end of the text.
    pub fn pattern_left(&self, number: usize) -> usize
        ensures { result ≡ pattern_left number self.now.uses.items }
    {
        left_of(&self.uses, number)
    }

    /// Adds a use.
    pub(crate) fn push(&mut self, left: usize, what: What) -> Result<(), AllocError>
        ensures { OnOk result (shown self.new ≡ spec.with_use left what (shown self.old)) }
    {
        self.uses.push(Usage { left, what })?;
        Ok(())
    }

    /// The variable that a name means; none is a function.
    #[tactic(auto, unfolding(crate::specs::Noted::meant))]
    fn meant(&mut self, alloc: Global, word: &[u8]) -> Result<Option<usize>, AllocError>
        ensures { IfOk result (λ variable. (variable, shown self.new) ≡ spec.meant word.now (shown self.old)) }
    {
        match self.variables.find(self.scope, word) {
            Some(variable) => Ok(Some(variable)),
            None => match self.functions.find(0, word) {
                Some(_) => Ok(None),
                None => Ok(Some(self.variables.number(alloc, 0, word)?)),
            },
        }
    }

    /// A name, used in a manner.
    #[tactic(auto, unfolding(crate::specs::Noted::named))]
    pub(crate) fn name(
        &mut self,
        alloc: Global,
        manner: Manner,
        name: &Name,
    ) -> Result<(), AllocError>
        ensures { OnOk result (shown self.new ≡ spec.named manner name.now (shown self.old)) }
    {
        let variable = self.meant(alloc, name.word.as_slice())?;
        self.push(name.left, use_of(manner, variable))
    }

    /// The parameter for an argument of a call.
    #[tactic(auto, unfolding(crate::specs::Noted::parameter))]
    fn parameter(&self, function: &Name, argument: usize) -> Option<usize>
        ensures { result ≡ spec.parameter function.now.word argument (shown self.now) }
    {
        parameter_in(
            &self.signatures,
            self.functions.find(0, function.word.as_slice()),
            argument,
        )
    }

    /// A name alone as an argument of a call.
    pub(crate) fn passed(
        &mut self,
        alloc: Global,
        name: &Name,
        function: &Name,
        argument: usize,
    ) -> Result<(), AllocError>
        ensures { OnOk result (shown self.new ≡ spec.named (spec.manner_of (spec.parameter function.now.word argument (shown self.old))) name.now (shown self.old)) }
    {
        match self.parameter(function, argument) {
            None => self.name(alloc, Manner::Either, name),
            Some(parameter) => self.name(alloc, Manner::Argument(parameter), name),
        }
    }

    /// Another argument of a call.
    #[tactic(auto, unfolding(crate::specs::Noted::computed))]
    pub(crate) fn computed(&mut self, function: &Name, argument: usize) -> Result<(), AllocError>
        ensures { OnOk result (shown self.new ≡ spec.computed function.now argument (shown self.old)) }
    {
        match self.parameter(function, argument) {
            None => Ok(()),
            Some(parameter) => self.push(function.left, What::Value(parameter)),
        }
    }

    /// A call with `count` arguments.
    #[tactic(auto, unfolding(crate::specs::Noted::called, crate::specs::Noted::takes))]
    pub(crate) fn called(&mut self, function: &Name, count: usize) -> Result<(), AllocError>
        ensures { OnOk result (shown self.new ≡ spec.called function.now count (shown self.old)) }
    {
        let number = self.functions.find(0, function.word.as_slice());
        if takes_in(&self.signatures, number, count) {
            Ok(())
        } else {
            self.push(function.left, What::Misuse)
        }
    }

    /// A regular expression.
    #[tactic(auto, unfolding(crate::specs::Noted::pattern))]
    pub(crate) fn pattern(
        &mut self,
        alloc: Global,
        left: usize,
        pattern: &[u8],
    ) -> Result<(), AllocError>
        ensures { OnOk result (shown self.new ≡ spec.pattern left pattern.now (shown self.old)) }
    {
        let number = self.patterns.number(alloc, 0, pattern)?;
        self.push(left, What::Pattern(number))
    }
}
