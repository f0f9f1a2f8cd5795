//! The names that the parts of a program define, and those that they mention.

ghost use Rattle.std.specs.Prelude.{◌≡◌, OnOk};
ghost use Rattle.rawk_names.specs.Items as spec;
ghost use Rattle.rawk_names.specs.Noted.{shown};

use crate::register::Register;
use crate::statements::{note_action, note_pattern, note_statements};
use crate::table::Table;
use crate::usage::{Signature, What};
use rawk_grammar::tree::Item;
use rawk_parsing::tree::Name;
use rawk_special::{COUNT, FIELD_COUNT, is_special, special_name};
use std::alloc::{AllocError, Global};

impl Register {
    /// No names.
    pub(crate) fn empty(alloc: Global) -> Register
        ensures { shown result ≡ spec.empty }
    {
        Register {
            scope: 0,
            functions: Table::new(alloc),
            signatures: Vec::new(alloc),
            variables: Table::new(alloc),
            patterns: Table::new(alloc),
            uses: Vec::new(alloc),
        }
    }

    /// Only the special variables, where there are no names yet.
    fn add_specials(&mut self, alloc: Global) -> Result<(), AllocError>
        requires { shown self.old ≡ spec.empty }
        ensures { OnOk result (shown self.new ≡ spec.start) }
    {
        self.add_variable(alloc, 0, FIELD_COUNT)?;
        for number in 0..COUNT {
            self.add_variable(alloc, 0, special_name(number))?;
        }
        Ok(())
    }

    fn add_variable(&mut self, alloc: Global, scope: usize, word: &[u8]) -> Result<(), AllocError>
        ensures { OnOk result (shown self.new ≡ spec.with_variable scope word.now (shown self.old)) }
    {
        let _place = self.variables.number(alloc, scope, word)?;
        Ok(())
    }

    fn add_function(&mut self, alloc: Global, function: &Name) -> Result<(), AllocError>
        ensures { OnOk result (shown self.new ≡ spec.begun function.now (shown self.old)) }
    {
        let _place = self.functions.number(alloc, 0, function.word.as_slice())?;
        Ok(())
    }

    /// The parameters since a place are those of one function.
    fn sign(&mut self, first: usize) -> Result<(), AllocError>
        ensures { OnOk result (shown self.new ≡ spec.signed first (shown self.old)) }
    {
        let end = self.variables.len();
        self.signatures.push(Signature { first, end })?;
        Ok(())
    }

    #[tactic(auto, unfolding(crate::specs::Items::parameter_defined))]
    fn define_parameter(
        &mut self,
        alloc: Global,
        scope: usize,
        name: &Name,
    ) -> Result<(), AllocError>
        ensures { OnOk result (shown self.new ≡ spec.parameter_defined scope name.now (shown self.old)) }
    {
        let word = name.word.as_slice();
        if is_special(word) {
            return self.push(name.left, What::Misuse);
        }
        match self.variables.find(scope, word) {
            Some(_) => self.push(name.left, What::Misuse),
            None => self.add_variable(alloc, scope, word),
        }
    }

    fn define_parameters(
        &mut self,
        alloc: Global,
        scope: usize,
        parameters: &[Name],
    ) -> Result<(), AllocError>
        ensures { OnOk result (shown self.new ≡ spec.parameters_defined scope parameters.now (shown self.old)) }
    {
        for parameter in parameters {
            self.define_parameter(alloc, scope, parameter)?;
        }
        Ok(())
    }

    /// The parameters of the newest function.
    fn define_signature(&mut self, alloc: Global, parameters: &[Name]) -> Result<(), AllocError>
        ensures { OnOk result (shown self.new ≡ spec.function_in parameters.now (shown self.old)) }
    {
        let first = self.variables.len();
        let scope = self.functions.len();
        self.define_parameters(alloc, scope, parameters)?;
        self.sign(first)
    }

    #[tactic(auto, unfolding(crate::specs::Items::function_defined))]
    fn define_function(
        &mut self,
        alloc: Global,
        function: &Name,
        parameters: &[Name],
    ) -> Result<(), AllocError>
        ensures { OnOk result (shown self.new ≡ spec.function_defined function.now parameters.now (shown self.old)) }
    {
        let word = function.word.as_slice();
        if is_special(word) {
            return self.push(function.left, What::Misuse);
        }
        match self.functions.find(0, word) {
            Some(_) => self.push(function.left, What::Misuse),
            None => {
                self.add_function(alloc, function)?;
                self.define_signature(alloc, parameters)
            }
        }
    }

    fn define_item(&mut self, alloc: Global, item: &Item) -> Result<(), AllocError>
        ensures { OnOk result (shown self.new ≡ spec.defined item.now (shown self.old)) }
    {
        match item {
            Item::Function(_, function, parameters, _) => {
                self.define_function(alloc, function, parameters.as_slice())
            }
            Item::Begin(_) => Ok(()),
            Item::End(_) => Ok(()),
            Item::Always(_, _) => Ok(()),
            Item::Rule(_, _) => Ok(()),
        }
    }

    fn define_items(&mut self, alloc: Global, items: &[Item]) -> Result<(), AllocError>
        ensures { OnOk result (shown self.new ≡ spec.all_defined items.now (shown self.old)) }
    {
        for item in items {
            self.define_item(alloc, item)?;
        }
        Ok(())
    }

    #[tactic(auto, unfolding(crate::specs::Items::parameter_checked))]
    fn check_parameter(&mut self, name: &Name) -> Result<(), AllocError>
        ensures { OnOk result (shown self.new ≡ spec.parameter_checked name.now (shown self.old)) }
    {
        match self.functions.find(0, name.word.as_slice()) {
            None => Ok(()),
            Some(_) => self.push(name.left, What::Misuse),
        }
    }

    fn check_parameters(&mut self, parameters: &[Name]) -> Result<(), AllocError>
        ensures { OnOk result (shown self.new ≡ spec.parameters_checked parameters.now (shown self.old)) }
    {
        for parameter in parameters {
            self.check_parameter(parameter)?;
        }
        Ok(())
    }

    /// Enters a function.
    #[tactic(auto, unfolding(crate::specs::Items::inside))]
    fn enter(&mut self, function: &Name)
        ensures { shown self.new ≡ spec.inside function.now (shown self.old) }
    {
        let _count = self.functions.len();
        self.scope = match self.functions.find(0, function.word.as_slice()) {
            None => 0,
            Some(number) => number + 1,
        };
    }

    fn leave(&mut self)
        ensures { shown self.new ≡ spec.within 0 (shown self.old) }
    {
        self.scope = 0;
    }

    fn note_item(&mut self, alloc: Global, item: &Item) -> Result<(), AllocError>
        ensures { OnOk result (shown self.new ≡ spec.item_noted item.now (shown self.old)) }
    {
        match item {
            Item::Begin(statements) => note_statements(alloc, self, statements.as_slice()),
            Item::End(statements) => note_statements(alloc, self, statements.as_slice()),
            Item::Always(_, statements) => note_statements(alloc, self, statements.as_slice()),
            Item::Rule(pattern, action) => {
                note_pattern(alloc, self, pattern.get())?;
                note_action(alloc, self, action)
            }
            Item::Function(_, function, parameters, body) => {
                self.enter(function);
                self.check_parameters(parameters.as_slice())?;
                note_statements(alloc, self, body.as_slice())?;
                self.leave();
                Ok(())
            }
        }
    }

    fn note_items(&mut self, alloc: Global, items: &[Item]) -> Result<(), AllocError>
        ensures { OnOk result (shown self.new ≡ spec.all_noted items.now (shown self.old)) }
    {
        for item in items {
            self.note_item(alloc, item)?;
        }
        Ok(())
    }

    /// What a program says of its names, where there are none yet.
    #[tactic(auto, unfolding(crate::specs::Items::program))]
    pub(crate) fn read(&mut self, alloc: Global, items: &[Item]) -> Result<(), AllocError>
        requires { shown self.old ≡ spec.empty }
        ensures { OnOk result (shown self.new ≡ spec.program items.now) }
    {
        self.add_specials(alloc)?;
        self.define_items(alloc, items)?;
        self.note_items(alloc, items)
    }
}
