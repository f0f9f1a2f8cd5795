//! Values.

ghost use Rattle.std.specs.Prelude.{◌≡◌, IfOk, OnErr, OnOk};

use crate::bytes::Bytes;
use std::alloc::{AllocError, Global};

/// What a variable, a field, an element or an operand is (POSIX awk, Expressions in awk).
#[derive(Drop)]
pub enum Value {
    /// Both the empty string and 0.
    Uninitialized,
    /// A whole number.
    Number(i64),
    /// A text that the program made.
    String(Bytes),
    /// A text that came from the input: a numeric string where it looks like a number.
    Input(Bytes),
}

impl Value {
    /// A copy. It takes no memory, and fails only where a count of owners is full.
    #[inline]
    pub fn copy(&self, _alloc: Global) -> Result<Value, AllocError>
        ensures { IfOk result (λ v. v ≡ self.now) }
    {
        match self {
            Value::Uninitialized => Ok(Value::Uninitialized),
            Value::Number(n) => Ok(Value::Number(*n)),
            Value::String(text) => Ok(Value::String(text.copy()?)),
            Value::Input(text) => Ok(Value::Input(text.copy()?)),
        }
    }

    /// Becomes a text that the program made, over such a text by `Bytes::assign`. It fails where memory is refused, and nothing has changed then.
    #[inline(always)]
    pub fn set_string(&mut self, alloc: Global, bytes: &[u8]) -> Result<(), AllocError>
        ensures ok { OnOk result (self.new ≡ Value.String bytes.now) }
        ensures err { OnErr result (self.new ≡ self.old) }
    {
        match self {
            Value::String(text) => text.assign(alloc, bytes),
            _ => self.become_string(alloc, bytes),
        }
    }

    /// The same, whatever it is.
    #[inline(never)]
    fn become_string(&mut self, alloc: Global, bytes: &[u8]) -> Result<(), AllocError>
        ensures ok { OnOk result (self.new ≡ Value.String bytes.now) }
        ensures err { OnErr result (self.new ≡ self.old) }
    {
        *self = Value::String(Bytes::from_slice(alloc, bytes)?);
        Ok(())
    }

    /// The same of a text that came from the input.
    #[inline(always)]
    pub fn set_input(&mut self, alloc: Global, bytes: &[u8]) -> Result<(), AllocError>
        ensures ok { OnOk result (self.new ≡ Value.Input bytes.now) }
        ensures err { OnErr result (self.new ≡ self.old) }
    {
        match self {
            Value::Input(text) => text.assign(alloc, bytes),
            _ => self.become_input(alloc, bytes),
        }
    }

    /// The same, whatever it is.
    #[inline(never)]
    fn become_input(&mut self, alloc: Global, bytes: &[u8]) -> Result<(), AllocError>
        ensures ok { OnOk result (self.new ≡ Value.Input bytes.now) }
        ensures err { OnErr result (self.new ≡ self.old) }
    {
        *self = Value::Input(Bytes::from_slice(alloc, bytes)?);
        Ok(())
    }
}
