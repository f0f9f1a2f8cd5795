//! A program's text is made ready to run.

ghost use Rattle.std.specs.Prelude.{IfOk, IfErr};
ghost use Rattle.rawk.specs.Preparing.{IsReady, IsRefused};

use crate::report::{Cause, Report, stopped, text_refused};
use rawk_code::{Settings, fits};
use rawk_compiler::compile;
use rawk_syntax::{Program, parse};
use rawk_told::Code;
use rawk_value::Fault;
use std::alloc::Global;

/// A program and its code.
#[derive(Drop)]
pub struct Prepared {
    pub program: Program,
    pub code: Code,
}

/// The program of a text, which can take these first values, with its code; or the report of why nothing runs: a refusal of the text
/// (P1 to P10), then a first value that can't be assigned (S1), then memory that was refused (F12).
pub fn prepare(alloc: Global, settings: &Settings, text: &[u8]) -> Result<Prepared, Report>
    ensures ready { IfOk result (λ p. IsReady text.now settings.now p.program p.code) }
    ensures refused { IfErr result (λ report. IsRefused text.now settings.now report) }
{
    let program = match parse(alloc, text) {
        Ok(program) => program,
        Err(refusal) => return Err(text_refused(refusal)),
    };
    if !fits(&program, settings) {
        drop(program);
        return Err(stopped(Cause::BadAssignment, 0));
    }
    match compile(alloc, &program) {
        Ok(code) => Ok(Prepared { program, code }),
        Err(_) => {
            drop(program);
            Err(stopped(Cause::Faulted(Fault::OutOfMemory), 0))
        }
    }
}
