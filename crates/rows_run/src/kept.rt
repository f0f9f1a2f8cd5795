//! Machines: `@kept`, a program and its input; for each point on the way to the ending and back again the point's number and how
//! many old values are kept there.
//!
//! Further parts are a first value, `@let NAME=TEXT`, a limit of steps, `@steps N`, and `@source fails N`: the source fails behind N bytes.

use crate::back::compare;
use rawk_code::Settings;
use rawk_compiler::compile;
use rawk_devices::BytesSource;
use rawk_machine::{Full, Machine, Step};
use rawk_syntax::parse;
use rawk_told::Code;
use rows_cases::setting_of;
use std::alloc::{AllocError, Global};

/// How many points a program may reach here.
pub const STEPS: u64 = 1_000;

/// What is reported of a machine that goes there and back.
#[derive(Clone, Copy, Debug, PartialEq, Eq)]
pub enum Told {
    OldValues,
    /// whether it shows the same again
    Likeness,
}

/// What a machine begins with, as the parts of a case say it.
#[derive(Drop)]
struct Plan<'a> {
    input: &'a [u8],
    settings: Settings,
    steps: u64,
    source_fails: Option<usize>,
}

impl<'a> Plan<'a> {
    /// Takes the parts behind the program.
    fn take(&mut self, parts: &[&'a [u8]]) -> Result<(), AllocError> {
        for part in parts {
            match part {
                [b'<', input @ ..] => self.input = input,
                [b'@', b'l', b'e', b't', b' ', value @ ..] => self.assign(value)?,
                [b'@', setting @ ..] => self.set(setting),
                _ => {}
            }
        }
        Ok(())
    }

    /// Takes a first value, `NAME=TEXT`.
    fn assign(&mut self, value: &[u8]) -> Result<(), AllocError> {
        match value.iter().position(|b| *b == b'=') {
            Some(at) => self.settings.assign(&value[..at], &value[at + 1..]),
            None => Ok(()),
        }
    }

    /// Takes a limit of steps, or where the source fails.
    fn set(&mut self, setting: &[u8]) {
        match setting_of(setting) {
            (b"steps", Some(steps)) => self.steps = STEPS.min(steps as u64),
            (b"source fails", place) => self.source_fails = place,
            _ => {}
        }
    }
}

/// What a case of machines answers.
pub fn answered(alloc: Global, parts: &[&[u8]], told: Told) -> Result<Vec<u8>, AllocError> {
    let Some((program, parts)) = parts.split_first() else {
        return Vec::from_slice(alloc, b"not a case");
    };
    let mut plan = Plan {
        input: &[],
        settings: Settings::new(alloc),
        steps: STEPS,
        source_fails: None,
    };
    let text = match plan.take(parts) {
        Ok(()) => answer(alloc, program, &plan, told),
        Err(error) => Err(error),
    };
    drop(plan);
    text
}

/// What a case of machines answers whose parts are taken.
fn answer(
    alloc: Global,
    program: &[u8],
    plan: &Plan<'_>,
    told: Told,
) -> Result<Vec<u8>, AllocError> {
    let Ok(tree) = parse(alloc, program) else {
        return Vec::from_slice(alloc, b"refused");
    };
    let code = compile(alloc, &tree);
    drop(tree);
    let text = there_and_back(alloc, code?, plan, told)?;
    Vec::from_slice(alloc, text.as_str().trim_start().as_bytes())
}

/// What is reported of a machine with this code.
fn there_and_back(
    alloc: Global,
    code: Code,
    plan: &Plan<'_>,
    told: Told,
) -> Result<String, AllocError> {
    let input = Vec::from_slice(alloc, plan.input)?;
    let source = BytesSource::new(input, Vec::new(alloc), plan.source_fails);
    let keeper = Full::new(alloc);
    let machine = Machine::new(alloc, code, &plan.settings, source, keeper, plan.steps);
    let mut machine = match machine {
        Ok(machine) => machine,
        Err((refused, _)) => return Err(refused),
    };
    let mut text = String::new(alloc);
    let walked = match told {
        Told::OldValues => walk(alloc, &mut machine, &mut text),
        Told::Likeness => compare(alloc, &mut machine, &mut text),
    };
    drop(machine);
    walked?;
    Ok(text)
}

/// Goes to the ending and back, and says at each point where the machine stands.
fn walk(
    alloc: Global,
    machine: &mut Machine<BytesSource, Full>,
    text: &mut String,
) -> Result<(), AllocError> {
    push_standing(alloc, machine, text)?;
    for _ in 0..STEPS {
        if machine.step() != Step::At {
            break;
        }
        machine.advance(alloc)?;
        push_standing(alloc, machine, text)?;
    }
    text.push_str(" |")?;
    for _ in 0..STEPS {
        if !machine.retreat() {
            break;
        }
        push_standing(alloc, machine, text)?;
    }
    Ok(())
}

/// Adds where the machine stands, and how many old values it keeps.
fn push_standing(
    alloc: Global,
    machine: &Machine<BytesSource, Full>,
    text: &mut String,
) -> Result<(), AllocError> {
    let point = machine.point();
    let kept = machine.kept();
    let standing = format!(in alloc; " {point}:{kept}")?;
    text.push_str(standing.as_str())
}
