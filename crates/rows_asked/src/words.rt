//! Words of a command line.
//!
//! `words`, words: the program or the file that has it, the input, the session, the limits and the first values that they ask for, or the first line of their
//! refusal. `help`, options: whether the help names each.

use crate::lines::push;
use rawk_code::Settings;
use rawk_commands::push_shown;
use rawk_options::{Invocation, S, Text, settings_of};
use std::alloc::{AllocError, Global};

/// The texts of words.
fn texts(alloc: Global, words: &[&[u8]]) -> Result<Vec<String>, AllocError> {
    let mut texts = Vec::new(alloc);
    for word in words {
        texts.push(str::from_utf8(word).unwrap_or("?").to_string(alloc)?)?;
    }
    Ok(texts)
}

/// What words ask for, or the first line of their refusal.
pub fn words_of(alloc: Global, words: &[&[u8]]) -> Result<Vec<u8>, AllocError> {
    let words = texts(alloc, words)?;
    let asked = settings_of(alloc, words.as_slice());
    drop(words);
    match asked {
        Ok(asked) => {
            let text = invocation_text(alloc, &asked);
            drop(asked);
            text
        }
        Err(refusal) => {
            let text = first_line(alloc, &refusal);
            drop(refusal);
            text
        }
    }
}

/// The first line of a refusal.
fn first_line(alloc: Global, refusal: &S) -> Result<Vec<u8>, AllocError> {
    let text = format!(in alloc; "{refusal}")?;
    let line = text.as_str().lines().next().unwrap_or("");
    Vec::from_slice(alloc, line.as_bytes())
}

/// The name of a place of bytes, or the bytes.
fn name_of(text: &Text) -> &str {
    match text {
        Text::Bytes(bytes) => str::from_utf8(bytes.as_slice()).unwrap_or("?"),
        Text::Path(path) => path.as_str(),
        Text::StandardInput => "-",
    }
}

/// An invocation in one line.
fn invocation_text(alloc: Global, asked: &Invocation) -> Result<Vec<u8>, AllocError> {
    let mut text = Vec::new(alloc);
    push_texts(alloc, &mut text, asked)?;
    push_limits(alloc, &mut text, asked)?;
    push_settings(&mut text, &asked.settings)?;
    Ok(text)
}

/// Adds the program, the input and the commands.
fn push_texts(alloc: Global, out: &mut Vec<u8>, asked: &Invocation) -> Result<(), AllocError> {
    let kind = match &asked.program {
        Text::Bytes(_) => "program",
        _ => "program of",
    };
    let program = name_of(&asked.program);
    let input = name_of(&asked.input);
    push(out, format!(in alloc; "{kind} {program}, input {input}")?)?;
    match &asked.commands {
        Some(commands) => {
            out.extend_from_slice(b", commands ")?;
            out.extend_from_slice(name_of(commands).as_bytes())
        }
        None => Ok(()),
    }
}

/// Adds the limits.
fn push_limits(alloc: Global, out: &mut Vec<u8>, asked: &Invocation) -> Result<(), AllocError> {
    let steps = asked.steps;
    push(out, format!(in alloc; ", {steps} steps")?)?;
    match asked.history {
        Some(history) => push(out, format!(in alloc; ", history {history}")?),
        None => Ok(()),
    }
}

/// Adds first values, each behind a comma.
fn push_settings(out: &mut Vec<u8>, settings: &Settings) -> Result<(), AllocError> {
    for value in settings.as_slice() {
        out.extend_from_slice(b", ")?;
        out.extend_from_slice(value.name.as_slice())?;
        out.extend_from_slice(b" = ")?;
        push_shown(out, value.text.as_slice())?;
    }
    Ok(())
}

/// Whether the help names each option.
pub fn help_of(alloc: Global, options: &[&[u8]]) -> Result<Vec<u8>, AllocError> {
    let words = texts(alloc, &[b"--help"])?;
    let help = settings_of(alloc, words.as_slice());
    drop(words);
    let answer = match &help {
        Err(S::Help(text)) => unnamed(alloc, text.as_str(), options),
        _ => Vec::from_slice(alloc, b"no help"),
    };
    drop(help);
    answer
}

/// The first option that a help does not name.
fn unnamed(alloc: Global, help: &str, options: &[&[u8]]) -> Result<Vec<u8>, AllocError> {
    for option in options {
        let option = str::from_utf8(option).unwrap_or("?");
        if !help.contains(option) {
            let missing = format!(in alloc; "{option} is not named")?;
            return Ok(missing.into_bytes());
        }
    }
    Vec::from_slice(alloc, b"each is named")
}
