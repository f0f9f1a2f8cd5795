//! Works on one array, as the words of the standard input say: `bump N K` adds 1 to elements 0 to K - 1 in turn, N times;
//! `fill K` makes elements 0 to K - 1; `keys` makes the list of keys, in byte order; `clear` deletes all elements; `count` counts them.
//! `set K V`, `touch K`, `delete K`, `get K` and `has K` are of one element; `again` drops the array and adds an empty one; `rest` ends a
//! step, `undo` ends it and puts back what it changed, `back` puts back what the step in progress changed.

use anyhow::{Result, bail};
use rawk_arrays::Arrays;
use rawk_value::{Value, push_number};
use std::alloc::{AllocError, Global};
use std::io::Input;

/// Carries out the lines, and prints what came of each.
pub fn worked<R: Input + Print + AllocGlobal>(rt: &R) -> Result<()> {
    let mut arrays = Arrays::new(rt.alloc(), 0);
    let worked = work_on(rt, &mut arrays);
    drop(arrays);
    worked
}

/// The same on these arrays.
fn work_on<R: Input + Print + AllocGlobal>(rt: &R, arrays: &mut Arrays) -> Result<()> {
    let alloc = rt.alloc();
    arrays.add::<true>()?;
    rest(alloc, arrays);
    for line in rt.lines(alloc) {
        let line = line?;
        rt.println(told(alloc, arrays, line.as_str())?)?;
    }
    Ok(())
}

/// Carries out a line, and tells what came of it.
fn told(alloc: Global, arrays: &mut Arrays, line: &str) -> Result<String> {
    let mut words = line.split_whitespace();
    let verb = words.next().unwrap_or("");
    let first = number(words.next());
    let second = number(words.next());
    let answer = match verb {
        "set" | "touch" | "delete" | "get" | "has" => one(alloc, arrays, verb, first, second)?,
        "rest" | "undo" | "back" | "again" => step(alloc, arrays, verb)?,
        _ => work(alloc, arrays, verb, first, second)?,
    };
    Ok(format!(in alloc; "{verb} {answer}")?)
}

/// The number that a word is, and 0 without one.
fn number(word: Option<&str>) -> u64 {
    match word {
        Some(text) => text.parse::<u64>().unwrap_or(0),
        None => 0,
    }
}

/// Carries out a line that is neither on one element nor the end of a step.
fn work(alloc: Global, arrays: &mut Arrays, verb: &str, first: u64, second: u64) -> Result<u64> {
    match verb {
        "bump" => Ok(bump(alloc, arrays, first, second)?),
        "fill" => Ok(bump(alloc, arrays, first, first)?),
        "keys" => Ok(keys(alloc, arrays)?),
        "clear" => {
            arrays.clear::<true>(0)?;
            rest(alloc, arrays);
            Ok(arrays.count(0) as u64)
        }
        "count" => Ok(arrays.count(0) as u64),
        _ => bail!("bump, fill, keys, clear or count is wanted"),
    }
}

/// Carries out a line on one element.
fn one(alloc: Global, arrays: &mut Arrays, verb: &str, first: u64, second: u64) -> Result<u64> {
    let mut key = Vec::new(alloc);
    push_number(&mut key, i64::try_from(first).unwrap_or(0))?;
    match verb {
        "has" => Ok(u64::from(arrays.has(0, &key))),
        "get" => Ok(held(arrays, &key)),
        _ => {
            change(alloc, arrays, verb, &key, second)?;
            Ok(arrays.count(0) as u64)
        }
    }
}

/// The number that an element is, and 0 without one.
fn held(arrays: &Arrays, key: &[u8]) -> u64 {
    match arrays.element(0, key) {
        Some(Value::Number(n)) => n.unsigned_abs(),
        _ => 0,
    }
}

/// Sets, touches or deletes an element.
fn change(
    alloc: Global,
    arrays: &mut Arrays,
    verb: &str,
    key: &[u8],
    second: u64,
) -> Result<(), AllocError> {
    match verb {
        "set" => arrays.set::<true>(
            alloc,
            0,
            key,
            Value::Number(i64::try_from(second).unwrap_or(0)),
        ),
        "touch" => arrays.touch::<true>(alloc, 0, key),
        _ => arrays.delete::<true>(0, key),
    }
}

/// Ends a step that is not kept.
fn rest(alloc: Global, arrays: &mut Arrays) {
    arrays.forget();
    arrays.pack(alloc);
}

/// Ends a step, or puts it back.
fn step(alloc: Global, arrays: &mut Arrays, verb: &str) -> Result<u64> {
    match verb {
        "rest" => rest(alloc, arrays),
        "back" => arrays.undo_step(),
        "undo" => {
            let mut group = arrays.finish(alloc);
            arrays.undo(&mut group);
            drop(group);
        }
        _ => {
            arrays.truncate(0);
            arrays.add::<true>()?;
        }
    }
    Ok(arrays.count(0) as u64)
}

/// Adds 1 to the elements below `count` in turn, `times` times, and gives the sum of what they are.
fn bump(alloc: Global, arrays: &mut Arrays, times: u64, count: u64) -> Result<u64, AllocError> {
    let mut key = Vec::new(alloc);
    let mut sum = 0u64;
    let mut next = 0u64;
    for _ in 0..times {
        key.clear();
        push_number(&mut key, i64::try_from(next).unwrap_or(0))?;
        sum = sum.wrapping_add(bump_one(alloc, arrays, &key)?);
        next = next.wrapping_add(1);
        if next >= count {
            next = 0;
        }
    }
    Ok(sum)
}

/// Adds 1 to an element, and gives what it is.
fn bump_one(alloc: Global, arrays: &mut Arrays, key: &[u8]) -> Result<u64, AllocError> {
    let Some(place) = arrays.place(alloc, 0, key)? else {
        return Ok(0);
    };
    let value = match arrays.value_at(place) {
        Some(Value::Number(n)) => n.saturating_add(1),
        _ => 1,
    };
    arrays.set_at::<true>(place, Value::Number(value))?;
    rest(alloc, arrays);
    Ok(value.unsigned_abs())
}

/// How many bytes the keys have, and that each is above the one before.
fn keys(alloc: Global, arrays: &Arrays) -> Result<u64, AllocError> {
    let found = arrays.keys(alloc, 0)?;
    let mut bytes = 0u64;
    for key in &found {
        bytes = bytes.wrapping_add(key.as_slice().len() as u64);
    }
    Ok(bytes)
}
