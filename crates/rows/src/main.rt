//! Cases of whole runs and sessions, of single parts, of what is asked for, and of the texts of programs, each beside the answer that is wanted. The words name
//! files of cases, each after what its cases are: `runs`, `parts`, `asked`, `texts`.
//!
//! With the word `read` the standard input is one program's text, which is read once.
#![tactic(auto)]

use rows_cases::{cases_of, judge};
use std::rt::Files;
use std::{env, fs, io};

fn main(rt: HostRuntime) -> io::Result<()> {
    for word in env::args(&rt)?.skip(1) {
        match word.as_str() {
            "read" => rows_grammar::read_once(&rt)?,
            name @ ("runs" | "parts" | "asked" | "texts") => judge_file(&rt, name)?,
            _ => rt.println("no such cases")?,
        }
    }
    Ok(())
}

/// Judges the cases of a file.
fn judge_file<R: Files + Print + AllocGlobal>(rt: &R, name: &str) -> io::Result<()> {
    let text = fs::read_to_string(rt, name)?;
    let cases = cases_of(rt.alloc(), text.as_str())?;
    rt.println(name)?;
    match name {
        "runs" => judge(rt, &cases, rows_run::outcome),
        "parts" => judge(rt, &cases, rows_parts::outcome),
        "asked" => judge(rt, &cases, rows_asked::outcome),
        _ => {
            judge(rt, &cases, rows_grammar::outcome)?;
            rows_grammar::cut_texts(rt, &cases)
        }
    }
}
