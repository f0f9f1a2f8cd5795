//! What the scripts of bench/ time: `bench_parts expressions PATTERN`, `bench_parts records FS`, `bench_parts arrays`; the modules say what each does
//! with its standard input.
#![tactic(auto)]

mod arrays;
mod expressions;
mod records;

use anyhow::{Result, bail};
use std::env;

fn main(rt: HostRuntime) -> Result<()> {
    let mut words = env::args(&rt)?;
    let _program = words.next();
    let (part, word, is_more) = (words.next(), words.next(), words.next().is_some());
    drop(words);
    let part = part.as_ref().map_or("", |part| part.as_str());
    let word = word.as_ref().map_or("", |word| word.as_str());
    match part {
        "expressions" => expressions::counted(&rt, word, is_more),
        "records" => records::counted(&rt, word, is_more),
        "arrays" => arrays::worked(&rt),
        _ => bail!("expressions, records or arrays is wanted"),
    }
}
