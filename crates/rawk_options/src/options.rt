//! The options and operands (POSIX awk, Options and Operands).
ghost use Rattle.std.specs.Prelude.{◌≤◌, ◌<◌, ◌≡◌, ◌≢◌, ◌⊎◌, ◌↔◌, [], Ok, Err, Some, IfOk, IfSome, IsTrue, None, drop, is_some, length, true, false};
ghost use Rattle.rawk_limits.specs.History.{IsHistory};
ghost use Rattle.rawk_limits.specs.declared.TheConstants as limits;

use crate::assignments::first_values;
use crate::help::{ABOUT, AFTER_HELP, USAGE, VERSION};
use crate::invocation::{Invocation, MAX_STEPS, S, SESSION_STEPS, Text};
use crate::words::separated;
use clap::builder::ValueRange;
use clap::error::ErrorKind;
use clap::{Arg, ArgAction, ArgMatches, Command, value_parser};
use rawk_keywords::has_name_form;
use rawk_limits::HISTORY;
use std::alloc::{AllocError, Global};

/// What the words after the program's name ask for.
///
/// The order of refusals: S3 for words that the options do not take; S1 for a value of `-v` without `=`; S2 for operands that are
/// too few, too many or `NAME=..` in the place of the file, for `-f -`, and for the standard input as the commands and the input
/// both. S5 where memory is refused. `--help` and `--version` answer `S::Help` with their text.
pub fn settings_of(alloc: Global, words: &[String]) -> Result<Invocation, S> {
    let words = separated(alloc, words)?;
    match command(alloc)?.try_get_matches_from(words.as_slice()) {
        Ok(matches) => invocation_of(alloc, &matches),
        Err(error) => Err(refusal_of(alloc, &error)),
    }
}

/// The refusal that an error of the reader of command lines stands for.
fn refusal_of(alloc: Global, error: &clap::Error) -> S {
    if error.kind() == ErrorKind::OutOfMemory {
        return S::Memory(AllocError);
    }
    match format!(in alloc; "{error}") {
        Ok(text) if is_asked_for(error.kind()) => S::Help(text),
        Ok(text) => S::CommandLine(text),
        Err(error) => S::Memory(error),
    }
}

/// Whether the text is what the words asked for, and no refusal.
fn is_asked_for(kind: ErrorKind) -> bool
    ensures { IsTrue result ↔ (kind ≡ ErrorKind.DisplayHelp) ⊎ (kind ≡ ErrorKind.DisplayVersion) }
{
    matches!(kind, ErrorKind::DisplayHelp | ErrorKind::DisplayVersion)
}

/// The options and operands. The value of an option may begin with `-`.
fn command<'a>(alloc: Global) -> Result<Command<'a>, AllocError> {
    let arguments = vec![in alloc;
        separator(alloc),
        assignment(alloc),
        program_file(alloc),
        debug(alloc),
        steps(alloc),
        history(alloc),
        operands(alloc),
    ]?;
    named(alloc).args(arguments)
}

/// The command's name, its version and its help, without options.
fn named<'a>(alloc: Global) -> Command<'a> {
    Command::new(alloc, "rawk")
        .version(VERSION)
        .about(ABOUT)
        .no_binary_name(true)
        .override_usage(USAGE)
        .after_help(AFTER_HELP)
}

/// The operands: PROGRAM and FILE.
fn operands<'a>(alloc: Global) -> Arg<'a> {
    Arg::new(alloc, "operands")
        .value_name("OPERAND")
        .help(
            "PROGRAM, the text of a program, and one FILE, its input (default the standard input)",
        )
        .num_args(ValueRange::new(0..))
        .action(ArgAction::Append)
}

/// The option `-F`.
fn separator<'a>(alloc: Global) -> Arg<'a> {
    Arg::new(alloc, "separator")
        .short('F')
        .value_name("S")
        .help("Separate fields by S, as -v FS=S after all -v; t is a tab, and the last S counts")
        .action(ArgAction::Append)
        .allow_hyphen_values(true)
}

/// The option `-v`.
fn assignment<'a>(alloc: Global) -> Arg<'a> {
    Arg::new(alloc, "assignment")
        .short('v')
        .value_name("NAME=VALUE")
        .help("Assign to a variable before PROGRAM begins; may be repeated")
        .action(ArgAction::Append)
        .allow_hyphen_values(true)
}

/// The option `-f`.
fn program_file<'a>(alloc: Global) -> Arg<'a> {
    Arg::new(alloc, "program_file")
        .short('f')
        .value_name("PROGFILE")
        .help("Read the program from this file; there is no operand PROGRAM then")
        .allow_hyphen_values(true)
}

/// The option `--debug`.
fn debug<'a>(alloc: Global) -> Arg<'a> {
    Arg::new(alloc, "debug")
        .long("debug")
        .value_name("COMMANDS")
        .help("Debug PROGRAM by the commands of this file; - (the standard input) needs a FILE")
        .allow_hyphen_values(true)
}

/// The option `--steps`.
fn steps<'a>(alloc: Global) -> Arg<'a> {
    Arg::new(alloc, "steps")
        .long("steps")
        .value_name("N")
        .help("End PROGRAM after N steps (default 9223372036854775807; with --debug 1000000)")
        .value_parser(value_parser!(u64).range(0..=i64::MAX))
        .allow_hyphen_values(true)
}

/// The option `--history`.
fn history<'a>(alloc: Global) -> Arg<'a> {
    Arg::new(alloc, "history")
        .long("history")
        .value_name("H")
        .help("With --debug, keep the last H steps, 1 to 1000000, to go back over (default all)")
        .value_parser(value_parser!(u64).range(1..=HISTORY as i64))
        .allow_hyphen_values(true)
}

/// What the matches ask for.
fn invocation_of(alloc: Global, matches: &ArgMatches<'_>) -> Result<Invocation, S> {
    let settings = first_values(
        alloc,
        matches.get_strs("assignment").unwrap_or(&[]),
        matches.get_strs("separator").unwrap_or(&[]),
    )?;
    let operands = matches.get_strs("operands").unwrap_or(&[]);
    let (program, rest) = program_of(alloc, matches.get_str("program_file"), operands)?;
    let input = input_of(alloc, rest)?;
    let commands = commands_of(alloc, matches.get_str("debug"), &input)?;
    let steps = steps_of(matches.get_one::<u64>("steps"), commands.is_some());
    Ok(Invocation {
        settings,
        program,
        input,
        commands,
        steps,
        history: history_of(matches.get_one::<u64>("history")),
    })
}

/// The program, from the file that `-f` names or else the first operand, and the operands behind it. S2 where there is none, or the file
/// is `-`.
fn program_of<'a>(
    alloc: Global,
    file: Option<&str>,
    operands: &'a [&'a str],
) -> Result<(Text, &'a [&'a str]), S>
    ensures none { file.entry ≡ None → operands.now ≡ [] → result ≡ Err S.BadOperands }
    ensures of_file { is_some file.entry ≡ true → IfOk result (λ r. r.1.now ≡ operands.now) }
    ensures operand { file.entry ≡ None → IfOk result (λ r. r.1.now ≡ drop 1 operands.now) }
{
    match (file, operands) {
        (Some("-"), _) | (None, []) => Err(S::BadOperands),
        (Some(path), rest) => Ok((Text::Path(path.to_string(alloc)?), rest)),
        (None, [program, rest @ ..]) => Ok((Text::Bytes(program.as_bytes().to_vec(alloc)?), rest)),
    }
}

/// The input that the operands behind the program name. S2 where they are more than one, or `NAME=..`.
fn input_of(alloc: Global, operands: &[&str]) -> Result<Text, S>
    ensures none { operands.now ≡ [] → result ≡ Ok Text.StandardInput }
    ensures many { 1 < length operands.now → result ≡ Err S.BadOperands }
{
    match operands {
        [] | ["-"] => Ok(Text::StandardInput),
        [path] if !is_assignment(path) => Ok(Text::Path(path.to_string(alloc)?)),
        _ => Err(S::BadOperands),
    }
}

/// The commands that the value of `--debug` names, beside this input: S2 where both were the standard input.
fn commands_of(alloc: Global, value: Option<&str>, input: &Text) -> Result<Option<Text>, S>
    ensures read_once { IfOk result (λ commands. commands ≡ Some Text.StandardInput → input.now ≢ Text.StandardInput) }
    ensures session { IfOk result (λ commands. is_some commands ≡ is_some value.entry) }
{
    match (value, input) {
        (None, _) => Ok(None),
        (Some("-"), Text::StandardInput) => Err(S::BadOperands),
        (Some("-"), _) => Ok(Some(Text::StandardInput)),
        (Some(path), _) => Ok(Some(Text::Path(path.to_string(alloc)?))),
    }
}

/// The number of steps: the value of `--steps`, else the greatest in a run, and a million in a session.
fn steps_of(value: Option<u64>, is_session: bool) -> u64
    ensures in_range { result ≤ 9223372036854775807 }
    ensures given { IfSome value (λ n. n ≤ 9223372036854775807 → result ≡ n) }
    ensures run { value ≡ None → is_session ≡ false → result ≡ 9223372036854775807 }
    ensures session { value ≡ None → is_session ≡ true → result ≡ 1000000 }
{
    match value {
        Some(steps) => steps.min(MAX_STEPS),
        None if is_session => SESSION_STEPS,
        None => MAX_STEPS,
    }
}

/// The number of steps that a session keeps: the value of `--history`.
fn history_of(value: Option<u64>) -> Option<u64>
    ensures in_range { IsHistory result }
    ensures none { value ≡ None → result ≡ None }
    ensures given { IfSome value (λ h. 1 ≤ h → h ≤ limits.HISTORY → result ≡ Some h) }
{
    match value {
        Some(steps) => Some(steps.clamp(1, HISTORY)),
        None => None,
    }
}

/// Whether an operand has the form `NAME=..`.
fn is_assignment(operand: &str) -> bool {
    match operand.split_once('=') {
        Some((name, _)) => has_name_form(name.as_bytes()),
        None => false,
    }
}
