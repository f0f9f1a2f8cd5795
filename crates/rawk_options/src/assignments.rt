//! The first values that options give to variables.
ghost use Rattle.std.specs.Prelude.{◌≡◌, ◌-◌, ◌++◌, ◌∷◌, [], Err, IfOk, OnOk, OnErr, length, map, slice_get};
ghost use Rattle.std.specs.List.{All, Any};
ghost use Rattle.std.specs.Option.{option_map, option_to_list};
ghost use Rattle.rawk_lexer.specs.Escape.{unescaped_of};
ghost use Rattle.rawk_options.specs.FirstValues.{HasEquals, LacksEquals, assigned, separated_by, separator_of};

use crate::invocation::S;
use rawk_code::Settings;
use rawk_lexer::unescaped;
use std::alloc::{AllocError, Global};

/// The first values of these values of `-v` in their order, and behind them that of FS by the last of these values of `-F`.
/// S1 where a value of `-v` has no `=`.
pub(crate) fn first_values(
    alloc: Global,
    assignments: &[&str],
    separators: &[&str],
) -> Result<Settings, S>
    ensures given { IfOk result (λ settings. settings ≡ map (λ a. assigned a.now) assignments.now ++ option_to_list (option_map (λ s. separated_by s.now) (slice_get separators.now (length separators.now - 1)))) }
    ensures whole { OnOk result (All (λ a. HasEquals a.now) assignments.now) }
    ensures refused { result ≡ Err S.BadAssignment → Any (λ a. LacksEquals a.now) assignments.now }
{
    let mut settings = assigned_values(alloc, assignments)?;
    match separators.last() {
        Some(separator) => assign(alloc, &mut settings, "FS", separator_text(separator))?,
        None => {}
    }
    Ok(settings)
}

/// The first values of these values of `-v`.
fn assigned_values(alloc: Global, assignments: &[&str]) -> Result<Settings, S>
    ensures given { IfOk result (λ settings. settings ≡ map (λ a. assigned a.now) assignments.now) }
    ensures whole { OnOk result (All (λ a. HasEquals a.now) assignments.now) }
    ensures refused { result ≡ Err S.BadAssignment → Any (λ a. LacksEquals a.now) assignments.now }
{
    let mut settings = Settings::new(alloc);
    for assignment in assignments {
        assign_word(alloc, &mut settings, assignment)?;
    }
    Ok(settings)
}

/// One more first value, of a value of `-v`. S1 where it has no `=`.
fn assign_word(alloc: Global, settings: &mut Settings, assignment: &str) -> Result<(), S>
    ensures given { OnOk result (settings.new ≡ settings.old ++ assigned assignment.now ∷ []) }
    ensures whole { OnOk result (HasEquals assignment.now) }
    ensures refused { result ≡ Err S.BadAssignment → LacksEquals assignment.now }
{
    let Some((name, value)) = assignment.split_once('=') else {
        return Err(S::BadAssignment);
    };
    assign(alloc, settings, name, value)?;
    Ok(())
}

/// One more first value, whose text has the escapes of a string.
fn assign(alloc: Global, settings: &mut Settings, name: &str, text: &str) -> Result<(), AllocError>
    ensures ok { OnOk result (settings.new ≡ settings.old ++ (record { name = name.now; text = unescaped_of text.now }) ∷ []) }
    ensures err { OnErr result (settings.new ≡ settings.old) }
{
    let text = unescaped(alloc, text.as_bytes())?;
    settings.assign(name.as_bytes(), text.as_slice())
}

/// What a value of `-F` says of FS: `t` is a tab.
fn separator_text(value: &str) -> &str
    ensures { result.now ≡ separator_of value.now }
{
    if value == "t" { "\t" } else { value }
}
