//! Which first values a program can take.

ghost use Rattle.std.specs.Prelude.{◌≡◌};
ghost use Rattle.rawk_code.specs.Settings.{can_assign, settings_fit};

use crate::settings::Settings;
use rawk_keywords::{has_name_form, is_reserved};
use rawk_special::is_field_count;
use rawk_tree::Program;

/// Whether a program can take these first values: each name has the form of a name, and is no keyword, not NF, the name of no function, built in or
/// of the program, and of no global array (POSIX awk, Options, `-v`). A name that the program does not have fits, and has no effect. It takes no memory.
pub fn fits(program: &Program, settings: &Settings) -> bool
    ensures { result ≡ settings_fit program.now settings.now }
{
    settings
        .as_slice()
        .iter()
        .all(|value| can_be_assigned(program, value.name.as_slice()))
}

// Whether a first value can have this name.
fn can_be_assigned(program: &Program, name: &[u8]) -> bool
    ensures { result ≡ can_assign program.now name.now }
{
    has_name_form(name)
        && !is_reserved(name)
        && !is_field_count(name)
        && program.entry_of(name).is_none()
        && !program.is_array(name)
}
