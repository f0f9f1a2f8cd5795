//! Laws of what is read and of what is shown.

ghost use Rattle.std.specs.Prelude.{◌≡◌, ◌<◌, All, IsTrue, List, Ok, Some, ℕ, ℤ};
ghost use Rattle.std.specs.Int.RustNames.{FitsSigned};
ghost use Rattle.std.specs.Int.{w64};
ghost use Rattle.std.specs.List.{list_all};
ghost use Rattle.rawk_value.specs.Values.{int_text};
ghost use Rattle.rawk_commands.specs.declared.command.Command.{Command};
ghost use Rattle.rawk_commands.specs.declared.command.Constant.TheVariants.{Number, Text};
ghost use Rattle.rawk_commands.specs.declared.command.Place.{Place};
ghost use Rattle.rawk_commands.specs.Lines.{IsCommand, line_of};
ghost use Rattle.rawk_commands.specs.Reading.{constant_of, place_of, reading};
ghost use Rattle.rawk_commands.specs.Texts.{IsPlace, is_visible, shown_place, shown_text};

/// The commands that lines ask for are those that there can be: each of them has a line, which is its word, a blank, and what
/// it names as that is shown; and no line asks for another.
pub fn commands_are_read()
    ensures each { (command : Command) → IsCommand command → reading (line_of command) ≡ Ok (Some command) }
    ensures only { (line : List ℕ) (command : Command) → All (λ b. b < 256) line → reading line ≡ Ok (Some command) → IsCommand command }
{}

/// What is shown can be typed: it reads as the very text, number or place that was shown. So no two are shown alike.
pub fn shown_is_read()
    ensures texts { (text : List ℕ) → All (λ b. b < 256) text → constant_of (shown_text text) ≡ Some (Text text) }
    ensures numbers { (n : ℤ) → FitsSigned w64 n → constant_of (int_text n) ≡ Some (Number n) }
    ensures places { (place : Place) → IsPlace place → place_of (shown_place place) ≡ Some place }
{}

/// What is shown of a text has bytes from 32 to 126 alone, so it stays on its line.
pub fn shown_is_visible()
    ensures { (text : List ℕ) → All (λ b. b < 256) text → IsTrue (list_all is_visible (shown_text text)) }
{}
