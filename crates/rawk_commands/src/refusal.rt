//! The lines of refusals.

ghost use Rattle.std.specs.Prelude.{◌≡◌};
ghost use Rattle.rawk_commands.specs.Refusals.{refusal_line};

use crate::command::C;

impl C {
    /// Its line, as `C3: no such variable`, with the newline. It takes no memory.
    pub fn line(self) -> &'static str
        ensures { result.now ≡ refusal_line self }
    {
        match self {
            C::UnknownCommand => "C1: unknown command\n",
            C::BadArgument => "C2: bad argument\n",
            C::NoSuchVariable => "C3: no such variable\n",
            C::NoSuchPlace => "C4: no such place to stop\n",
            C::NoSuchNumber => "C5: no such number\n",
            C::ProgramEnded => "C6: program has ended\n",
            C::NotInFunction => "C7: not in a function\n",
            C::SetRefused => "C8: set refused\n",
            C::NoSetToTakeBack => "C9: no set to take back\n",
            C::OutOfMemory => "C11: out of memory\n",
            C::AnswerLost => "C12: answer lost\n",
        }
    }
}
