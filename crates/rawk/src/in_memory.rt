//! A dialog by commands in memory.

ghost use Rattle.std.specs.Prelude.{◌≡◌, position};
ghost use Rattle.std.specs.List.{before_first, after_first};
ghost use Rattle.rawk_tape.specs.Records.{is_newline};
ghost use Rattle.rawk.specs.Debugs.{asks_all};

use crate::dialog::{Dialog, Over, tell};
use rawk_debug::{Session, Stepper, carry_out};
use rawk_devices::Sink;
use std::alloc::Global;

/// Commands in memory, one on each line.
#[derive(Clone, Copy)]
pub struct InMemory<'a> {
    pub commands: &'a [u8],
}

/// Where the first newline stands.
fn newline_in(bytes: &[u8]) -> Option<usize>
    ensures { result ≡ position is_newline bytes.now }
{
    bytes.iter().position(|byte| *byte == b'\n')
}

/// The first line, and what stands behind its newline.
fn first_line(bytes: &[u8]) -> (&[u8], &[u8])
    ensures line { result.0.now ≡ before_first is_newline bytes.now }
    ensures rest { result.1.now ≡ after_first is_newline bytes.now }
{
    match newline_in(bytes) {
        Some(size) => (&bytes[..size], &bytes[size + 1..]),
        None => (bytes, b""),
    }
}

/// No line is read, so none takes memory or is passed over, whatever its length.
impl Dialog<()> for InMemory<'_> {
    ghost begins = { λ memory commands. Unit {0} };

    ghost is_read = { ⊥ };

    ghost asks = { λ memory old new. asks_all memory.commands.now };

    ghost failures = { λ commands. 0 };

    fn hold<M: Stepper, W: Sink>(
        self,
        alloc: Global,
        session: &mut Session<M>,
        commands: &mut (),
        sink: &mut W,
    ) -> Over {
        let mut left = self.commands;
        'lines: while !left.is_empty() {
            let (line, rest) = first_line(left);
            let reply = carry_out(alloc, session, line);
            match tell(session, &reply, sink) {
                Ok(()) => drop(reply),
                Err(over) => return over,
            }
            left = rest;
        }
        Over::Ended
    }
}
