//! The last record, where the input is over.
ghost use Rattle.std.specs.Prelude.{◌≡◌, ◌≤◌, ℕ, drop, length, IfOk, IfSome, IfErr};
ghost use Rattle.rawk_devices.specs.declared.source.Ending.{Ending};
ghost use Rattle.rawk_tape.specs.Records.{last_line, next_paragraph};
ghost use Rattle.rawk_devices.specs.Inputs.{is_failed};
ghost use Rattle.rawk_tape.specs.Tapes.{Answers, IsWithin};
ghost use Rattle.rawk_tape.specs.Paragraphs.{IsParagraph};

use crate::Found;
use rawk_devices::Ending;
use rawk_value::Fault;

/// The rest as the last record, where no separator stands in it and the input is over.
pub(crate) fn last_line(ending: Ending, bytes: &[u8], start: usize) -> Result<Option<Found>, Fault>
    requires { start ≤ length bytes.now }
    ensures next { Answers (last_line (is_failed ending) (drop start bytes.now) start) bytes.now result }
    ensures within { IsWithin bytes.now start result }
    ensures failed { IfErr result (λ fault. ending ≡ Ending.Failed) }
{
    match ending {
        Ending::Failed => Err(Fault::ReadFailed),
        Ending::Ended => {
            let end = bytes.len();
            if start == end {
                return Ok(None);
            }
            Ok(Some(Found {
                start,
                end,
                count: end,
            }))
        }
    }
}

/// The last paragraph, where nothing stands behind it and the input is over.
pub(crate) fn last_paragraph(
    ending: Ending,
    bytes: &[u8],
    found: Found,
) -> Result<Option<Found>, Fault>
    requires { found.count ≡ length bytes.now }
    ensures next { (start : ℕ) → IsParagraph bytes.now start found →
        Answers (next_paragraph (is_failed ending) (drop start bytes.now) start) bytes.now result }
    ensures within { (start : ℕ) → IsParagraph bytes.now start found → IsWithin bytes.now start result }
    ensures place { IfOk result (λ answer. IfSome answer (λ place. place ≡ found)) }
    ensures failed { IfErr result (λ fault. ending ≡ Ending.Failed) }
{
    match ending {
        Ending::Failed => Err(Fault::ReadFailed),
        Ending::Ended => {
            if found.start == bytes.len() {
                return Ok(None);
            }
            Ok(Some(found))
        }
    }
}
