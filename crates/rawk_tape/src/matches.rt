//! The next record, which a match of an expression ends.
ghost use Rattle.std.specs.Prelude.{◌≡◌, ◌≤◌, ◌<◌, ◌+◌, ◌^◌, ◌⊎◌, drop, length, None, Some, IfErr};
ghost use Rattle.rawk_search.specs.Matches.{open_match};
ghost use Rattle.rawk_search.specs.Laws.{IsSkip};
ghost use Rattle.rawk_value.specs.Values.{Bytes};
ghost use Rattle.rawk_devices.specs.declared.source.Ending.{Ending};
ghost use Rattle.rawk_devices.specs.Inputs.{Input, is_failed};
ghost use Rattle.rawk_tape.specs.Records.{next_match};
ghost use Rattle.rawk_tape.specs.Tapes.{MayBe, ReadsAhead, LastRead, Answers, IsWithin, IsExpression, place_before};

use crate::Found;
use crate::at_end::last_line;
use crate::buffer::Buffer;
use rawk_devices::{Ending, Source};
use rawk_ere::Ere;
use rawk_search::{Span, next_nonempty, next_open, skip_to};
use rawk_value::Fault;
use std::alloc::Global;

/// The bytes from a place on.
fn rest_of(bytes: &[u8], start: usize) -> &[u8]
    requires { start ≤ length bytes.now }
    ensures { result.now ≡ drop start bytes.now }
{
    &bytes[start..]
}

/// The record before a match in the rest from `start` on.
fn found_before(found: Span, start: usize) -> Found
    requires ordered { found.start ≤ found.end }
    requires small { start + found.end < 2 ^ 63 }
    ensures { result ≡ place_before found start }
{
    Found {
        start,
        end: start + found.start,
        count: start + found.end,
    }
}

/// The record before the first match, or the rest, where the input is over and its bytes alone
/// settle no match; none begins before `from`.
fn last_match(
    alloc: Global,
    ere: &Ere,
    ending: Ending,
    bytes: &[u8],
    start: usize,
    from: usize,
) -> Result<Option<Found>, Fault>
    requires in_range { start ≤ length bytes.now }
    requires skipped { IsSkip (drop start bytes.now) ere.now 0 from }
    requires unsettled { open_match (drop start bytes.now) ere.now 0 ≡ None }
    ensures next { Answers (next_match (Some ere.now) (is_failed ending) (drop start bytes.now) start)
        bytes.now result }
    ensures within { IsWithin bytes.now start result }
    ensures failed { IfErr result (λ fault. fault ≡ Fault.ReadFailed → ending ≡ Ending.Failed) }
{
    match ending {
        Ending::Failed => Err(Fault::ReadFailed),
        Ending::Ended => match next_nonempty(alloc, ere, rest_of(bytes, start), from)? {
            Some(found) => Ok(Some(found_before(found, start))),
            None => last_line(ending, bytes, start),
        },
    }
}

/// The next record, which a match of this expression ends, where the bytes before `start` are
/// consumed. The text of the match is the rest of the input. Each search begins at the first place
/// where a match may begin, so after a read it goes on from there.
pub(crate) fn next_match<R: Source>(
    alloc: Global,
    source: &mut R,
    over: &mut Option<Ending>,
    bytes: &mut Buffer,
    start: usize,
    ere: &Ere,
) -> Result<Option<Found>, Fault>
    requires in_range { start ≤ length bytes.old }
    requires reported { R.over source.old ≡ over.old }
    ensures reported { R.over source.new ≡ over.new }
    ensures ahead { ReadsAhead R.may_give R.over R.handed
        (record { source = source.old; bytes = bytes.old; consumed = start })
        (record { source = source.new; bytes = bytes.new; consumed = start }) }
    ensures next { (input : Input) →
        MayBe R.may_give (record { source = source.new; bytes = bytes.new; consumed = start }) input →
        Answers (next_match (Some ere.now) input.fails (drop start input.bytes) start) bytes.new result }
    ensures lazy { (separator : Bytes) → IsExpression separator ere.now →
        ((source.new ≡ source.old) × (bytes.new ≡ bytes.old))
        ⊎ LastRead separator start bytes.old bytes.new }
    ensures within { IsWithin bytes.new start result }
    ensures failed { IfErr result (λ fault.
        fault ≡ Fault.ReadFailed → R.over source.new ≡ Some Ending.Failed) }
{
    let mut from = 0;
    loop {
        let rest = rest_of(bytes.as_slice(), start);
        from = skip_to(alloc, ere, rest, from)?;
        if let Some(found) = next_open(alloc, ere, rest, from)? {
            return Ok(Some(found_before(found, start)));
        }
        if let Some(ending) = *over {
            return last_match(alloc, ere, ending, bytes.as_slice(), start, from);
        }
        *over = bytes.read_from(source)?;
    }
}
