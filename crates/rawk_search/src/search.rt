//! Where the next match stands.

ghost use Rattle.std.specs.Prelude.{◌≡◌, ◌≤◌, ◌<◌, true, length, IfOk};
ghost use Rattle.std.specs.Option.{IfSome};
ghost use Rattle.rawk_ere_tree.specs.Open.{MayBegin};
ghost use Rattle.rawk_search.specs.Matches.{first_match, first_nonempty, open_match};
ghost use Rattle.rawk_search.specs.Found.{IsWithin, spans_of};
ghost use Rattle.rawk_search.specs.Laws.{IsSpan, IsSkip};

use crate::Span;
use rawk_ere::{Ere, Finder};
use std::alloc::{AllocError, Global};

/// The span from a begin to an end.
fn span(found: Option<(usize, usize)>) -> Option<Span>
    ensures { result ≡ spans_of found }
{
    match found {
        Some((start, end)) => Some(Span { start, end }),
        None => None,
    }
}

/// The leftmost match from `from` on, and the longest there. An error: memory was refused.
pub fn next_match(
    alloc: Global,
    ere: &Ere,
    text: &[u8],
    from: usize,
) -> Result<Option<Span>, AllocError>
    requires { from ≤ length text.now }
    ensures is { IfOk result (λ o. o ≡ first_match text.now ere.now from) }
    ensures within { IfOk result (λ o. IfSome o (IsWithin from text.now)) }
{
    let found = ere.find(alloc, text, from)?;
    Ok(span(found))
}

/// The same where one match after another is sought: the expression and the text stay. An error: memory was refused.
#[inline(always)]
pub fn next_match_on(
    alloc: Global,
    finder: &mut Finder<'_>,
    from: usize,
) -> Result<Option<Span>, AllocError>
    requires { from ≤ length finder.old.text }
    ensures same { finder.new ≡ finder.old }
    ensures is { IfOk result (λ o. o ≡ first_match finder.old.text finder.old.ere from) }
    ensures within { IfOk result (λ o. IfSome o (IsWithin from finder.old.text)) }
{
    let found = finder.find(alloc, from)?;
    Ok(span(found))
}

/// The leftmost match from `from` on that is not empty, and the longest there. An error: memory was refused.
pub fn next_nonempty(
    alloc: Global,
    ere: &Ere,
    text: &[u8],
    from: usize,
) -> Result<Option<Span>, AllocError>
    requires { from ≤ length text.now }
    ensures is { IfOk result (λ o. o ≡ first_nonempty true text.now ere.now from) }
    ensures within { IfOk result (λ o. IfSome o (IsSpan from text.now)) }
{
    let mut finder = Finder::new(ere, text);
    next_nonempty_on(alloc, &mut finder, from)
}

/// The same where one match after another is sought: the expression and the text stay. An error: memory was refused.
#[inline]
pub fn next_nonempty_on(
    alloc: Global,
    finder: &mut Finder<'_>,
    from: usize,
) -> Result<Option<Span>, AllocError>
    requires { from ≤ length finder.old.text }
    ensures same { finder.new ≡ finder.old }
    ensures is { IfOk result (λ o. o ≡ first_nonempty true finder.old.text finder.old.ere from) }
    ensures within { IfOk result (λ o. IfSome o (IsSpan from finder.old.text)) }
{
    let mut at = from;
    while let Some((start, end)) = finder.find(alloc, at)? {
        if start < end {
            return Ok(Some(Span { start, end }));
        }
        if start == finder.len() {
            return Ok(None);
        }
        at = start + 1;
    }
    Ok(None)
}

/// That match in a text that may go on, or None where there is none yet, or what follows the text may change it. An error: memory was refused.
pub fn next_open(
    alloc: Global,
    ere: &Ere,
    text: &[u8],
    from: usize,
) -> Result<Option<Span>, AllocError>
    requires { from ≤ length text.now }
    ensures is { IfOk result (λ o. o ≡ open_match text.now ere.now from) }
    ensures within { IfOk result (λ o. IfSome o (IsSpan from text.now)) }
{
    let found = ere.find_open(alloc, text, from)?;
    Ok(span(found))
}

/// From where a search for such a match may go on once the text is longer: the first place where one may begin, or the end of
/// the text. An error: memory was refused.
pub fn skip_to(alloc: Global, ere: &Ere, text: &[u8], from: usize) -> Result<usize, AllocError>
    requires { from ≤ length text.now }
    ensures is { IfOk result (IsSkip text.now ere.now from) }
    ensures first { IfOk result (λ f. f < length text.now → MayBegin text.now ere.now f) }
{
    ere.open_from(alloc, text, from)
}
