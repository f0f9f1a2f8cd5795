//! Where the matches stand that a replacement takes.

ghost use Rattle.std.specs.Prelude.{◌≡◌, ◌≤◌, length, IfOk};
ghost use Rattle.std.specs.Option.{IfSome};
ghost use Rattle.rawk_search.specs.Found.{IsWithin};
ghost use Rattle.rawk_search.specs.Matches.{first_match};
ghost use Rattle.rawk_search.specs.Replacements as replacements;

use crate::Span;
use crate::search::next_match_on;
use rawk_ere::Finder;
use std::alloc::{AllocError, Global};

/// The leftmost match from `from` on, and the longest there, but no empty one at `after`, where a match ended that is not empty; the expression and the text of the finder stay.
/// An error: memory was refused.
#[inline(always)]
pub fn next_cut(
    alloc: Global,
    finder: &mut Finder<'_>,
    from: usize,
    after: Option<usize>,
) -> Result<Option<Span>, AllocError>
    requires { from ≤ length finder.old.text }
    ensures same { finder.new ≡ finder.old }
    ensures is { IfOk result (λ o. o ≡ replacements.next_cut finder.old.text finder.old.ere from after) }
    ensures within { IfOk result (λ o. IfSome o (IsWithin from finder.old.text)) }
{
    let Some(found) = next_match_on(alloc, finder, from)? else {
        return Ok(None);
    };
    if found.start < found.end || after != Some(found.start) {
        return Ok(Some(found));
    }
    if found.start == finder.len() {
        return Ok(None);
    }
    next_match_again(alloc, finder, found.start + 1)
}

/// The leftmost match from `from` on, and the longest there, sought in a call of its own. An error: memory was refused.
#[inline(never)]
fn next_match_again(
    alloc: Global,
    finder: &mut Finder<'_>,
    from: usize,
) -> Result<Option<Span>, AllocError>
    requires { from ≤ length finder.old.text }
    ensures same { finder.new ≡ finder.old }
    ensures is { IfOk result (λ o. o ≡ first_match finder.old.text finder.old.ere from) }
    ensures within { IfOk result (λ o. IfSome o (IsWithin from finder.old.text)) }
{
    next_match_on(alloc, finder, from)
}
