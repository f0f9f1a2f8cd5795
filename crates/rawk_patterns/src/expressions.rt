//! Expressions that were asked for.

ghost use Rattle.std.specs.Prelude.{◌≡◌, Some, IfOk, IfSome};
ghost use Rattle.rawk_search.specs.Patterns.{pattern_of};

use lru::LruCache;
use rawk_pieces::{Fields, Piece};
use rawk_search::Pattern;
use std::alloc::{AllocError, Global};
use std::mem;
use std::num::NonZeroUsize;

/// How many expressions are kept at most.
const KEPT: usize = 64;

/// The expressions of the texts that were asked for last, at most 64, by these texts, and two buffers. No answer depends on what is kept.
#[derive(Drop)]
pub struct Expressions {
    // that of the last text
    last: Option<Pattern>,
    // nothing before the first text
    kept: Option<LruCache<Vec<u8>, Pattern>>,
    /// Where texts are made whose matches are replaced: its memory is used again.
    pub made: Vec<u8>,
    // Where the places of parts are put, between two uses.
    spare: Vec<Piece>,
}

/// A copy of a pattern, where this is its text.
fn copy_if(pattern: &Pattern, text: &[u8]) -> Result<Option<Pattern>, AllocError>
    ensures { IfOk result (λ o. IfSome o (λ p. Some p ≡ pattern_of text.now)) }
{
    let _ere = pattern.ere();
    if pattern.text() == text {
        let copy = pattern.copy()?;
        Ok(Some(copy))
    } else {
        Ok(None)
    }
}

/// A copy of the last pattern, where this is its text.
fn in_last(last: &Option<Pattern>, text: &[u8]) -> Result<Option<Pattern>, AllocError>
    ensures { IfOk result (λ o. IfSome o (λ p. Some p ≡ pattern_of text.now)) }
{
    match last {
        None => Ok(None),
        Some(pattern) => copy_if(pattern, text),
    }
}

/// A copy of the pattern that is kept for a text.
fn in_kept(
    kept: &mut Option<LruCache<Vec<u8>, Pattern>>,
    text: &[u8],
) -> Result<Option<Pattern>, AllocError>
    ensures { IfOk result (λ o. IfSome o (λ p. Some p ≡ pattern_of text.now)) }
{
    match kept {
        None => Ok(None),
        Some(patterns) => match patterns.get(text) {
            None => Ok(None),
            Some(pattern) => copy_if(pattern, text),
        },
    }
}

/// Keeps a pattern by its text, and lets go of the one that was used longest ago where there are 64. An error: memory was refused, and it is not kept.
fn keep(
    alloc: Global,
    kept: &mut Option<LruCache<Vec<u8>, Pattern>>,
    pattern: &Pattern,
) -> Result<(), AllocError> {
    let text = Vec::from_slice(alloc, pattern.text())?;
    let copy = pattern.copy()?;
    if kept.is_none() {
        let Some(most) = NonZeroUsize::new(KEPT) else {
            return Ok(());
        };
        *kept = Some(LruCache::new(alloc, most)?);
    }
    if let Some(patterns) = kept {
        patterns.put(text, copy)?;
    }
    Ok(())
}

impl Expressions {
    /// Nothing is kept. It takes no memory.
    pub fn new(alloc: Global) -> Self {
        Expressions {
            last: None,
            kept: None,
            made: Vec::new(alloc),
            spare: Vec::new(alloc),
        }
    }

    /// A buffer for the places of parts, with what stood there last. It takes no memory.
    pub fn lend_spare(&mut self, alloc: Global) -> Vec<Piece> {
        mem::replace(&mut self.spare, Vec::new(alloc))
    }

    /// Takes such a buffer back, for its next use. It takes no memory.
    pub fn take_back(&mut self, fields: Fields) {
        let Fields { pieces } = fields;
        self.spare = pieces;
    }

    /// The expression that a text is (POSIX XBD 9.4), or None where it is none within the limits. It is read anew only where it is not kept; what is no expression is not kept,
    /// nor is one for which memory is refused behind its reading. An error: memory for the reading was refused.
    pub fn get(&mut self, alloc: Global, text: &[u8]) -> Result<Option<Pattern>, AllocError>
        ensures { IfOk result (λ o. o ≡ pattern_of text.now) }
    {
        if let Some(pattern) = in_last(&self.last, text)? {
            return Ok(Some(pattern));
        }
        if let Some(pattern) = in_kept(&mut self.kept, text)? {
            self.last = Some(pattern.copy()?);
            return Ok(Some(pattern));
        }
        match Pattern::read(alloc, text)? {
            None => Ok(None),
            Some(pattern) => {
                match keep(alloc, &mut self.kept, &pattern) {
                    Ok(()) => {}
                    Err(AllocError) => {}
                }
                self.last = Some(pattern.copy()?);
                Ok(Some(pattern))
            }
        }
    }
}
