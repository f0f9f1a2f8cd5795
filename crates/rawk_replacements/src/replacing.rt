//! Matches that give way to a replacement (POSIX awk, String Functions, `sub` and `gsub`).

ghost use Rattle.std.specs.Bool.{OnTrue};
ghost use Rattle.std.specs.Prelude.{◌≡◌, ◌∷◌, ◌++◌, ℕ, List, [], Some, None, IfOk, OnOk, length, nat_eq, slice_range, ◌||◌};
ghost use Rattle.rawk_search.specs.Found.{IsWithin};
ghost use Rattle.rawk_search.specs.Replacements.{cuts, next_cut, replaced, replacement};
ghost use Rattle.rawk_replacements.specs.Replaced.{IsPlain, held, made_with, replaced_by};

use rawk_ere::Finder;
use rawk_search::{Pattern, Span, next_cut};
use rawk_words::Extent;
use std::alloc::{AllocError, Global};

/// Whether a backslash before a byte of a replacement stands for nothing.
fn is_escaped(byte: u8) -> bool
    ensures { result ≡ nat_eq byte 38 || nat_eq byte 92 }
{
    byte == b'&' || byte == b'\\'
}

/// Adds what a byte of a replacement stands for behind a backslash. An error: memory was refused.
fn push_escaped(out: &mut Vec<u8>, byte: u8) -> Result<(), AllocError>
    ensures { OnOk result ((found rest : List ℕ) → out.new.items ++ replacement found rest ≡ out.old.items ++ replacement found (92 ∷ (byte ∷ rest))) }
{
    if is_escaped(byte) {
        out.push(byte)?;
        return Ok(());
    }
    out.push(b'\\')?;
    out.push(byte)?;
    Ok(())
}

/// Adds what another byte of it stands for, and answers whether it is a backslash, of which the next byte says what it stands for. An error: memory was refused.
fn push_plain(out: &mut Vec<u8>, byte: u8, found: &[u8]) -> Result<bool, AllocError>
    ensures { IfOk result (λ now. (rest : List ℕ) → out.new.items ++ replacement found.now (held now ++ rest) ≡ out.old.items ++ replacement found.now (byte ∷ rest)) }
{
    if byte == b'\\' {
        return Ok(true);
    }
    if byte == b'&' {
        out.extend_from_slice(found)?;
    } else {
        out.push(byte)?;
    }
    Ok(false)
}

/// Adds what a byte of a replacement stands for, behind a backslash that is held or not, and answers whether one is held now. An error: memory was refused.
fn push_byte(out: &mut Vec<u8>, holds: bool, byte: u8, found: &[u8]) -> Result<bool, AllocError>
    ensures { IfOk result (λ now. (rest : List ℕ) → out.new.items ++ replacement found.now (held now ++ rest) ≡ out.old.items ++ replacement found.now (held holds ++ byte ∷ rest)) }
{
    if holds {
        push_escaped(out, byte)?;
        Ok(false)
    } else {
        push_plain(out, byte, found)
    }
}

/// Whether each byte of a replacement stands for itself.
fn is_plain(by: &[u8]) -> bool
    ensures { OnTrue result (IsPlain by.now) }
{
    by.iter().all(|byte| !is_escaped(*byte))
}

/// Adds bytes; a single one takes no call. An error: memory was refused.
#[inline(always)]
fn extend(out: &mut Vec<u8>, bytes: &[u8]) -> Result<(), AllocError>
    ensures { OnOk result (out.new.items ≡ out.old.items ++ bytes.now) }
{
    match bytes {
        [] => Ok(()),
        [byte] => {
            out.push(*byte)?;
            Ok(())
        }
        _ => out.extend_from_slice(bytes),
    }
}

/// Adds what stands for a match: a `&` is the match, `\&` an ampersand, `\\` a backslash, and any other byte itself. An error: memory was refused.
#[inline(never)]
fn push_marked(out: &mut Vec<u8>, by: &[u8], found: &[u8]) -> Result<(), AllocError>
    ensures { OnOk result (out.new.items ≡ out.old.items ++ replacement found.now by.now) }
{
    let mut holds = false;
    for byte in by {
        holds = push_byte(out, holds, *byte, found)?;
    }
    if holds {
        out.push(b'\\')?;
    }
    Ok(())
}

/// The same; `plain` says that each byte stands for itself. An error: memory was refused.
#[inline(always)]
fn push_replacement(
    out: &mut Vec<u8>,
    by: &[u8],
    plain: bool,
    found: &[u8],
) -> Result<(), AllocError>
    requires { OnTrue plain (IsPlain by.now) }
    ensures { OnOk result (out.new.items ≡ out.old.items ++ replacement found.now by.now) }
{
    if plain {
        return extend(out, by);
    }
    push_marked(out, by, found)
}

/// Adds a text from a place on up to a match, and what stands for the match. An error: memory was refused.
#[inline(always)]
fn push_match(
    out: &mut Vec<u8>,
    by: &[u8],
    plain: bool,
    text: &[u8],
    from: usize,
    found: Span,
) -> Result<(), AllocError>
    requires within { IsWithin from text.now found }
    requires plain { OnTrue plain (IsPlain by.now) }
    ensures { OnOk result (out.new.items ≡ out.old.items ++ (slice_range text.now from found.start ++ replacement (slice_range text.now found.start found.end) by.now)) }
{
    extend(out, &text[from..found.start])?;
    push_replacement(out, by, plain, &text[found.start..found.end])
}

/// Adds a text with all its matches replaced, of which this is the first, and answers how many there are. An error: memory was refused.
fn push_cuts(
    alloc: Global,
    out: &mut Vec<u8>,
    finder: &mut Finder<'_>,
    by: &[u8],
    text: &[u8],
    first: Span,
) -> Result<usize, AllocError>
    requires text { finder.old.text ≡ text.now }
    requires first { Some first ≡ next_cut text.now finder.old.ere 0 None }
    ensures items { IfOk result (λ n. out.new.items ≡ out.old.items ++ replaced by.now text.now 0 (cuts text.now finder.old.ere)) }
    ensures count { IfOk result (λ n. n ≡ length (cuts text.now finder.old.ere)) }
{
    let plain = is_plain(by);
    let mut next = Some(first);
    let mut copied = 0;
    let mut at = 0;
    let mut count = 0;
    while let Some(found) = next {
        push_match(out, by, plain, text, copied, found)?;
        copied = found.end;
        count += 1;
        if found.start < found.end {
            at = found.end;
            next = next_cut(alloc, finder, at, Some(at))?;
        } else {
            at = found.start + 1;
            next = if at <= text.len() {
                next_cut(alloc, finder, at, None)?
            } else {
                None
            };
        }
    }
    out.extend_from_slice(&text[copied..])?;
    Ok(count)
}

/// Adds a text with its first match replaced, which is this, and answers that there is one. An error: memory was refused.
fn push_first(out: &mut Vec<u8>, by: &[u8], text: &[u8], first: Span) -> Result<usize, AllocError>
    requires { IsWithin 0 text.now first }
    ensures items { OnOk result (out.new.items ≡ out.old.items ++ replaced by.now text.now 0 (first ∷ [])) }
    ensures count { IfOk result (λ n. n ≡ 1) }
{
    push_match(out, by, is_plain(by), text, 0, first)?;
    out.extend_from_slice(&text[first.end..])?;
    Ok(1)
}

/// Makes a text where the first match of an expression, or each, gives way to a replacement, in which a `&` stands for the match, `\&` for an ampersand and `\\` for a backslash, and
/// answers how many do; nothing where there is no match, and then no text was made. It takes time by the length of the text and of what is made. An error: memory was refused.
pub fn replace(
    alloc: Global,
    pattern: &Pattern,
    by: &[u8],
    text: &[u8],
    extent: Extent,
    out: &mut Vec<u8>,
) -> Result<Option<usize>, AllocError>
    ensures { IfOk result (λ count. Some (made_with out.new.items count) ≡ replaced_by extent pattern.now by.now text.now) }
{
    let mut finder = Finder::new(pattern.ere(), text);
    let Some(first) = next_cut(alloc, &mut finder, 0, None)? else {
        return Ok(None);
    };
    out.clear();
    out.reserve(text.len().saturating_add(by.len()))?;
    let count = match extent {
        Extent::First => push_first(out, by, text, first)?,
        Extent::All => push_cuts(alloc, out, &mut finder, by, text, first)?,
    };
    Ok(Some(count))
}
