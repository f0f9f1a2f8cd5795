//! From tokens to the tree.

ghost use Rattle.std.specs.Prelude.{◌≡◌, ◌+◌, ◌<◌, ◌⊎◌, [], reverse, IfOk, IfErr, Some, None, true, false};
ghost use Rattle.rawk_ere_tree.specs.Tree.{IsWithinLimits};
ghost use Rattle.rawk_ere_tree.specs.Node.{tree_of};
ghost use Rattle.rawk_ere_pattern.specs.PatternOf.{IsPatternOf, IsRefused, IsReadOnce};
ghost use Rattle.rawk_ere_pattern.specs.Reading.{fresh, pieces_with, whole_of, with_atom, with_anchor, with_bar, with_count, step, run, is_formed, depth_of, IsStepRefused, IsTreeRefused};

use crate::error::EreError;
use crate::part::Part;
use crate::scan::scan;
use crate::token::Token;
use rawk_ere_tree::node::{Count, Node};
use std::alloc::{AllocError, Global};

/// What has been read of a group: the branches before the last bar, the pieces after it that stand as they are, and the
/// last piece, if it may still be repeated.
#[derive(Drop)]
pub struct Frame {
    pub alternatives: Option<Part>,
    pub pieces: Option<Part>,
    pub current: Option<Part>,
}

/// What of a group is read at its start.
fn nothing_read() -> Frame
    ensures { result ≡ fresh }
{
    Frame {
        alternatives: None,
        pieces: None,
        current: None,
    }
}

/// The pieces, with the last one.
fn join_last(
    alloc: Global,
    pieces: Option<Part>,
    current: Option<Part>,
) -> Result<Option<Part>, AllocError>
    ensures { IfOk result (λ p. p ≡ pieces_with pieces current) }
{
    match current {
        None => Ok(pieces),
        Some(last) => match pieces {
            None => Ok(Some(last)),
            Some(before) => {
                let both = before.join(alloc, last)?;
                Ok(Some(both))
            }
        },
    }
}

/// All that is read of the group.
fn close_group(alloc: Global, frame: Frame) -> Result<Part, AllocError>
    ensures { IfOk result (λ p. p ≡ whole_of frame) }
{
    let all = join_last(alloc, frame.pieces, frame.current)?;
    let branch = match all {
        None => Part::empty(),
        Some(part) => part,
    };
    match frame.alternatives {
        None => Ok(branch),
        Some(before) => before.or(alloc, branch),
    }
}

/// One more piece, which may be repeated.
fn add_atom(alloc: Global, frame: Frame, atom: Part) -> Result<Frame, AllocError>
    ensures { IfOk result (λ f. f ≡ with_atom frame atom) }
{
    let all = join_last(alloc, frame.pieces, frame.current)?;
    Ok(Frame {
        alternatives: frame.alternatives,
        pieces: all,
        current: Some(atom),
    })
}

/// One more piece, which may not.
fn add_anchor(alloc: Global, frame: Frame, anchor: Part) -> Result<Frame, AllocError>
    ensures { IfOk result (λ f. f ≡ with_anchor frame anchor) }
{
    let all = join_last(alloc, frame.pieces, frame.current)?;
    let joined = match all {
        None => anchor,
        Some(before) => before.join(alloc, anchor)?,
    };
    Ok(Frame {
        alternatives: frame.alternatives,
        pieces: Some(joined),
        current: None,
    })
}

/// The branch is over.
fn add_bar(alloc: Global, frame: Frame) -> Result<Frame, AllocError>
    ensures { IfOk result (λ f. f ≡ with_bar frame) }
{
    let all = close_group(alloc, frame)?;
    Ok(Frame {
        alternatives: Some(all),
        pieces: None,
        current: None,
    })
}

/// The last piece is repeated.
fn add_count(alloc: Global, frame: Frame, count: Count) -> Result<Frame, EreError>
    ensures is { IfOk result (λ f. with_count frame frame.current count ≡ Some f) }
    ensures refused { IfErr result (λ x. (x ≡ EreError.Memory) ⊎ ((x ≡ EreError.Syntax) × (with_count frame frame.current count ≡ None))
        ⊎ ((x ≡ EreError.TooLarge) × ((f : Frame) → with_count frame frame.current count ≡ Some f → 200 < depth_of f))) }
{
    let Frame {
        alternatives,
        pieces,
        current,
    } = frame;
    match current {
        None => Err(EreError::Syntax),
        Some(last) => {
            let repeated = last.repeat(alloc, count)?;
            Ok(Frame {
                alternatives,
                pieces,
                current: Some(repeated),
            })
        }
    }
}

/// What a token makes of the groups that are open; the innermost one is given and answered apart.
fn read_token(
    alloc: Global,
    outer: &mut Vec<Frame>,
    inner: Frame,
    token: Token,
) -> Result<Frame, EreError>
    ensures is { IfOk result (λ f. step (reverse outer.old.items) inner token ≡ Some (reverse outer.new.items, f)) }
    ensures refused { IfErr result (λ x. IsStepRefused x (step (reverse outer.old.items) inner token)) }
{
    match token {
        Token::OneOf(set) => Ok(add_atom(alloc, inner, Part::one_of(set))?),
        Token::Start => Ok(add_anchor(alloc, inner, Part::start())?),
        Token::End => Ok(add_anchor(alloc, inner, Part::end())?),
        Token::Bar => Ok(add_bar(alloc, inner)?),
        Token::Open => {
            outer.push(inner).map_err(AllocError::from)?;
            Ok(nothing_read())
        }
        Token::Close => match outer.pop() {
            None => Err(EreError::Syntax),
            Some(frame) => {
                let whole = close_group(alloc, inner)?;
                let group = whole.group(alloc)?;
                Ok(add_atom(alloc, frame, group)?)
            }
        },
        Token::Times(count) => {
            let repeated = add_count(alloc, inner, count)?;
            Ok(repeated)
        }
    }
}

/// Whether the tokens have a tree. It takes no memory.
fn is_well_formed(tokens: &[Token]) -> bool
    ensures { result ≡ is_formed tokens.now 0 false }
{
    let mut depth: usize = 0;
    let mut last = false;
    for index in 0..tokens.len() {
        match tokens[index] {
            Token::OneOf(_) => last = true,
            Token::Start => last = false,
            Token::End => last = false,
            Token::Bar => last = false,
            Token::Open => {
                depth += 1;
                last = false;
            }
            Token::Close => {
                if depth == 0 {
                    return false;
                }
                depth -= 1;
                last = true;
            }
            Token::Times(_) => {
                if !last {
                    return false;
                }
            }
        }
    }
    depth == 0
}

/// The part that well-formed tokens stand for.
fn read_tokens(alloc: Global, tokens: &[Token]) -> Result<Part, EreError>
    ensures is { IfOk result (λ e. run [] fresh tokens.now ≡ Some e) }
    ensures refused { IfErr result (λ x. IsTreeRefused x (run [] fresh tokens.now)) }
{
    let mut outer = Vec::new(alloc);
    let mut inner = nothing_read();
    for index in 0..tokens.len() {
        inner = read_token(alloc, &mut outer, inner, tokens[index])?;
    }
    if outer.len() > 0 {
        return Err(EreError::Syntax);
    }
    let whole = close_group(alloc, inner)?;
    Ok(whole)
}

/// The node that a pattern stands for. `Syntax`: it is no expression; `TooLarge`: it is one beyond the limits.
pub fn read(alloc: Global, pattern: &[u8]) -> Result<Node, EreError>
    ensures is { IfOk result (λ n. IsPatternOf pattern.now (tree_of n)) }
    ensures within { IfOk result (λ n. IsWithinLimits (tree_of n)) }
    ensures refused { IfErr result (λ x. IsRefused x pattern.now) }
{
    let tokens = scan(alloc, pattern)?;
    if !is_well_formed(&tokens) {
        return Err(EreError::Syntax);
    }
    let part = read_tokens(alloc, &tokens)?;
    if part.size() > 65536 {
        return Err(EreError::TooLarge);
    }
    Ok(part.into_node())
}

/// A pattern is one expression at most: a law for proofs, which costs nothing.
pub fn is_read_once()
    ensures { IsReadOnce }
{}
