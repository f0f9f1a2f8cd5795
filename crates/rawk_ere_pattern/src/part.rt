//! A part of an expression that is being read, with its measures.

ghost use Rattle.std.specs.Prelude.{◌≡◌, ◌+◌, ◌*◌, ◌<◌, ◌≤◌, min, ◌⊎◌, IfOk, IfErr, [], ◌∷◌};
ghost use Rattle.rawk_ere_tree.specs.Tree.{Empty, OneOf, Start, End, Join, Either, Group, Repeat, size_of, nesting_of, repeated_size};
ghost use Rattle.rawk_ere_tree.specs.Node.{tree_of};

use crate::error::EreError;
use rawk_ere_tree::byte_set::ByteSet;
use rawk_ere_tree::node::{Count, Node};
use std::alloc::{AllocError, Global};
use std::marker::Model;

/// A part: its node, its size if that is at most 65,536, else 65,537, and its nesting, at most 200. A contract sees its tree.
#[derive(Drop)]
pub struct Part {
    node: Node,
    size: u32,
    nesting: u32,
}

/// The tree of the part.
impl Model for Part {
    ghost use Rattle.rawk_ere_tree.specs.Tree.{Tree};
    ghost use Rattle.rawk_ere_tree.specs.TreeCode.{tree_code};

    ghost Value = { Tree };

    ghost coded = { tree_code };

    ghost use Rattle.std.specs.Prelude.{◌≡◌, ◌≤◌, min};
    ghost use Rattle.rawk_ere_tree.specs.Tree.{size_of, nesting_of};
    ghost use Rattle.rawk_ere_tree.specs.Node.{tree_of};

    ghost view = { λ p. tree_of p.node };

    ghost invariant = { λ p. (p.size ≡ min (size_of (tree_of p.node)) 65537)
        × (p.nesting ≡ nesting_of (tree_of p.node))
        × (p.nesting ≤ 200) };
}

/// Two nodes, one after the other.
fn join_nodes(alloc: Global, a: Node, b: Node) -> Result<Node, AllocError>
    ensures { IfOk result (λ n. tree_of n ≡ Join (tree_of a) (tree_of b)) }
{
    match a {
        Node::Join(parts) => join_to(alloc, parts, b),
        first => join_pair(alloc, first, b),
    }
}

/// A node after a row of nodes.
fn join_to(alloc: Global, mut parts: Vec<Node>, b: Node) -> Result<Node, AllocError>
    ensures { IfOk result (λ n. tree_of n ≡ Join (tree_of (Node.Join parts)) (tree_of b)) }
{
    if parts.len() == 0 {
        return join_pair(alloc, Node::Join(parts), b);
    }
    parts.push(b)?;
    Ok(Node::Join(parts))
}

fn join_pair(alloc: Global, a: Node, b: Node) -> Result<Node, AllocError>
    ensures { IfOk result (λ n. tree_of n ≡ Join (tree_of a) (tree_of b)) }
{
    let parts = pair(alloc, a, b)?;
    Ok(Node::Join(parts))
}

/// One of two nodes.
fn alternate_nodes(alloc: Global, a: Node, b: Node) -> Result<Node, AllocError>
    ensures { IfOk result (λ n. tree_of n ≡ Either (tree_of a) (tree_of b)) }
{
    match a {
        Node::Either(parts) => alternate_to(alloc, parts, b),
        first => alternate_pair(alloc, first, b),
    }
}

/// A row of nodes, or one more.
fn alternate_to(alloc: Global, mut parts: Vec<Node>, b: Node) -> Result<Node, AllocError>
    ensures { IfOk result (λ n. tree_of n ≡ Either (tree_of (Node.Either parts)) (tree_of b)) }
{
    if parts.len() == 0 {
        return alternate_pair(alloc, Node::Either(parts), b);
    }
    parts.push(b)?;
    Ok(Node::Either(parts))
}

fn alternate_pair(alloc: Global, a: Node, b: Node) -> Result<Node, AllocError>
    ensures { IfOk result (λ n. tree_of n ≡ Either (tree_of a) (tree_of b)) }
{
    let parts = pair(alloc, a, b)?;
    Ok(Node::Either(parts))
}

fn pair(alloc: Global, a: Node, b: Node) -> Result<Vec<Node>, AllocError>
    ensures { IfOk result (λ v. v.items ≡ a ∷ b ∷ []) }
{
    let mut parts = Vec::with_capacity(alloc, 2)?;
    parts.push(a)?;
    parts.push(b)?;
    Ok(parts)
}

fn group_node(alloc: Global, a: Node) -> Result<Node, AllocError>
    ensures { IfOk result (λ n. tree_of n ≡ Group (tree_of a)) }
{
    let inner = Box::new(alloc, a)?;
    Ok(Node::Group(inner))
}

fn repeat_node(alloc: Global, a: Node, count: Count) -> Result<Node, AllocError>
    ensures { IfOk result (λ n. tree_of n ≡ Repeat (tree_of a) count) }
{
    let inner = Box::new(alloc, a)?;
    Ok(Node::Repeat(inner, count))
}

/// The size that a repetition gives a part of this size, as far as the limit tells it.
fn repeated(count: Count, size: u32) -> u32
    requires { size ≤ 65537 }
    ensures { result ≡ min (repeated_size count size) 65537 }
{
    let whole = match count {
        Count::Star => size + 1,
        Count::Plus => size + 1,
        Count::Maybe => size + 1,
        Count::AtLeast(least) => 1 + (least as u32 + 1) * (size + 1),
        Count::Between(least, more) => 1 + (least as u32 + more as u32) * (size + 1),
    };
    whole.min(65537)
}

impl Part {
    /// Nothing.
    pub fn empty() -> Part
        ensures { result ≡ Empty }
    {
        Part {
            node: Node::Empty,
            size: 1,
            nesting: 0,
        }
    }

    /// One byte of the set.
    pub fn one_of(set: ByteSet) -> Part
        ensures { result ≡ OneOf set }
    {
        Part {
            node: Node::OneOf(set),
            size: 1,
            nesting: 0,
        }
    }

    /// The start of the text.
    pub fn start() -> Part
        ensures { result ≡ Start }
    {
        Part {
            node: Node::Start,
            size: 1,
            nesting: 0,
        }
    }

    /// The end of the text.
    pub fn end() -> Part
        ensures { result ≡ End }
    {
        Part {
            node: Node::End,
            size: 1,
            nesting: 0,
        }
    }

    /// The part, and after it the other.
    pub fn join(self, alloc: Global, other: Part) -> Result<Part, AllocError>
        ensures { IfOk result (λ p. p ≡ Join self other) }
    {
        let Part {
            node: a,
            size: a_size,
            nesting: a_nesting,
        } = self;
        let Part {
            node: b,
            size: b_size,
            nesting: b_nesting,
        } = other;
        let node = join_nodes(alloc, a, b)?;
        Ok(Part {
            node,
            size: (a_size + b_size + 1).min(65537),
            nesting: a_nesting.max(b_nesting),
        })
    }

    /// The part or the other.
    pub fn or(self, alloc: Global, other: Part) -> Result<Part, AllocError>
        ensures { IfOk result (λ p. p ≡ Either self other) }
    {
        let Part {
            node: a,
            size: a_size,
            nesting: a_nesting,
        } = self;
        let Part {
            node: b,
            size: b_size,
            nesting: b_nesting,
        } = other;
        let node = alternate_nodes(alloc, a, b)?;
        Ok(Part {
            node,
            size: (a_size + b_size + 1).min(65537),
            nesting: a_nesting.max(b_nesting),
        })
    }

    /// The part in parentheses. `TooLarge`: it is nested too deep.
    pub fn group(self, alloc: Global) -> Result<Part, EreError>
        ensures is { IfOk result (λ p. p ≡ Group self) }
        ensures refused { IfErr result (λ x. (x ≡ EreError.Memory) ⊎ ((x ≡ EreError.TooLarge) × (200 < nesting_of (Group self)))) }
    {
        let Part {
            node,
            size,
            nesting,
        } = self;
        if nesting >= 200 {
            return Err(EreError::TooLarge);
        }
        let node = group_node(alloc, node)?;
        Ok(Part {
            node,
            size,
            nesting: nesting + 1,
        })
    }

    /// The part, as often as the count says. `TooLarge`: it is nested too deep.
    pub fn repeat(self, alloc: Global, count: Count) -> Result<Part, EreError>
        ensures is { IfOk result (λ p. p ≡ Repeat self count) }
        ensures refused { IfErr result (λ x. (x ≡ EreError.Memory) ⊎ ((x ≡ EreError.TooLarge) × (200 < nesting_of (Repeat self count)))) }
    {
        let Part {
            node,
            size,
            nesting,
        } = self;
        if nesting >= 200 {
            return Err(EreError::TooLarge);
        }
        let node = repeat_node(alloc, node, count)?;
        Ok(Part {
            node,
            size: repeated(count, size),
            nesting: nesting + 1,
        })
    }

    /// The size, if it is at most 65,536, else 65,537.
    pub fn size(&self) -> u32
        ensures { result ≡ min (size_of self.now) 65537 }
    {
        self.size
    }

    /// The node of the part, which is nested at most 200 deep.
    pub fn into_node(self) -> Node
        ensures tree { tree_of result ≡ self }
        ensures nesting { nesting_of self ≤ 200 }
    {
        let Part {
            node,
            size: _,
            nesting: _,
        } = self;
        node
    }
}
