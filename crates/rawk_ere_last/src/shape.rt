//! What all matches of an expression have in common.

ghost use Rattle.std.specs.Prelude.{◌≡◌, Some, false, map};
ghost use Rattle.rawk_ere_tree.specs.Node.{tree_of, joined, alternated};
ghost use Rattle.rawk_ere_last.specs.Shapes.{shape_in, last_in, both_in, one_in};

use rawk_ere_tree::node::Node;

/// How long a match may be.
const MOST: usize = 65536;

/// What all matches of an expression have in common.
#[derive(Clone, Copy)]
pub struct Shape {
    /// How many bytes each has.
    pub width: usize,
    /// Whether each ends at the end of the text alone.
    pub is_last: bool,
}

/// The shape of what has `width` bytes.
fn of_width(width: usize) -> Option<Shape>
    ensures { result ≡ Some (record { width = width; is_last = false }) }
{
    Some(Shape {
        width,
        is_last: false,
    })
}

/// The shape of two parts, one after the other.
fn both(first: Option<Shape>, second: Option<Shape>) -> Option<Shape>
    ensures { result ≡ both_in first second }
{
    let a = first?;
    let b = second?;
    let width = a.width.saturating_add(b.width);
    if width > MOST {
        return None;
    }
    Some(Shape {
        width,
        is_last: b.is_last,
    })
}

/// The shape of one of two parts.
fn one(first: Option<Shape>, second: Option<Shape>) -> Option<Shape>
    ensures { result ≡ one_in first second }
{
    let a = first?;
    let b = second?;
    if a.width != b.width {
        return None;
    }
    Some(Shape {
        width: a.width,
        is_last: a.is_last && b.is_last,
    })
}

/// The shape of the expression, if its matches have one.
#[cycle(shape_of)]
fn shape_of(node: &Node) -> Option<Shape>
    ensures { result ≡ shape_in (tree_of node.now) }
{
    match node {
        Node::Empty => of_width(0),
        Node::OneOf(_) => of_width(1),
        Node::Start => of_width(0),
        Node::End => Some(Shape {
            width: 0,
            is_last: true,
        }),
        Node::Join(parts) => joined_shape(parts),
        Node::Either(parts) => alternated_shape(parts),
        Node::Group(part) => shape_of(part),
        Node::Repeat(_, _) => None,
    }
}

/// The shape of the parts, one after the other.
#[cycle(shape_of)]
fn joined_shape(parts: &[Node]) -> Option<Shape>
    ensures { result ≡ shape_in (joined (map tree_of parts.now)) }
{
    if parts.len() == 0 {
        return of_width(0);
    }
    let mut all = shape_of(&parts[0]);
    for index in 1..parts.len() {
        all = both(all, shape_of(&parts[index]));
    }
    all
}

/// The shape of one of the parts.
#[cycle(shape_of)]
fn alternated_shape(parts: &[Node]) -> Option<Shape>
    ensures { result ≡ shape_in (alternated (map tree_of parts.now)) }
{
    if parts.len() == 0 {
        return of_width(0);
    }
    let mut all = shape_of(&parts[0]);
    for index in 1..parts.len() {
        all = one(all, shape_of(&parts[index]));
    }
    all
}

/// How many bytes each match of the expression has, if that is the same of all, and each ends at the end of the text alone.
pub fn last_width(node: &Node) -> Option<usize>
    ensures { result ≡ last_in (tree_of node.now) }
{
    let all = shape_of(node)?;
    if all.is_last { Some(all.width) } else { None }
}
