//! Where a regular expression between slashes ends.

ghost use Rattle.std.specs.Prelude.{◌≡◌, ◌<◌, ◌≤◌, ◌+◌, ◌^◌, length, IfSome};
ghost use Rattle.rawk_lexer.specs.Ere as spec;

/// What a byte of a regular expression stands behind.
#[derive(Clone, Copy, PartialEq, Eq)]
pub enum Behind {
    /// Outside a bracket expression.
    Outside,
    /// A backslash outside a bracket expression.
    Escape,
    /// The `[` of a bracket expression.
    Bracket,
    /// The `[^` of a bracket expression.
    Caret,
    /// An item of a bracket expression.
    Item,
    /// A backslash in a bracket expression.
    ItemEscape,
    /// A `[` in a bracket expression.
    ItemBracket,
    /// The `[:` of a class.
    Class,
    /// A `:` in a class.
    ClassColon,
}

fn after_item(b: u8) -> Behind
    ensures { result ≡ spec.after_item b }
{
    match b {
        b']' => Behind::Outside,
        b'\\' => Behind::ItemEscape,
        b'[' => Behind::ItemBracket,
        _ => Behind::Item,
    }
}

fn after_first(b: u8) -> Behind
    ensures { result ≡ spec.after_first b }
{
    if b == b']' {
        Behind::Item
    } else {
        after_item(b)
    }
}

fn after(behind: Behind, b: u8) -> Behind
    ensures { result ≡ spec.after behind b }
{
    match behind {
        Behind::Outside => match b {
            b'[' => Behind::Bracket,
            b'\\' => Behind::Escape,
            _ => Behind::Outside,
        },
        Behind::Escape => Behind::Outside,
        Behind::Bracket => {
            if b == b'^' {
                Behind::Caret
            } else {
                after_first(b)
            }
        }
        Behind::Caret => after_first(b),
        Behind::Item => after_item(b),
        Behind::ItemEscape => Behind::Item,
        Behind::ItemBracket => {
            if b == b':' {
                Behind::Class
            } else {
                after_item(b)
            }
        }
        Behind::Class => {
            if b == b':' {
                Behind::ClassColon
            } else {
                Behind::Class
            }
        }
        Behind::ClassColon => match b {
            b']' => Behind::Item,
            b':' => Behind::ClassColon,
            _ => Behind::Class,
        },
    }
}

fn is_outside(behind: Behind) -> bool
    ensures { result ≡ spec.is_outside behind }
{
    matches!(behind, Behind::Outside)
}

/// The place after the slash that ends a regular expression, for a text that begins at place 1, behind the first slash.
/// `None` where a newline or the end of the text comes first.
pub fn closing(mut z: &[u8]) -> Option<usize>
    requires { length z.now < 2 ^ 63 }
    ensures value { result ≡ spec.closing Behind.Outside 1 z.entry.now }
    ensures within { IfSome result (λ end. (1 ≤ end) × (end ≤ length z.entry.now + 1)) }
{
    let mut behind = Behind::Outside;
    let mut at = 1;
    while let [b, rest @ ..] = z {
        if *b == b'\n' {
            return None;
        }
        if *b == b'/' && is_outside(behind) {
            return Some(at + 1);
        }
        behind = after(behind, *b);
        at += 1;
        z = rest;
    }
    None
}
