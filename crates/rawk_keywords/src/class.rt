//! Classes of bytes.

ghost use Rattle.std.specs.Prelude.{◌≡◌};
ghost use Rattle.rawk_keywords.specs.Classes as spec;

/// What bytes may stand together between the tokens and in them (POSIX awk, "Lexical Conventions").
#[derive(Clone, Copy)]
pub enum Class {
    Blank,
    Digit,
    Word,
    Line,
}

/// Whether a byte is of the class.
pub fn is_in(class: Class, b: u8) -> bool
    ensures { result ≡ spec.is_in class b }
{
    match class {
        Class::Blank => b == b' ' || b == b'\t',
        Class::Digit => b.is_ascii_digit(),
        Class::Word => b.is_ascii_alphanumeric() || b == b'_',
        Class::Line => b != b'\n',
    }
}
