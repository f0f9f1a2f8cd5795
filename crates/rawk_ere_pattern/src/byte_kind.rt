//! Which bytes of a pattern are special (POSIX XBD 9.4.3).

ghost use Rattle.std.specs.Prelude.{◌≡◌};
ghost use Rattle.rawk_ere_pattern.specs.Pattern as spec;

/// What a byte of a pattern is outside bracket expressions: ordinary, or special by what it stands for or begins.
#[derive(Clone, Copy)]
pub enum ByteKind {
    Ordinary,
    Any,
    Start,
    End,
    Bar,
    Open,
    Close,
    Star,
    Plus,
    Maybe,
    Backslash,
    Bracket,
    Brace,
}

/// The kind of a byte.
pub fn kind_of(byte: u8) -> ByteKind
    ensures { result ≡ spec.kind_of byte }
{
    match byte {
        b'.' => ByteKind::Any,
        b'^' => ByteKind::Start,
        b'$' => ByteKind::End,
        b'|' => ByteKind::Bar,
        b'(' => ByteKind::Open,
        b')' => ByteKind::Close,
        b'*' => ByteKind::Star,
        b'+' => ByteKind::Plus,
        b'?' => ByteKind::Maybe,
        b'\\' => ByteKind::Backslash,
        b'[' => ByteKind::Bracket,
        b'{' => ByteKind::Brace,
        _ => ByteKind::Ordinary,
    }
}
