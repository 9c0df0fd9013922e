//! What a byte can begin.

ghost use Rattle.std.specs.Prelude.{◌≡◌, slice_index};
ghost use Rattle.rr_lexer.specs.Bytes.{class_of, is_word_byte};

/// What a byte can begin.
#[derive(Clone, Copy, Debug, PartialEq, Eq, Drop)]
pub enum Class {
    /// A letter below, or `_`.
    Lower,
    Upper,
    Digit,
    Double,
    Single,
    Hash,
    LineFeed,
    Return,
    Blank,
    Backslash,
    At,
    Dollar,
    Colon,
    OpenBrace,
    CloseBrace,
    /// The first byte of another operator or bracket.
    Mark,
    Other,
}

#[tactic(auto, unfolding(crate::specs::Bytes::class_of))]
#[inline(always)]
pub fn class_of(b: u8) -> Class
    ensures { result ≡ class_of b }
{
    match b {
        b'a'..=b'z' | b'_' => Class::Lower,
        b'A'..=b'Z' => Class::Upper,
        b'0'..=b'9' => Class::Digit,
        b'"' => Class::Double,
        b'\'' => Class::Single,
        b'#' => Class::Hash,
        b'\n' => Class::LineFeed,
        b'\r' => Class::Return,
        b' ' | b'\t' => Class::Blank,
        b'\\' => Class::Backslash,
        b'@' => Class::At,
        b'$' => Class::Dollar,
        b':' => Class::Colon,
        b'{' => Class::OpenBrace,
        b'}' => Class::CloseBrace,
        b'('..=b'/' | b'%' | b'&' | b'!' | b';'..=b'?' | b'[' | b']' | b'|' => Class::Mark,
        _ => Class::Other,
    }
}

/// Whether a name goes on with a byte.
#[tactic(auto, unfolding(crate::specs::Bytes::class_of))]
pub fn is_word_byte(b: u8) -> bool
    ensures { result ≡ is_word_byte b }
{
    matches!(b, b'a'..=b'z' | b'_' | b'A'..=b'Z' | b'0'..=b'9')
}

/// The byte at a place, or 0 past the end.
pub fn byte_at(rest: &[u8], i: usize) -> u8
    ensures { result ≡ slice_index rest.now i }
{
    if i < rest.len() { rest[i] } else { 0 }
}
