//! Names, labels, symbols and variables.

ghost use Rattle.std.specs.Prelude.{◌≡◌, ◌≤◌, ◌+◌, ◌<◌, length, take, drop, slice_index, IfSome};
ghost use Rattle.std.specs.List.{prefix_len};
ghost use Rattle.rr_lexer.specs.Bytes.{class_of, is_word_byte};
ghost use Rattle.rr_lexer.specs.Words.{takes_mark, takes_colon};
ghost use Rattle.rr_lexer.specs.Scans.{unless_left_out, word_kind, sized, lower_at, upper_at, prefixed, variable_at, colon_at};

use crate::class::{Class, byte_at, class_of, is_word_byte};
use crate::kind::Kind;
use crate::ops::op_at;
use crate::reserved::{is_left_out, keyword_from};

/// How many bytes at the front go on in a name.
#[tactic(auto, using(crate::proofs::Prefixes::prefix_passes))]
fn word_len(rest: &[u8]) -> usize
    ensures is { result ≡ prefix_len is_word_byte rest.now }
    ensures within { result ≤ length rest.now }
{
    for (i, b) in rest.iter().enumerate() {
        if !is_word_byte(*b) {
            return i;
        }
    }
    rest.len()
}

/// Whether these two bytes behind a word are a `?` or `!` that belongs to it.
fn takes_mark(b: u8, c: u8) -> bool
    ensures { result ≡ takes_mark b c }
{
    (b == b'?' || b == b'!') && c != b'='
}

/// Whether these two bytes behind a word are the colon of a label.
fn takes_colon(b: u8, c: u8) -> bool
    ensures { result ≡ takes_colon b c }
{
    b == b':' && c != b':'
}

/// What a word without `?` or `!` that begins with a letter below or `_` is.
fn word_kind(after_dot: bool, word: &[u8]) -> Option<Kind>
    ensures { result ≡ word_kind after_dot word.now }
{
    if after_dot {
        return Some(Kind::Name);
    }
    match keyword_from(word) {
        Some(k) => Some(Kind::Keyword(k)),
        None => {
            if is_left_out(word) {
                None
            } else {
                Some(Kind::Name)
            }
        }
    }
}

/// What another word is, if it is not left out.
fn unless_left_out(kind: Kind, after_dot: bool, word: &[u8]) -> Option<Kind>
    ensures { result ≡ unless_left_out kind after_dot word.now }
{
    if after_dot || !is_left_out(word) {
        Some(kind)
    } else {
        None
    }
}

fn sized(n: usize, kind: Option<Kind>) -> Option<(Kind, usize)>
    ensures { result ≡ sized n kind }
{
    match kind {
        Some(kind) => Some((kind, n)),
        None => None,
    }
}

/// The label, name or keyword at the front, which begins with a letter below or `_`, and how many bytes it takes.
#[tactic(auto, unfolding(crate::specs::Scans::lower_at), using(crate::proofs::Heads::byte_within))]
pub fn lower_at(after_dot: bool, rest: &[u8]) -> Option<(Kind, usize)>
    ensures { result ≡ lower_at after_dot rest.now }
{
    let n = word_len(rest);
    let (b, c) = (byte_at(rest, n), byte_at(rest, n + 1));
    if takes_colon(b, c) {
        Some((Kind::Label, n + 1))
    } else if takes_mark(b, c) {
        sized(
            n + 1,
            unless_left_out(Kind::Name, after_dot, &rest[..n + 1]),
        )
    } else {
        sized(n, word_kind(after_dot, &rest[..n]))
    }
}

/// The label or constant at the front, which begins with a capital letter, and how many bytes it takes.
#[tactic(auto, unfolding(crate::specs::Scans::upper_at))]
pub fn upper_at(after_dot: bool, rest: &[u8]) -> Option<(Kind, usize)>
    ensures { result ≡ upper_at after_dot rest.now }
{
    let n = word_len(rest);
    let (b, c) = (byte_at(rest, n), byte_at(rest, n + 1));
    if takes_colon(b, c) {
        Some((Kind::Label, n + 1))
    } else {
        sized(n, unless_left_out(Kind::Constant, after_dot, &rest[..n]))
    }
}

/// A token of a kind that a word ends, which begins behind the first byte.
fn prefixed(kind: Kind, rest: &[u8]) -> Option<(Kind, usize)>
    requires { 0 < length rest.now }
    ensures { result ≡ prefixed kind rest.now }
{
    Some((kind, word_len(&rest[1..]) + 1))
}

/// The variable of a kind at the front, whose first byte says the kind.
pub fn variable_at(kind: Kind, rest: &[u8]) -> Option<(Kind, usize)>
    requires { 0 < length rest.now }
    ensures { result ≡ variable_at kind rest.now }
{
    match class_of(byte_at(rest, 1)) {
        Class::Lower => prefixed(kind, rest),
        _ => None,
    }
}

/// The symbol or operator that begins with a colon at the front.
pub fn colon_at(rest: &[u8]) -> Option<(Kind, usize)>
    requires { 0 < length rest.now }
    ensures { result ≡ colon_at rest.now }
{
    match class_of(byte_at(rest, 1)) {
        Class::Lower | Class::Upper => prefixed(Kind::Symbol, rest),
        _ => op_at(rest),
    }
}
