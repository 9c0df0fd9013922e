//! Texts in quotes.

ghost use Rattle.std.specs.Prelude.{◌≡◌, ◌<◌, ◌≤◌, false, length, drop, IfSome};
ghost use Rattle.rr_lexer.specs.Texts.{is_sign, is_escape};
ghost use Rattle.rr_lexer.specs.Scans.{piece, breaks_off, single_len, at_quote, at_brace, quote_sized, brace_sized, single_sized};

use crate::class::{Class, class_of};
use crate::kind::Kind;

/// Where the scan of a piece of a text stands.
#[derive(Clone, Copy, Debug, PartialEq, Eq, Drop)]
pub enum Mode {
    Plain,
    /// Behind a backslash.
    Escaped,
    /// Behind `#`.
    Hash,
    /// Behind a backslash and a carriage return.
    Returned,
}

fn is_sign(class: Class) -> bool
    ensures { result ≡ is_sign class }
{
    !matches!(
        class,
        Class::Lower | Class::Upper | Class::Digit | Class::LineFeed | Class::Return
    )
}

/// Whether a byte may stand behind a backslash.
#[tactic(auto, unfolding(crate::specs::Texts::is_escape))]
fn is_escape(b: u8) -> bool
    ensures { result ≡ is_escape b }
{
    matches!(b, b'n' | b't' | b'r' | b'e' | b's' | b'_') || is_sign(class_of(b))
}

/// How many bytes a piece takes, and whether an interpolation follows it.
fn piece(rest: &[u8]) -> Option<(bool, usize)>
    ensures is { result ≡ piece rest.now Mode.Plain }
    ensures within { IfSome result (λ p. p.1 ≤ length rest.now) }
{
    let mut mode = Mode::Plain;
    for (i, b) in rest.iter().enumerate() {
        if mode == Mode::Escaped {
            if is_escape(*b) {
                mode = Mode::Plain;
            } else if *b == b'\r' {
                mode = Mode::Returned;
            } else {
                return None;
            }
        } else if mode == Mode::Hash && *b == b'{' {
            return Some((true, i + 1));
        } else if mode == Mode::Hash && (*b == b'@' || *b == b'$') {
            return None;
        } else if mode == Mode::Returned && *b == b'\n' {
            return None;
        } else if *b == b'"' {
            return Some((false, i + 1));
        } else if *b == b'\\' {
            mode = Mode::Escaped;
        } else if *b == b'#' {
            mode = Mode::Hash;
        } else {
            mode = Mode::Plain;
        }
    }
    None
}

/// Whether a piece has an escape, or a `#` before `@` or `$`, that is left out, before anything that ends it.
pub fn breaks_off(rest: &[u8]) -> bool
    ensures { result ≡ breaks_off rest.now Mode.Plain }
{
    let mut mode = Mode::Plain;
    for b in rest {
        if mode == Mode::Escaped {
            if is_escape(*b) {
                mode = Mode::Plain;
            } else if *b == b'\r' {
                mode = Mode::Returned;
            } else {
                return true;
            }
        } else if mode == Mode::Hash && *b == b'{' {
            return false;
        } else if mode == Mode::Hash && (*b == b'@' || *b == b'$') {
            return true;
        } else if mode == Mode::Returned && *b == b'\n' {
            return true;
        } else if *b == b'"' {
            return false;
        } else if *b == b'\\' {
            mode = Mode::Escaped;
        } else if *b == b'#' {
            mode = Mode::Hash;
        } else {
            mode = Mode::Plain;
        }
    }
    false
}

/// How many bytes stand behind the first single quote up to the closing one, with that.
fn single_len(rest: &[u8]) -> Option<usize>
    ensures is { result ≡ single_len rest.now false }
    ensures within { IfSome result (λ n. n ≤ length rest.now) }
{
    let mut escaped = false;
    for (i, b) in rest.iter().enumerate() {
        if escaped {
            escaped = false;
        } else if *b == b'\'' {
            return Some(i + 1);
        } else {
            escaped = *b == b'\\';
        }
    }
    None
}

fn at_quote(opens: bool) -> Kind
    ensures { result ≡ at_quote opens }
{
    if opens { Kind::Head } else { Kind::Text }
}

fn at_brace(opens: bool) -> Kind
    ensures { result ≡ at_brace opens }
{
    if opens { Kind::Middle } else { Kind::Tail }
}

/// The text, or its first piece, behind a double quote at the front.
pub fn quote_at(rest: &[u8]) -> Option<(Kind, usize)>
    requires { 0 < length rest.now }
    ensures is { result ≡ quote_sized (piece (drop 1 rest.now) Mode.Plain) }
    ensures within { IfSome result (λ p. p.1 ≤ length rest.now) }
{
    match piece(&rest[1..]) {
        Some((opens, n)) => Some((at_quote(opens), n + 1)),
        None => None,
    }
}

/// The piece of a text behind a closing brace at the front.
pub fn brace_at(rest: &[u8]) -> Option<(Kind, usize)>
    requires { 0 < length rest.now }
    ensures is { result ≡ brace_sized (piece (drop 1 rest.now) Mode.Plain) }
    ensures within { IfSome result (λ p. p.1 ≤ length rest.now) }
{
    match piece(&rest[1..]) {
        Some((opens, n)) => Some((at_brace(opens), n + 1)),
        None => None,
    }
}

/// The text behind a single quote at the front.
pub fn single_at(rest: &[u8]) -> Option<(Kind, usize)>
    requires { 0 < length rest.now }
    ensures is { result ≡ single_sized (single_len (drop 1 rest.now) false) }
    ensures within { IfSome result (λ p. p.1 ≤ length rest.now) }
{
    match single_len(&rest[1..]) {
        Some(n) => Some((Kind::Single, n + 1)),
        None => None,
    }
}
