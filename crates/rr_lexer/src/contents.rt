//! What a token stands for.

ghost use Rattle.std.specs.Prelude.{◌≡◌, ◌<◌, ◌≤◌, false, length, IfOk};
ghost use Rattle.rr_lexer.specs.Contents.{word_of, int_value_of, whole_number, escaped_byte, is_folded, text_body, single_body, contents_of, name_of};

use crate::class::byte_at;
use crate::kind::{Kind, Token};
use crate::numbers::number_at;
use std::alloc::{AllocError, Global};

/// The bytes of a source that a token spans, or none where it does not lie in the source.
pub fn word<'s>(source: &'s [u8], token: Token) -> &'s [u8]
    ensures { result.now ≡ word_of source.now token }
{
    let (start, end) = (token.start as usize, token.end as usize);
    if start <= end && end <= source.len() {
        &source[start..end]
    } else {
        &[]
    }
}

/// The number that a token spells, at most 9223372036854775808, or `None` where its bytes are no whole number.
#[tactic(auto, unfolding(crate::specs::Contents::int_value_of))]
pub fn int_value(source: &[u8], token: Token) -> Option<u64>
    ensures { result ≡ int_value_of (word_of source.now token) }
{
    let bytes = word(source, token);
    match number_at(bytes) {
        Some((value, n)) => { if n == bytes.len() { Some(value) } else { None } }
        None => None,
    }
}

/// What a backslash and this byte stand for in double quotes.
fn escaped_byte(b: u8) -> u8
    ensures { result ≡ escaped_byte b }
{
    match b {
        b'n' => 10,
        b't' => 9,
        b'r' => 13,
        b'e' => 27,
        b's' => 32,
        _ => b,
    }
}

/// Whether a byte is the carriage return of a line end.
fn is_folded(b: u8, next: u8) -> bool
    ensures { result ≡ is_folded b next }
{
    b == b'\r' && next == b'\n'
}

fn text_body(alloc: Global, bytes: &[u8]) -> Result<Vec<u8>, AllocError>
    ensures { IfOk result (λ t. t.items ≡ text_body bytes.now false) }
{
    let mut body = Vec::new(alloc);
    let mut escaped = false;
    let mut rest = bytes;
    while let [b, more @ ..] = rest {
        rest = more;
        let next = byte_at(more, 0);
        if escaped {
            body.push(escaped_byte(*b))?;
            escaped = false;
        } else if *b == b'"' || *b == b'#' && next == b'{' {
            return Ok(body);
        } else if *b == b'\\' {
            escaped = true;
        } else if !is_folded(*b, next) {
            body.push(*b)?;
        }
    }
    Ok(body)
}

fn single_body(alloc: Global, bytes: &[u8]) -> Result<Vec<u8>, AllocError>
    ensures { IfOk result (λ t. t.items ≡ single_body bytes.now false) }
{
    let mut body = Vec::new(alloc);
    let mut escaped = false;
    let mut rest = bytes;
    while let [b, more @ ..] = rest {
        rest = more;
        let next = byte_at(more, 0);
        if escaped {
            body.push(*b)?;
            escaped = false;
        } else if *b == b'\'' {
            return Ok(body);
        } else if *b == b'\\' && (next == b'\\' || next == b'\'') {
            escaped = true;
        } else if !is_folded(*b, next) {
            body.push(*b)?;
        }
    }
    Ok(body)
}

/// The text that a token stands for: a text in single quotes, or a text or a piece of one in double quotes, its escapes
/// replaced, and each CR LF by LF. Other tokens stand for the empty text.
///
/// An `Err` means that the allocator refused a growth.
pub fn text_contents(alloc: Global, source: &[u8], token: Token) -> Result<Vec<u8>, AllocError>
    ensures { IfOk result (λ t. t.items ≡ contents_of (word_of source.now token)) }
{
    match word(source, token) {
        [b'\'', body @ ..] => single_body(alloc, body),
        [b'"' | b'}', body @ ..] => text_body(alloc, body),
        _ => Ok(Vec::new(alloc)),
    }
}

/// The name that a symbol, a label or an instance variable has, without its colon or its `@`: `a` for `:a`, `a:` and `@a`. Other
/// tokens have the bytes that they span.
pub fn name<'s>(source: &'s [u8], token: Token) -> &'s [u8]
    ensures { result.now ≡ name_of token.kind (word_of source.now token) }
{
    let bytes = word(source, token);
    match token.kind {
        Kind::Symbol | Kind::InstanceVariable => &bytes[bytes.len().min(1)..],
        Kind::Label => &bytes[..bytes.len().saturating_sub(1)],
        _ => bytes,
    }
}
