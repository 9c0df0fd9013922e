//! The comment that freezes literals.

ghost use Rattle.std.specs.Prelude.{◌≡◌, ◌<◌, ◌≤◌, ◌==◌, ◌||◌, ◌&&◌, true, IsTrue, length, drop, take};
ghost use Rattle.rr_lexer.specs.Freezes.{is_end_of_line, has_comment, is_frozen_comment, stays_blank, has_frozen_line, first_start, freezes};

use crate::class::byte_at;
use crate::kind::{Kind, Token};
use crate::lexing::start_of;

fn is_end_of_line(rest: &[u8]) -> bool
    ensures { result ≡ is_end_of_line rest.now }
{
    match rest {
        [] => true,
        [b, more @ ..] => *b == b'\n' || *b == b'\r' && byte_at(more, 0) == b'\n',
    }
}

/// Whether these bytes begin with the comment that freezes literals.
#[tactic(auto, unfolding(crate::specs::Freezes::has_comment))]
fn has_comment(rest: &[u8]) -> bool
    ensures is { result ≡ has_comment rest.now }
    ensures within { IsTrue result → 29 ≤ length rest.now }
{
    rest.len() >= 29 && &rest[..29] == b"# frozen_string_literal: true".as_slice()
}

/// Whether the rest of a line is that comment.
fn is_frozen_comment(rest: &[u8]) -> bool
    ensures { result ≡ is_frozen_comment rest.now }
{
    has_comment(rest) && is_end_of_line(&rest[29..])
}

/// Whether a line has nothing but blanks, a byte later.
fn stays_blank(fresh: bool, b: u8) -> bool
    ensures { result ≡ stays_blank fresh b }
{
    b == b'\n' || fresh && (b == b' ' || b == b'\t' || b == b'\r')
}

fn has_frozen_line(bytes: &[u8]) -> bool
    ensures { result ≡ has_frozen_line true bytes.now }
{
    let mut fresh = true;
    let mut rest = bytes;
    while let [b, more @ ..] = rest {
        if fresh && is_frozen_comment(rest) {
            return true;
        }
        fresh = stays_blank(fresh, *b);
        rest = more;
    }
    false
}

/// Where the first token that is no line end begins, or `size`.
fn first_start(size: usize, tokens: &[Token]) -> usize
    ensures { result ≡ first_start size tokens.now }
{
    for token in tokens {
        if token.kind != Kind::LineEnd {
            return token.start as usize;
        }
    }
    size
}

/// Whether literals of a source without interpolation are frozen: a line before the first of its tokens, line ends
/// aside, is the comment `# frozen_string_literal: true`, with nothing but blanks before it.
pub fn freezes_literals(source: &[u8], tokens: &[Token]) -> bool
    ensures { result ≡ freezes source.now tokens.now }
{
    let head = &source[..first_start(source.len(), tokens).min(source.len())];
    has_frozen_line(&head[start_of(source).min(head.len())..])
}
