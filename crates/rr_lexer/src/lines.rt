//! Line ends that separate no statements.

ghost use Rattle.std.specs.Prelude.{◌≡◌, reverse};
ghost use Rattle.rr_lexer.specs.Lines.{op_continues, continues, is_closer, is_call, goes_on, is_dropped, is_continued, spaced, joined};
ghost use Rattle.rr_lexer.specs.Lines.{ends_with_def, ends_with_name, ends_with_open_square, ends_with_squares, ends_setter, ends_method_name};

use crate::kind::{Keyword, Kind, Op, Token};

fn op_continues(op: Op) -> bool
    ensures { result ≡ op_continues op }
{
    !matches!(
        op,
        Op::Bar | Op::Path | Op::Semicolon | Op::Close | Op::CloseSquare
    )
}

/// Whether a line end behind such a token is left out.
fn continues(kind: Kind) -> bool
    ensures { result ≡ continues kind }
{
    match kind {
        Kind::Op(op) => op_continues(op),
        Kind::Keyword(keyword) => matches!(keyword, Keyword::And | Keyword::Or | Keyword::Not),
        Kind::OpenBrace => true,
        _ => false,
    }
}

fn is_closer(kind: Kind) -> bool
    ensures { result ≡ is_closer kind }
{
    matches!(
        kind,
        Kind::CloseBrace | Kind::Op(Op::Close) | Kind::Op(Op::CloseSquare)
    )
}

fn is_call(first: Kind, second: Kind) -> bool
    ensures { result ≡ is_call first second }
{
    matches!((first, second), (Kind::Op(Op::Dot), Kind::Name))
}

/// Whether a line end before these tokens is left out.
fn goes_on(rest: &[Token]) -> bool
    ensures { result ≡ goes_on rest.now }
{
    match rest {
        [] => false,
        [t] => t.kind == Kind::LineEnd || is_closer(t.kind),
        [t, u, ..] => t.kind == Kind::LineEnd || is_closer(t.kind) || is_call(t.kind, u.kind),
    }
}

fn ends_with_def(front: &[Token]) -> bool
    ensures { result ≡ ends_with_def (reverse front.now) }
{
    match front {
        [.., t] => t.kind == Kind::Keyword(Keyword::Def),
        [] => false,
    }
}

/// Whether `def` and a name stand last.
fn ends_with_name(front: &[Token]) -> bool
    ensures { result ≡ ends_with_name (reverse front.now) }
{
    match front {
        [before @ .., t] => t.kind == Kind::Name && ends_with_def(before),
        [] => false,
    }
}

fn ends_with_open_square(front: &[Token]) -> bool
    ensures { result ≡ ends_with_open_square (reverse front.now) }
{
    match front {
        [before @ .., t] => t.kind == Kind::Op(Op::OpenSquare) && ends_with_def(before),
        [] => false,
    }
}

/// Whether `def` and `[]` stand last.
fn ends_with_squares(front: &[Token]) -> bool
    ensures { result ≡ ends_with_squares (reverse front.now) }
{
    match front {
        [before @ .., t] => {
            t.kind == Kind::Op(Op::CloseSquare) && !t.blank && ends_with_open_square(before)
        }
        [] => false,
    }
}

/// Whether a token ends the name of a setter: it is `=`, directly behind `def` and a name, or `def` and `[]`.
fn ends_setter(token: Token, front: &[Token]) -> bool
    ensures { result ≡ ends_setter token (reverse front.now) }
{
    token.kind == Kind::Op(Op::Assign)
        && !token.blank
        && (ends_with_name(front) || ends_with_squares(front))
}

/// Whether a token behind others ends the name of a method: an operator behind `def`, or a setter's.
fn ends_method_name(token: Token, front: &[Token]) -> bool
    ensures { result ≡ ends_method_name token (reverse front.now) }
{
    ends_with_def(front) || ends_setter(token, front)
}

/// Whether a line end behind these tokens is left out. The name of a method goes on to no other line.
fn is_continued(front: &[Token]) -> bool
    ensures { result ≡ is_continued (reverse front.now) }
{
    match front {
        [before @ .., t] => continues(t.kind) && !ends_method_name(*t, before),
        [] => false,
    }
}

/// Whether a token between others is a line end that separates no statements.
fn is_dropped(front: &[Token], kind: Kind, rest: &[Token]) -> bool
    ensures { result ≡ is_dropped (reverse front.now) kind rest.now }
{
    kind == Kind::LineEnd && (is_continued(front) || goes_on(rest))
}

/// A token that something stands before, also where that is a line end that is left out.
fn spaced(gap: bool, token: Token) -> Token
    ensures { result ≡ spaced gap token }
{
    Token {
        blank: gap || token.blank,
        ..token
    }
}

/// Leaves out the line ends that separate no statements. What stands behind one has a blank before it.
pub fn join(tokens: &mut Vec<Token>)
    ensures { tokens.new.items ≡ joined tokens.old.items }
{
    let mut kept: usize = 0;
    let mut gap = false;
    for i in 0..tokens.len() {
        let t = spaced(gap, tokens[i]);
        gap = is_dropped(&tokens[..kept], t.kind, &tokens[i + 1..]);
        if !gap {
            tokens[kept] = t;
            kept += 1;
        }
    }
    tokens.truncate(kept);
}
