//! The names of methods behind `def`, of one token or several.

ghost use Rattle.std.specs.Prelude.{◌≡◌, ◌<◌};
ghost use Rattle.rr_lexer.specs.Lines.{is_def, is_assign, is_close_square};
ghost use Rattle.rr_parser.specs.MethodNames.{names_method, through, with_assign, index_name, operator_name, name_from, method_name_at};

use rr_lexer::{Keyword, Kind, Op, Token};

/// The name of a method, as one token, and how many tokens more than one spell it.
#[derive(Clone, Copy, Drop)]
pub(crate) struct MethodName {
    pub token: Token,
    pub more: u32,
}

/// Whether the name of a method stands behind a token of this kind.
pub(crate) fn is_def(kind: Kind) -> bool
    ensures { result ≡ is_def kind }
{
    matches!(kind, Kind::Keyword(Keyword::Def))
}

/// Whether an operator of one token names a method.
fn names_method(op: Op) -> bool
    ensures { result ≡ names_method op }
{
    matches!(
        op,
        Op::Plus
            | Op::Minus
            | Op::Star
            | Op::Slash
            | Op::Percent
            | Op::Shift
            | Op::Equal
            | Op::Less
            | Op::LessOrEqual
            | Op::Greater
            | Op::GreaterOrEqual
            | Op::Compare
    )
}

/// The tokens from one to another as one name.
fn through(first: Token, last: Token, more: u32) -> MethodName
    ensures { result ≡ through first last more }
{
    MethodName {
        token: Token {
            start: first.start,
            end: last.end,
            kind: Kind::Name,
            blank: first.blank,
        },
        more,
    }
}

/// The name from one token to another, or up to a `=` that stands directly behind that one.
fn with_assign(first: Token, last: Token, more: u32, rest: &[Token]) -> MethodName
    requires { more < 2 }
    ensures { result ≡ with_assign first last more rest.now }
{
    match rest {
        [assign, ..] if assign.kind == Kind::Op(Op::Assign) && !assign.blank => {
            through(first, *assign, more + 1)
        }
        _ => through(first, last, more),
    }
}

/// `[` and directly behind it `]`, and it may be `=`.
fn index_name(first: Token, rest: &[Token]) -> Option<MethodName>
    ensures { result ≡ index_name first rest.now }
{
    match rest {
        [close, rest @ ..] if close.kind == Kind::Op(Op::CloseSquare) && !close.blank => {
            Some(with_assign(first, *close, 1, rest))
        }
        _ => None,
    }
}

fn operator_name(first: Token, op: Op, rest: &[Token]) -> Option<MethodName>
    ensures { result ≡ operator_name first op rest.now }
{
    match op {
        Op::OpenSquare => index_name(first, rest),
        _ if names_method(op) => Some(through(first, first, 0)),
        _ => None,
    }
}

/// The name of a method that begins with a token, before these ones, if `def` stands before it.
pub(crate) fn method_name_at(behind_def: bool, token: Token, rest: &[Token]) -> Option<MethodName>
    ensures { result ≡ method_name_at behind_def token rest.now }
{
    if !behind_def {
        return None;
    }
    match token.kind {
        Kind::Name => Some(with_assign(token, token, 0, rest)),
        Kind::Op(op) => operator_name(token, op, rest),
        _ => None,
    }
}
