//! Why no token begins at a place.

ghost use Rattle.std.specs.Prelude.{◌≢◌, ◌<◌, length};
ghost use Rattle.rr_lexer.specs.Reasons.{IsReason, IsTextReason};

use crate::class::{Class, class_of};
use crate::texts::breaks_off;
use rr_base::SyntaxKind;

/// Why no piece of a text begins before this body.
#[tactic(auto, using(crate::proofs::Breaks::breaks_not))]
fn text_refusal(body: &[u8]) -> SyntaxKind
    ensures is { IsTextReason result body.now }
    ensures tokens { result ≢ SyntaxKind.Encoding }
{
    if breaks_off(body) {
        SyntaxKind::LeftOut
    } else {
        SyntaxKind::UnterminatedString
    }
}

/// Why no token begins at the front.
pub fn refusal_at(rest: &[u8]) -> SyntaxKind
    requires { 0 < length rest.now }
    ensures is { IsReason result rest.now }
    ensures tokens { result ≢ SyntaxKind.Encoding }
{
    match class_of(rest[0]) {
        Class::Double | Class::CloseBrace => text_refusal(&rest[1..]),
        Class::Single => SyntaxKind::UnterminatedString,
        Class::Digit => SyntaxKind::Number,
        Class::Lower | Class::Upper => SyntaxKind::LeftOut,
        _ => SyntaxKind::Character,
    }
}
