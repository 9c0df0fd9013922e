//! The token that begins at a place.

ghost use Rattle.std.specs.Prelude.{◌≡◌, ◌==◌, not, ◌<◌, ◌≤◌, length, slice_index, IfSome};
ghost use Rattle.std.specs.List.{prefix_len};
ghost use Rattle.rr_lexer.specs.Scans.{return_at, backslash_at, int_sized, number_at, element_at};

use crate::class::{Class, byte_at, class_of};
use crate::kind::Kind;
use crate::numbers::number_at;
use crate::ops::op_at;
use crate::texts::{brace_at, quote_at, single_at};
use crate::words::{colon_at, lower_at, upper_at, variable_at};

/// How many bytes stand before the end of the line.
fn comment_len(rest: &[u8]) -> usize
    ensures { result ≡ prefix_len (λ b. not (b == 10)) rest.now }
{
    for (i, b) in rest.iter().enumerate() {
        if *b == b'\n' {
            return i;
        }
    }
    rest.len()
}

/// What begins with a carriage return at the front.
fn return_at(rest: &[u8]) -> Option<(Kind, usize)>
    ensures { result ≡ return_at rest.now }
{
    if byte_at(rest, 1) == b'\n' {
        Some((Kind::LineEnd, 2))
    } else {
        Some((Kind::Blank, 1))
    }
}

/// What begins with a backslash at the front.
fn backslash_at(rest: &[u8]) -> Option<(Kind, usize)>
    ensures { result ≡ backslash_at rest.now }
{
    let next = byte_at(rest, 1);
    if next == b'\n' {
        Some((Kind::Joined, 2))
    } else if next == b'\r' && byte_at(rest, 2) == b'\n' {
        Some((Kind::Joined, 3))
    } else {
        None
    }
}

fn int_at(rest: &[u8]) -> Option<(Kind, usize)>
    ensures { result ≡ int_sized (number_at rest.now) }
{
    match number_at(rest) {
        Some((_, n)) => Some((Kind::Int, n)),
        None => None,
    }
}

/// The token, blank, comment or joined line at the front, and how many bytes it takes, inside an interpolation or not,
/// behind `.` or not.
#[tactic(auto, unfolding(crate::specs::Scans::element_at))]
pub fn element_at(inside: bool, after_dot: bool, rest: &[u8]) -> Option<(Kind, usize)>
    requires { 0 < length rest.now }
    ensures { result ≡ element_at inside after_dot rest.now }
{
    match class_of(rest[0]) {
        Class::Lower => lower_at(after_dot, rest),
        Class::Upper => upper_at(after_dot, rest),
        Class::Digit => int_at(rest),
        Class::Double => quote_at(rest),
        Class::Single => single_at(rest),
        Class::Hash => Some((Kind::Comment, comment_len(rest))),
        Class::LineFeed => Some((Kind::LineEnd, 1)),
        Class::Return => return_at(rest),
        Class::Blank => Some((Kind::Blank, 1)),
        Class::Backslash => backslash_at(rest),
        Class::OpenBrace => Some((Kind::OpenBrace, 1)),
        Class::CloseBrace => {
            if inside {
                brace_at(rest)
            } else {
                Some((Kind::CloseBrace, 1))
            }
        }
        Class::At => variable_at(Kind::InstanceVariable, rest),
        Class::Dollar => variable_at(Kind::GlobalVariable, rest),
        Class::Colon => colon_at(rest),
        Class::Mark => op_at(rest),
        Class::Other => None,
    }
}
