//! Operators and brackets.

ghost use Rattle.std.specs.Prelude.{◌≡◌, ◌==◌, length, slice_index, Option, if◌then◌else◌};
ghost use Rattle.rr_lexer.specs.Words.{op_text};
ghost use Rattle.rr_lexer.specs.Scans.{op_of, op_at};
ghost use Rattle.rr_lexer.specs.declared.kind.Op.{Op};

use crate::class::byte_at;
use crate::kind::{Kind, Op};

/// Which of two operators stands there, by the byte behind their first one.
fn assign_or(b: u8, with: Op, without: Op) -> Op
    ensures { result ≡ (if b == 61 then with else without) }
{
    if b == b'=' { with } else { without }
}

#[tactic(auto, unfolding(crate::specs::Scans::op_of))]
fn equal_op(b: u8, c: u8) -> Op
    ensures { op_of 61 b c ≡ Some result }
{
    match b {
        b'=' => Op::Equal,
        b'>' => Op::Arrow,
        _ => Op::Assign,
    }
}

#[tactic(auto, unfolding(crate::specs::Scans::op_of))]
fn less_op(b: u8, c: u8) -> Op
    ensures { op_of 60 b c ≡ Some result }
{
    match (b, c) {
        (b'=', b'>') => Op::Compare,
        (b'=', _) => Op::LessOrEqual,
        (b'<', b'=') => Op::ShiftAssign,
        (b'<', _) => Op::Shift,
        _ => Op::Less,
    }
}

#[tactic(auto, unfolding(crate::specs::Scans::op_of))]
fn and_op(b: u8, c: u8) -> Option<Op>
    ensures { result ≡ op_of 38 b c }
{
    match (b, c) {
        (b'&', b'=') => Some(Op::AndAssign),
        (b'&', _) => Some(Op::And),
        _ => None,
    }
}

#[tactic(auto, unfolding(crate::specs::Scans::op_of))]
fn or_op(b: u8, c: u8) -> Op
    ensures { op_of 124 b c ≡ Some result }
{
    match (b, c) {
        (b'|', b'=') => Op::OrAssign,
        (b'|', _) => Op::Or,
        _ => Op::Bar,
    }
}

#[tactic(auto, unfolding(crate::specs::Scans::op_of))]
fn colon_op(b: u8, c: u8) -> Op
    ensures { op_of 58 b c ≡ Some result }
{
    if b == b':' { Op::Path } else { Op::Colon }
}

/// The operator or bracket that begins with these bytes, 0 past the end.
#[tactic(auto, unfolding(crate::specs::Scans::op_of))]
fn op_of(a: u8, b: u8, c: u8) -> Option<Op>
    ensures { result ≡ op_of a b c }
{
    match a {
        b'+' => Some(assign_or(b, Op::PlusAssign, Op::Plus)),
        b'-' => Some(assign_or(b, Op::MinusAssign, Op::Minus)),
        b'*' => Some(assign_or(b, Op::StarAssign, Op::Star)),
        b'/' => Some(assign_or(b, Op::SlashAssign, Op::Slash)),
        b'%' => Some(assign_or(b, Op::PercentAssign, Op::Percent)),
        b'!' => Some(assign_or(b, Op::NotEqual, Op::Bang)),
        b'>' => Some(assign_or(b, Op::GreaterOrEqual, Op::Greater)),
        b'=' => Some(equal_op(b, c)),
        b'<' => Some(less_op(b, c)),
        b'&' => and_op(b, c),
        b'|' => Some(or_op(b, c)),
        b':' => Some(colon_op(b, c)),
        b'?' => Some(Op::Question),
        b'.' => Some(Op::Dot),
        b',' => Some(Op::Comma),
        b';' => Some(Op::Semicolon),
        b'(' => Some(Op::Open),
        b')' => Some(Op::Close),
        b'[' => Some(Op::OpenSquare),
        b']' => Some(Op::CloseSquare),
        _ => None,
    }
}

fn op_len(op: Op) -> usize
    ensures { result ≡ length (op_text op) }
{
    match op {
        Op::Compare | Op::ShiftAssign | Op::AndAssign | Op::OrAssign => 3,
        Op::Equal | Op::Arrow | Op::NotEqual | Op::LessOrEqual | Op::Shift | Op::GreaterOrEqual =>
            2,
        Op::PlusAssign | Op::MinusAssign | Op::StarAssign | Op::SlashAssign | Op::PercentAssign =>
            2,
        Op::And | Op::Or | Op::Path => 2,
        _ => 1,
    }
}

/// The operator or bracket at the front, and how many bytes it takes.
pub fn op_at(rest: &[u8]) -> Option<(Kind, usize)>
    ensures { result ≡ op_at rest.now }
{
    match op_of(byte_at(rest, 0), byte_at(rest, 1), byte_at(rest, 2)) {
        Some(op) => Some((Kind::Op(op), op_len(op))),
        None => None,
    }
}
