//! The line about what went wrong.

ghost use Rattle.std.specs.Prelude.{◌≡◌, ◌+◌, ◌<◌, ◌^◌, map};
ghost use Rattle.std.specs.List.{concat};
ghost use Rattle.rr_eval.specs.Counted.{failures, counted};
ghost use Rattle.rr_eval.specs.Written.{Puts};
ghost use Rattle.ractor.specs.Lines.{error_line, fault_line, syntax_line};

use itoa::Buffer;
use rr_base::{Fault, SyntaxKind};
use rr_eval::{Counted, Outcome};
use std::io::Write;

/// Writes pieces one after the other, and answers whether it could.
fn put_all<E: Write>(errors: &mut Counted<E>, pieces: &[&[u8]]) -> bool
    requires { failures errors.old + 1 < 2 ^ 64 }
    ensures { Puts (counted E.contents errors.old) (counted E.contents errors.new) (concat (map (λ p. p.now) pieces.now)) result }
{
    for piece in pieces {
        if !errors.put(piece) {
            return false;
        }
    }
    true
}

/// Writes the line about how a run ended, where something went wrong, and answers whether it could.
pub fn tell<E: Write>(errors: &mut Counted<E>, ended: &Result<Outcome, Fault>) -> bool
    requires { failures errors.old + 1 < 2 ^ 64 }
    ensures { Puts (counted E.contents errors.old) (counted E.contents errors.new) (error_line ended.now) result }
{
    match ended {
        Ok(Outcome::Done) => put_all(errors, &[]),
        Ok(Outcome::Raised(told)) => put_all(errors, &[told.as_slice(), b"\n"]),
        Ok(Outcome::StepLimit) => put_all(errors, &[b"ractor: step limit\n"]),
        Ok(Outcome::OutputFailed) => put_all(errors, &[b"ractor: file\n"]),
        Ok(Outcome::Stopped(fault)) | Err(fault) => tell_fault(errors, fault),
    }
}

// The faults that a script meets as exceptions do not come here.
fn tell_fault<E: Write>(errors: &mut Counted<E>, fault: &Fault) -> bool
    requires { failures errors.old + 1 < 2 ^ 64 }
    ensures { Puts (counted E.contents errors.old) (counted E.contents errors.new) (fault_line fault.now) result }
{
    match fault {
        Fault::Syntax { line, column, kind } => tell_syntax(errors, *line, *column, *kind),
        Fault::Limit(kind) => put_all(errors, &[b"ractor: limit ", kind.name().as_bytes(), b"\n"]),
        _ => put_all(errors, &[b"ractor: memory\n"]),
    }
}

fn tell_syntax<E: Write>(errors: &mut Counted<E>, line: u32, column: u32, kind: SyntaxKind) -> bool
    requires { failures errors.old + 1 < 2 ^ 64 }
    ensures { Puts (counted E.contents errors.old) (counted E.contents errors.new) (syntax_line line column kind) result }
{
    let mut line_digits = Buffer::new();
    let mut column_digits = Buffer::new();
    let line = line_digits.format(line).as_bytes();
    let column = column_digits.format(column).as_bytes();
    let name = kind.name().as_bytes();
    put_all(
        errors,
        &[
            b"ractor: syntax error, line ",
            line,
            b", column ",
            column,
            b": ",
            name,
            b"\n",
        ],
    )
}
