//! Rows of worked examples: `SOURCE -> WANTED`.

use rr_base::{Fault, LimitKind};
use std::alloc::{AllocError, Global};

/// A fault as `2:5 number`, its line, its column and its kind.
pub fn shown_fault(alloc: Global, fault: &Fault) -> Result<String, AllocError> {
    match fault {
        Fault::Syntax { line, column, kind } => {
            let name = kind.name();
            format!(in alloc; "{line}:{column} {name}")
        }
        Fault::Limit(LimitKind::Source) => String::from_str(alloc, "limit source"),
        Fault::Limit(LimitKind::Nesting) => String::from_str(alloc, "limit nesting"),
        _ => String::from_str(alloc, "another fault"),
    }
}

/// What `^` stands for in a row together with what follows it, and the rest of the row.
fn escape(rest: &[u8]) -> (u8, &[u8]) {
    match rest {
        [b'n', tail @ ..] => (b'\n', tail),
        [b'r', tail @ ..] => (b'\r', tail),
        [b't', tail @ ..] => (b'\t', tail),
        [high, low, tail @ ..] => {
            let digits = [*high, *low];
            let text = str::from_utf8(&digits).unwrap_or("");
            (u8::from_str_radix(text, 16).unwrap_or(0), tail)
        }
        _ => (b'^', rest),
    }
}

/// The bytes of a source as a row has it.
pub fn source_of(alloc: Global, row: &str) -> Result<Vec<u8>, AllocError> {
    let mut pieces = row.split('^');
    let mut source = pieces.next().unwrap_or("").as_bytes().to_vec(alloc)?;
    for piece in pieces {
        let (byte, tail) = escape(piece.as_bytes());
        source.push(byte)?;
        source.extend_from_slice(tail)?;
    }
    Ok(source)
}

/// The source of a row and what is wanted of it.
pub fn split_row(row: &str) -> (&str, &str) {
    row.split_once(" -> ")
        .unwrap_or((row, "a row without an arrow"))
}
