//! Worked examples: the tokens of a source, or the place and the kind of its refusal.

use crate::line_rows::{LINES, METHODS, REFUSED};
use crate::table::{shown_fault, source_of, split_row};
use crate::token_rows::{MARKS, NAMED, TEXTS, WORDS};
use rr_base::{Fault, SyntaxKind};
use rr_lexer::{Token, lex, line_and_column};
use std::alloc::{AllocError, Global};
use std::process::Abort;
use std::test::Fail;

/// A token as `Name 0..4`, with `_` before it where something stands between it and the token before.
fn shown_token(alloc: Global, token: Token) -> Result<String, AllocError> {
    let blank = if token.blank { "_" } else { "" };
    let (kind, start, end) = (token.kind, token.start, token.end);
    format!(in alloc; "{blank}{kind:?} {start}..{end}")
}

fn shown(alloc: Global, source: &[u8]) -> Result<String, AllocError> {
    match lex(alloc, source) {
        Ok(tokens) => {
            let mut text = String::new(alloc);
            for token in &tokens {
                if !text.is_empty() {
                    text.push_str(", ")?;
                }
                let one = shown_token(alloc, *token)?;
                text.push_str(one.as_str())?;
            }
            Ok(text)
        }
        Err(fault) => shown_fault(alloc, &fault),
    }
}

const ROWS: [&str; 7] = [WORDS, NAMED, MARKS, TEXTS, LINES, METHODS, REFUSED];

fn check_rows(rt: &impl Abort, alloc: Global, rows: &str) -> Result<(), AllocError> {
    for row in rows.lines() {
        let (source, want) = split_row(row);
        let bytes = source_of(alloc, source)?;
        assert_eq!(rt;
            shown(alloc, bytes.as_slice())?.as_str(),
            want,
            "at {source}"
        );
    }
    Ok(())
}

#[test]
fn sources_have_their_tokens(rt: HostRuntime) -> Result<(), Fail> {
    for rows in ROWS {
        check_rows(&rt, rt.alloc(), rows)?;
    }
    Ok(())
}

/// Whether a source has tokens or a refusal that names a place in it or its end.
fn is_answered(alloc: Global, source: &[u8]) -> bool {
    match lex(alloc, source) {
        Ok(_) => true,
        Err(Fault::Syntax { line, column, .. }) => {
            (line, column) <= line_and_column(source, source.len())
        }
        Err(_) => false,
    }
}

/// Whether a source is refused for its encoding, at a place or before it.
fn is_no_text(alloc: Global, source: &[u8], place: usize) -> bool {
    match lex(alloc, source) {
        Err(Fault::Syntax { line, column, kind }) => {
            kind == SyntaxKind::Encoding && (line, column) <= line_and_column(source, place)
        }
        _ => false,
    }
}

/// Each beginning of a source is answered, and each of its bytes is tested for its encoding.
fn check_beginnings(rt: &impl Abort, alloc: Global, source: &[u8]) -> Result<(), AllocError> {
    for place in 0..source.len() {
        let (front, back) = source.split_at(place);
        assert!(rt; is_answered(alloc, front));
        let mut broken = front.to_vec(alloc)?;
        broken.push(0xFF)?;
        broken.extend_from_slice(&back[1..])?;
        assert!(rt; is_no_text(alloc, broken.as_slice(), place));
    }
    Ok(())
}

#[test]
fn each_beginning_and_each_broken_byte_is_answered(rt: HostRuntime) -> Result<(), Fail> {
    for rows in ROWS {
        for row in rows.lines() {
            let source = source_of(rt.alloc(), split_row(row).0)?;
            check_beginnings(&rt, rt.alloc(), source.as_slice())?;
        }
    }
    Ok(())
}

/// The letters and digits that stand for nothing behind a backslash.
const NO_ESCAPES: &str = "abcdfghijklmopquvwxyzABCDEFGHIJKLMNOPQRSTUVWXYZ0123456789";

#[test]
fn other_escapes_are_left_out(rt: HostRuntime) -> Result<(), Fail> {
    for letter in NO_ESCAPES.bytes() {
        let source = [b'"', b'\\', letter, b'"'];
        assert_eq!(rt; shown(rt.alloc(), &source)?.as_str(), "1:1 left out");
    }
    Ok(())
}

#[test]
fn control_bytes_are_refused(rt: HostRuntime) -> Result<(), Fail> {
    for byte in 0..32 {
        let is_blank = byte == b'\t' || byte == b'\n' || byte == b'\r';
        let want = if is_blank {
            "Single 0..3"
        } else {
            "1:2 encoding"
        };
        let source = [b'\'', byte, b'\''];
        assert_eq!(rt; shown(rt.alloc(), &source)?.as_str(), want);
    }
    assert_eq!(rt; shown(rt.alloc(), b"'\x7F'")?.as_str(), "1:2 encoding");
    Ok(())
}
