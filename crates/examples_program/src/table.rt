//! Tables of scripts.

use crate::rows::{REFUSED, RUN};
use crate::run::{Ran, run_in_turns, run_script, text_of};
use rr_base::Fault;
use rr_eval::Outcome;
use std::alloc::{AllocError, Global};
use std::process::Abort;
use std::test::Fail;

/// What `^` and a letter stand for in a row.
fn meant_by(letter: u8) -> &'static [u8] {
    match letter {
        b'n' => b"\n".as_slice(),
        b'r' => b"\r".as_slice(),
        b't' => b"\t".as_slice(),
        b'm' => b"\xEF\xBB\xBF".as_slice(),
        b'e' => b"\x1B".as_slice(),
        b'p' => b"|".as_slice(),
        b'z' => b"\x01".as_slice(),
        b'd' => b"\x7F".as_slice(),
        _ => b"^".as_slice(),
    }
}

/// The bytes that a row has for a field.
pub fn field(alloc: Global, text: &str) -> Result<Vec<u8>, AllocError> {
    let mut bytes = Vec::new(alloc);
    let mut rest = text.as_bytes();
    while let [byte, more @ ..] = rest {
        rest = more;
        if *byte != b'^' {
            bytes.push(*byte)?;
        } else if let [letter, tail @ ..] = more {
            bytes.extend_from_slice(meant_by(*letter))?;
            rest = tail;
        }
    }
    Ok(bytes)
}

/// The name of a row, its script, and what is left of it.
pub fn script_of(alloc: Global, line: &str) -> Result<(&str, Vec<u8>, &str), Fail> {
    let (name, rest) = line.split_once("|").ok_or("a row without a script")?;
    let (script, rest) = rest.split_once("|").ok_or("a row without its end")?;
    Ok((name, field(alloc, script)?, rest))
}

/// What a run left is what a row wants: the output, and what is told of the exception that ended it.
fn check_left(rt: &impl Abort, name: &str, left: &Ran, wanted: &[u8], told: &str) {
    assert_eq!(rt;
        text_of(left.printed.as_slice()),
        text_of(wanted),
        "output of {name}"
    );
    match &left.ended {
        Ok(Outcome::Done) => assert_eq!(rt; told, "", "ending of {name}"),
        Ok(Outcome::Raised(line)) => {
            assert_eq!(rt; text_of(line.as_slice()), told, "ending of {name}")
        }
        _ => assert!(rt; false, "ending of {name}"),
    }
}

/// The row's script does what the row says, in turns of one step, of a few and of many.
fn check_row(rt: &impl Abort, alloc: Global, line: &str) -> Result<(), Fail> {
    let (name, script, rest) = script_of(alloc, line)?;
    let (output, told) = rest.split_once("|").ok_or("a row without an ending")?;
    let wanted = field(alloc, output)?;
    for turn in [1, 7, 1_000] {
        let left = run_in_turns(alloc, turn, script.as_slice());
        check_left(rt, name, &left, wanted.as_slice(), told);
    }
    Ok(())
}

/// Each row of a table does what it says.
pub fn check_rows(rt: &impl Abort, alloc: Global, table: &str) -> Result<(), Fail> {
    for line in table.lines() {
        check_row(rt, alloc, line)?;
    }
    Ok(())
}

#[test]
fn scripts_print_what_is_wanted(rt: HostRuntime) -> Result<(), Fail> {
    check_rows(&rt, rt.alloc(), RUN)
}

fn check_refused(rt: &impl Abort, alloc: Global, row: &str) -> Result<(), Fail> {
    let (name, script, rest) = script_of(alloc, row)?;
    let left = run_script(alloc, script.as_slice());
    assert_eq!(rt; left.printed.len(), 0, "output of {name}");
    let Err(Fault::Syntax { line, column, kind }) = left.ended else {
        return Err(Fail::from("a row that is not refused"));
    };
    let kind = kind.name();
    let told = format!(in alloc; "{line}|{column}|{kind}")?;
    assert_eq!(rt; told.as_str(), rest, "refusal of {name}");
    Ok(())
}

#[test]
fn refusals_name_their_place(rt: HostRuntime) -> Result<(), Fail> {
    for row in REFUSED.lines() {
        check_refused(&rt, rt.alloc(), row)?;
    }
    Ok(())
}
