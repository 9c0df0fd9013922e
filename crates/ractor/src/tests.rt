//! What the program leaves of scripts, its error lines, and failing writers.

use crate::command_line::line;
use crate::execute::execute;
use crate::rows::ROWS;
use crate::statuses::status_of;
use crate::tell::tell;
use crate::words::{Line, LineFault};
use rr_base::{Fault, LimitKind, SyntaxKind};
use rr_eval::{Counted, Outcome};
use std::alloc::{AllocError, Global};
use std::io;
use std::process::Abort;
use std::test::Fail;

/// What a run left: its exit status, its output and its error line.
#[derive(Drop)]
struct Ran {
    status: u8,
    output: Vec<u8>,
    errors: Vec<u8>,
}

fn run_script(alloc: Global, script: &[u8]) -> Ran {
    let mut output = Counted::new(Vec::new(alloc));
    let mut errors = Counted::new(Vec::new(alloc));
    let mut trace = Vec::new(alloc);
    let run = Line::Run { file: "a.rb" };
    let status = execute(alloc, &run, script, &mut output, &mut errors, &mut trace);
    Ran {
        status,
        output: output.into_inner(),
        errors: errors.into_inner(),
    }
}

fn text_of(bytes: &[u8]) -> &str {
    std::str::from_utf8(bytes).unwrap_or("(no text)")
}

/// The bytes that a row has for a field.
fn field(alloc: Global, text: &str) -> Result<Vec<u8>, AllocError> {
    let mut bytes = Vec::new(alloc);
    let mut rest = text.as_bytes();
    while let [byte, more @ ..] = rest {
        rest = more;
        if *byte != b'^' {
            bytes.push(*byte)?;
        } else if let [letter, tail @ ..] = more {
            bytes.push(if *letter == b'n' { b'\n' } else { 0x7F })?;
            rest = tail;
        }
    }
    Ok(bytes)
}

fn check_row(rt: &impl Abort, alloc: Global, row: &str) -> Result<(), Fail> {
    let (name, rest) = row.split_once("|").ok_or("a row without a script")?;
    let (script, rest) = rest.split_once("|").ok_or("a row without an output")?;
    let (output, rest) = rest.split_once("|").ok_or("a row without an error line")?;
    let (errors, status) = rest.split_once("|").ok_or("a row without a status")?;
    let left = run_script(alloc, field(alloc, script)?.as_slice());
    let output = field(alloc, output)?;
    let errors = field(alloc, errors)?;
    assert!(rt;
        left.output.as_slice() == output.as_slice(),
        "output of {name}"
    );
    assert!(rt;
        left.errors.as_slice() == errors.as_slice(),
        "error line of {name}"
    );
    let told = format!(in alloc; "{}", left.status)?;
    assert_eq!(rt; told.as_str(), status, "status of {name}");
    Ok(())
}

#[test]
fn scripts_leave_what_is_wanted(rt: HostRuntime) -> Result<(), Fail> {
    for row in ROWS.lines() {
        check_row(&rt, rt.alloc(), row)?;
    }
    Ok(())
}

fn check_told(
    rt: &impl Abort,
    alloc: Global,
    ended: &Result<Outcome, Fault>,
    line: &str,
    status: u8,
) {
    let mut errors = Counted::new(Vec::new(alloc));
    assert!(rt; tell(&mut errors, ended), "{line}");
    assert_eq!(rt; text_of(errors.into_inner().as_slice()), line);
    assert_eq!(rt; status_of(ended), status, "{line}");
}

#[test]
fn each_ending_has_its_line_and_status(rt: HostRuntime) -> Result<(), Fail> {
    let told = b"boom (RuntimeError)".to_vec(rt.alloc())?;
    let syntax = Fault::Syntax {
        line: 10,
        column: 4_294_967_295,
        kind: SyntaxKind::UnexpectedEnd,
    };
    for (ended, line, status) in [
        (Ok(Outcome::Done), "", 0),
        (Ok(Outcome::Raised(told)), "boom (RuntimeError)\n", 1),
        (
            Err(syntax),
            "ractor: syntax error, line 10, column 4294967295: unexpected end\n",
            3,
        ),
        (
            Err(Fault::Limit(LimitKind::Source)),
            "ractor: limit source\n",
            3,
        ),
        (
            Err(Fault::Limit(LimitKind::Nesting)),
            "ractor: limit nesting\n",
            3,
        ),
        (
            Err(Fault::Limit(LimitKind::Slots)),
            "ractor: limit slots\n",
            3,
        ),
        (Ok(Outcome::OutputFailed), "ractor: file\n", 4),
        (Err(Fault::Memory), "ractor: memory\n", 5),
        (Ok(Outcome::Stopped(Fault::Memory)), "ractor: memory\n", 5),
        (
            Ok(Outcome::Stopped(Fault::Limit(LimitKind::Slots))),
            "ractor: limit slots\n",
            5,
        ),
        (Ok(Outcome::StepLimit), "ractor: step limit\n", 6),
    ] {
        check_told(&rt, rt.alloc(), &ended, line, status);
    }
    Ok(())
}

/// A writer that takes one byte a call, and refuses one call.
#[derive(Drop)]
struct Narrow {
    held: Vec<u8>,
    calls: usize,
    fails_at: usize,
}

impl io::Write for Narrow {
    fn write(&mut self, bytes: &[u8]) -> io::Result<usize> {
        self.calls = self.calls.saturating_add(1);
        if self.calls == self.fails_at {
            return Err(io::Error::from(io::ErrorKind::BrokenPipe));
        }
        let Some(byte) = bytes.first() else {
            return Ok(0);
        };
        self.held.push(*byte)?;
        Ok(1)
    }

    fn flush(&mut self) -> io::Result<()> {
        Ok(())
    }
}

fn failing(alloc: Global, fails_at: usize) -> Narrow {
    Narrow {
        held: Vec::new(alloc),
        calls: 0,
        fails_at,
    }
}

#[test]
fn a_write_that_fails_ends_the_run(rt: HostRuntime) {
    let whole = b"1\n2\n12\n".as_slice();
    for fails_at in 0..10 {
        let mut output = Counted::new(failing(rt.alloc(), fails_at));
        let mut errors = Counted::new(Vec::new(rt.alloc()));
        let mut trace = Vec::new(rt.alloc());
        let run = Line::Run { file: "a.rb" };
        let script = b"puts 1, 2; puts 12".as_slice();
        let status = execute(
            rt.alloc(),
            &run,
            script,
            &mut output,
            &mut errors,
            &mut trace,
        );
        let fails = 1 <= fails_at && fails_at <= whole.len();
        assert_eq!(rt; status, if fails { 4 } else { 0 }, "failing at {fails_at}");
        assert_eq!(rt;
            text_of(errors.into_inner().as_slice()),
            if fails { "ractor: file\n" } else { "" }
        );
        let wanted = if fails { fails_at - 1 } else { whole.len() };
        let held = output.into_inner().held;
        assert_eq!(rt; held.len(), wanted, "failing at {fails_at}");
        assert!(rt; whole.starts_with(held.as_slice()), "failing at {fails_at}");
    }
}

#[test]
fn an_error_line_that_fails_changes_no_status(rt: HostRuntime) {
    let line = b"divided by 0 (ZeroDivisionError)\n".as_slice();
    for fails_at in 1..35 {
        let mut output = Counted::new(Vec::new(rt.alloc()));
        let mut errors = Counted::new(failing(rt.alloc(), fails_at));
        let mut trace = Vec::new(rt.alloc());
        let run = Line::Run { file: "a.rb" };
        let script = b"puts 1 / 0".as_slice();
        let status = execute(
            rt.alloc(),
            &run,
            script,
            &mut output,
            &mut errors,
            &mut trace,
        );
        assert_eq!(rt; status, 1, "failing at {fails_at}");
        let fails = fails_at <= line.len();
        let wanted = if fails { fails_at - 1 } else { line.len() };
        let held = errors.into_inner().held;
        assert_eq!(rt; held.len(), wanted, "failing at {fails_at}");
        assert!(rt; line.starts_with(held.as_slice()), "failing at {fails_at}");
    }
}

const REFUSED_WORDS: [&[&str]; 8] = [
    &[],
    &["run"],
    &["run", "a.rb", "b.rb"],
    &["turns", "a.rb", "1"],
    &["check", "a.trace"],
    &["run", "--steps", "5", "a.rb"],
    &["--help"],
    &["a.rb"],
];

#[test]
fn words_are_read(rt: HostRuntime) -> Result<(), Fail> {
    assert_eq!(rt;
        line(rt.alloc(), &["run", "a.rb"])?,
        Line::Run { file: "a.rb" }
    );
    assert_eq!(rt;
        line(rt.alloc(), &["run", "--", "-a.rb"])?,
        Line::Run { file: "-a.rb" }
    );
    for words in REFUSED_WORDS {
        match line(rt.alloc(), words) {
            Ok(_) => return Err(Fail::from("words were taken")),
            Err(fault) => assert!(rt; !matches!(fault, LineFault::Memory(_))),
        }
    }
    Ok(())
}
