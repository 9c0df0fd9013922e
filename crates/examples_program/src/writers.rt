//! Writers that fail, that take a byte at a time, and that count their calls.

use crate::endings::ending;
use crate::run::text_of;
use rr_eval::{Counted, run_source};
use std::alloc::Global;
use std::io;
use std::process::Abort;
use std::test::Fail;

/// How a call fails.
#[derive(Clone, Copy, Debug)]
enum Refusal {
    /// With an error.
    Error,
    /// It takes nothing.
    Nothing,
}

/// A writer that takes at most so many bytes a call, and refuses one call.
#[derive(Drop)]
struct Narrow {
    held: Vec<u8>,
    width: usize,
    calls: usize,
    fails_at: usize,
    refusal: Refusal,
}

impl io::Write for Narrow {
    fn write(&mut self, bytes: &[u8]) -> io::Result<usize> {
        self.calls = self.calls.saturating_add(1);
        if self.calls == self.fails_at {
            return match self.refusal {
                Refusal::Error => Err(io::Error::from(io::ErrorKind::BrokenPipe)),
                Refusal::Nothing => Ok(0),
            };
        }
        let count = bytes.len().min(self.width);
        self.held.extend_from_slice(&bytes[..count])?;
        Ok(count)
    }

    fn flush(&mut self) -> io::Result<()> {
        Ok(())
    }
}

const SCRIPT: &[u8] = b"puts 1, 2; puts 12";

const PRINTED: &[u8] = b"1\n2\n12\n";

/// Runs the script on a writer of this width that fails at a call: `wanted` bytes have to be there.
fn check_failing(
    rt: &impl Abort,
    alloc: Global,
    width: usize,
    fails_at: usize,
    wanted: usize,
    refusal: Refusal,
) {
    let mut output = Counted::new(Narrow {
        held: Vec::new(alloc),
        width,
        calls: 0,
        fails_at,
        refusal,
    });
    let ended = run_source(alloc, SCRIPT, &mut output);
    let fails = wanted < PRINTED.len();
    let told = if fails { "output failed" } else { "done" };
    let place = (width, fails_at);
    assert_eq!(rt; ending(&ended), told, "width and failing call {place:?}");
    assert_eq!(rt;
        output.failed_writes(),
        u64::from(fails),
        "width and failing call {place:?}"
    );
    let writer = output.into_inner();
    assert_eq!(rt;
        writer.held.len(),
        wanted,
        "width and failing call {place:?}"
    );
    assert!(rt; PRINTED.starts_with(writer.held.as_slice()));
    if fails {
        assert_eq!(rt; writer.calls, fails_at, "width and failing call {place:?}");
    }
}

#[test]
fn a_write_that_fails_ends_the_run(rt: HostRuntime) {
    for refusal in [Refusal::Error, Refusal::Nothing] {
        for fails_at in 1..8 {
            check_failing(&rt, rt.alloc(), 1, fails_at, fails_at - 1, refusal);
        }
        check_failing(&rt, rt.alloc(), 1, 8, 7, refusal);
        check_failing(&rt, rt.alloc(), 100, 1, 0, refusal);
        check_failing(&rt, rt.alloc(), 100, 2, 4, refusal);
        check_failing(&rt, rt.alloc(), 100, 3, 7, refusal);
    }
}

/// A writer that takes all that it is given, and marks where each call begins.
#[derive(Drop)]
struct Marking {
    held: Vec<u8>,
}

impl io::Write for Marking {
    fn write(&mut self, bytes: &[u8]) -> io::Result<usize> {
        self.held.push(b'>')?;
        self.held.extend_from_slice(bytes)?;
        Ok(bytes.len())
    }

    fn flush(&mut self) -> io::Result<()> {
        Ok(())
    }
}

#[test]
fn each_puts_is_one_write(rt: HostRuntime) -> Result<(), Fail> {
    let mut output = Counted::new(Marking {
        held: Vec::new(rt.alloc()),
    });
    let script = b"puts 1, \"two\", nil\nputs\nputs \"a\" + \"b\\n\"\nputs()\nputs (puts 3)\n";
    let ended = run_source(rt.alloc(), script, &mut output);
    assert_eq!(rt; ending(&ended), "done");
    assert_eq!(rt;
        text_of(output.into_inner().held.as_slice()),
        ">1\ntwo\n\n>\n>ab\n>\n>3\n>\n"
    );
    Ok(())
}

#[test]
fn whole_writes_are_no_failures(rt: HostRuntime) -> Result<(), Fail> {
    let mut output = Counted::new(Vec::new(rt.alloc()));
    assert!(rt; output.has_room());
    assert!(rt; output.put(b"first"));
    assert!(rt; output.put(b""));
    let ended = run_source(rt.alloc(), b"puts 1", &mut output);
    assert_eq!(rt; ending(&ended), "done");
    assert_eq!(rt; output.failed_writes(), 0);
    assert_eq!(rt; output.into_inner().as_slice(), b"first1\n".as_slice());
    Ok(())
}
