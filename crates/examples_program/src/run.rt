//! Scripts that are run to their end, and what they leave.

use rr_base::{Fault, Limits};
use rr_eval::{Counted, Outcome, run_source, run_source_in_turns, run_source_within};
use std::alloc::{AllocError, Global};

/// What a run left.
#[derive(Drop)]
pub struct Ran {
    pub ended: Result<Outcome, Fault>,
    pub printed: Vec<u8>,
}

/// Runs a script.
pub fn run_script(alloc: Global, script: &[u8]) -> Ran {
    let mut output = Counted::new(Vec::new(alloc));
    let ended = run_source(alloc, script, &mut output);
    Ran {
        ended,
        printed: output.into_inner(),
    }
}

/// Runs a script in turns of so many steps.
pub fn run_in_turns(alloc: Global, turn: u32, script: &[u8]) -> Ran {
    let mut output = Counted::new(Vec::new(alloc));
    let ended = run_source_in_turns(alloc, Limits::DEFAULT, turn, script, &mut output);
    Ran {
        ended,
        printed: output.into_inner(),
    }
}

/// Runs a script within limits.
pub fn run_within(alloc: Global, limits: Limits, script: &[u8]) -> Ran {
    let mut output = Counted::new(Vec::new(alloc));
    let ended = run_source_within(alloc, limits, script, &mut output);
    Ran {
        ended,
        printed: output.into_inner(),
    }
}

/// Bytes as a text, to show them.
pub fn text_of(bytes: &[u8]) -> &str {
    std::str::from_utf8(bytes).unwrap_or("(no text)")
}

/// A part so many times, with something before and behind it.
pub fn repeated(
    alloc: Global,
    head: &[u8],
    part: &[u8],
    times: u32,
    tail: &[u8],
) -> Result<Vec<u8>, AllocError> {
    let mut script = head.to_vec(alloc)?;
    for _ in 0..times {
        script.extend_from_slice(part)?;
    }
    script.extend_from_slice(tail)?;
    Ok(script)
}
