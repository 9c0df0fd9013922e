//! What a script prints, and how it ends.
//!
//! A check answers nothing: each way out of a test is proved with all that was made before it.

use crate::run::{run_within, text_of};
use rr_base::{Fault, LimitKind, Limits};
use rr_eval::Outcome;
use std::alloc::Global;
use std::process::Abort;

/// The usual limits with so many steps.
pub const fn of_steps(steps: u64) -> Limits {
    Limits {
        steps,
        ..Limits::DEFAULT
    }
}

/// The usual limits with so many slots.
pub const fn of_slots(slots: u32) -> Limits {
    Limits {
        slots,
        ..Limits::DEFAULT
    }
}

/// How a run ended, in a few words.
pub fn ending(ended: &Result<Outcome, Fault>) -> &'static str {
    match ended {
        Ok(Outcome::Done) => "done",
        Ok(Outcome::Raised(_)) => "raised",
        Ok(Outcome::StepLimit) => "out of steps",
        Ok(Outcome::OutputFailed) => "output failed",
        Ok(Outcome::Stopped(Fault::Limit(LimitKind::Slots))) => "out of slots",
        Ok(Outcome::Stopped(_)) => "stopped",
        Err(Fault::Limit(kind)) => kind.name(),
        Err(_) => "refused",
    }
}

/// Within limits a script prints this, and ends so.
pub fn check_within(
    rt: &impl Abort,
    alloc: Global,
    limits: Limits,
    script: &[u8],
    printed: &str,
    ended: &str,
) {
    let left = run_within(alloc, limits, script);
    assert_eq!(rt; ending(&left.ended), ended);
    assert_eq!(rt; text_of(left.printed.as_slice()), printed);
}

/// A script prints this, and ends with its last statement.
pub fn check_done(rt: &impl Abort, alloc: Global, script: &[u8], printed: &str) {
    check_within(rt, alloc, Limits::DEFAULT, script, printed, "done");
}

/// A script prints nothing and takes so many steps: with fewer it ends at their limit.
pub fn check_steps(rt: &impl Abort, alloc: Global, script: &[u8], needed: u64) {
    for steps in 1..needed {
        check_within(rt, alloc, of_steps(steps), script, "", "out of steps");
    }
    check_within(rt, alloc, of_steps(needed), script, "", "done");
}
