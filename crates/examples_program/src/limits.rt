//! Limits of a run and of a source.

use crate::endings::{check_done, check_steps, check_within, of_slots};
use crate::run::repeated;
use rr_base::Limits;
use rr_builtin::{floor_div, floor_mod};
use std::alloc::{AllocError, Global};
use std::test::Fail;

#[test]
fn division_rounds_down(rt: HostRuntime) {
    for (a, b, quotient, rest) in [
        (7, -2, Some(-4), -1),
        (-7, 2, Some(-4), 1),
        (-7, -2, Some(3), -1),
        (6, 3, Some(2), 0),
        (i64::MIN, -1, None, 0),
    ] {
        assert_eq!(rt; floor_div(a, b), quotient);
        assert_eq!(rt; floor_mod(a, b), rest);
    }
}

// The script, its statement, the sum and the two operands: five evaluations.
#[test]
fn the_last_step_is_spent(rt: HostRuntime) {
    check_steps(&rt, rt.alloc(), b"a = 1 + 2\n", 5);
}

#[test]
fn the_last_slot_is_filled(rt: HostRuntime) {
    let script = b"puts \"a\"\nputs \"b\" + \"c\"\n";
    check_within(&rt, rt.alloc(), of_slots(7), script, "a\nbc\n", "done");
    check_within(&rt, rt.alloc(), of_slots(6), script, "a\n", "out of slots");
}

fn brackets(alloc: Global, count: u32) -> Result<Vec<u8>, AllocError> {
    let open = repeated(alloc, b"puts ", b"(", count, b"1")?;
    repeated(alloc, open.as_slice(), b")", count, b"\n")
}

#[test]
fn nesting_has_a_limit_of_200(rt: HostRuntime) -> Result<(), Fail> {
    let within = brackets(rt.alloc(), 200)?;
    check_done(&rt, rt.alloc(), within.as_slice(), "1\n");
    let past = brackets(rt.alloc(), 201)?;
    check_within(
        &rt,
        rt.alloc(),
        Limits::DEFAULT,
        past.as_slice(),
        "",
        "nesting",
    );
    Ok(())
}

#[test]
fn a_source_has_a_limit_of_16_mib(rt: HostRuntime) -> Result<(), Fail> {
    let long = repeated(rt.alloc(), b"", b"               \n", 1_048_576, b"")?;
    check_done(&rt, rt.alloc(), long.as_slice(), "");
    let longer = repeated(rt.alloc(), long.as_slice(), b" ", 1, b"")?;
    check_within(
        &rt,
        rt.alloc(),
        Limits::DEFAULT,
        longer.as_slice(),
        "",
        "source",
    );
    Ok(())
}
