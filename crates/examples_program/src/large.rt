//! Large scripts and large texts.

use crate::endings::{check_done, check_within, of_slots};
use crate::run::{repeated, text_of};
use std::alloc::Global;
use std::test::Fail;

#[test]
fn a_long_chain(rt: HostRuntime) -> Result<(), Fail> {
    let chain = repeated(rt.alloc(), b"puts 1", b" + 1", 100_000, b"\n")?;
    check_done(&rt, rt.alloc(), chain.as_slice(), "100001\n");
    Ok(())
}

#[test]
fn a_text_over_64_kib(rt: HostRuntime) -> Result<(), Fail> {
    let script = repeated(rt.alloc(), b"puts \"", b"abcdefg", 10_000, b"\"\n")?;
    let wanted = repeated(rt.alloc(), b"", b"abcdefg", 10_000, b"\n")?;
    check_done(
        &rt,
        rt.alloc(),
        script.as_slice(),
        text_of(wanted.as_slice()),
    );
    Ok(())
}

#[test]
fn a_joined_text_over_64_kib(rt: HostRuntime) -> Result<(), Fail> {
    let script = repeated(rt.alloc(), b"a = \"x\"\n", b"a = a + a\n", 17, b"puts a\n")?;
    let wanted = repeated(rt.alloc(), b"", b"x", 131_072, b"\n")?;
    check_done(
        &rt,
        rt.alloc(),
        script.as_slice(),
        text_of(wanted.as_slice()),
    );
    Ok(())
}

#[test]
fn more_than_1_000_objects(rt: HostRuntime) -> Result<(), Fail> {
    let script = repeated(rt.alloc(), b"", b"puts \"o\"\n", 1_100, b"")?;
    for (slots, lines, ended) in [
        (1_103, 1_100, "done"),
        (1_102, 1_099, "out of slots"),
        (1_000, 997, "out of slots"),
    ] {
        let wanted = repeated(rt.alloc(), b"", b"o\n", lines, b"")?;
        let printed = text_of(wanted.as_slice());
        check_within(
            &rt,
            rt.alloc(),
            of_slots(slots),
            script.as_slice(),
            printed,
            ended,
        );
    }
    Ok(())
}

#[test]
fn a_literal_past_1_mib(rt: HostRuntime) -> Result<(), Fail> {
    let comment = b"# fifteen bytes\n";
    let script = repeated(rt.alloc(), b"", comment, 70_000, b"puts \"past\", 'it'\n")?;
    check_done(&rt, rt.alloc(), script.as_slice(), "past\nit\n");
    Ok(())
}

// `aN = "tN"` for each number, and then the names at the ends of one byte.
fn names(alloc: Global, count: u32) -> Result<Vec<u8>, Fail> {
    let mut script = Vec::new(alloc);
    for i in 0..count {
        let line = format!(in alloc; "a{i} = \"t{i}\"\n")?;
        script.extend_from_slice(line.as_bytes())?;
    }
    script.extend_from_slice(b"puts a0, a254, a255, a256, a257, a299, \"t255\" == a255\n")?;
    Ok(script)
}

#[test]
fn more_than_255_names_and_texts(rt: HostRuntime) -> Result<(), Fail> {
    let script = names(rt.alloc(), 300)?;
    let wanted = "t0\nt254\nt255\nt256\nt257\nt299\ntrue\n";
    check_done(&rt, rt.alloc(), script.as_slice(), wanted);
    Ok(())
}
