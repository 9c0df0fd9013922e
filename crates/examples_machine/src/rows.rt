//! Rows of scripts, whose last blocks are run as another ractor.

use crate::block::{MAIN, SECOND, run_block};
use crate::scripts::program_of;
use rr_base::{Fault, Limits};
use rr_eval::{Prepared, make_first};
use rr_space::{Ref, Space};
use rr_store::{ConstValue, StoreState};
use std::alloc::Global;
use std::process::Abort;
use std::test::Fail;

/// What a row begins with.
#[derive(Clone, Copy)]
pub struct Given {
    /// What the main ractor set the constant `A` to: a value of its own, or 3; nothing where it set none.
    pub constant: Option<bool>,
    /// The arguments of the block: so many of 1 and 2.
    pub arguments: usize,
    /// How many blocks and methods may be called in one another.
    pub frames: u32,
}

/// A store in which the main ractor set what is given.
fn store_of(
    alloc: Global,
    prepared: &Prepared,
    constant: Option<bool>,
) -> Result<StoreState, Fault> {
    let mut store = StoreState::new(alloc, 100);
    if let Some(own) = constant
        && let Some(name) = prepared.program.symbol_named(b"A")
    {
        let value = if own {
            ConstValue::Own
        } else {
            ConstValue::Shareable(Ref::Int(3))
        };
        store.set_const(MAIN, name, value)?;
    }
    Ok(store)
}

/// Runs the last block of a script as another ractor, and tells how it ended.
fn run_script(alloc: Global, script: &str, given: Given) -> Result<Vec<u8>, Fault> {
    let prepared = program_of(alloc, script)?;
    let store = store_of(alloc, &prepared, given.constant)?;
    let limits = Limits {
        frames: given.frames,
        ..Limits::DEFAULT
    };
    let mut space = Space::new(alloc, SECOND, 1000);
    make_first(alloc, &mut space)?;
    let both = [Ref::Int(1), Ref::Int(2)];
    let count = given.arguments.min(2);
    run_block(alloc, &prepared, &store, limits, &mut space, &both[..count])
}

fn text_of(bytes: &[u8]) -> &str {
    std::str::from_utf8(bytes).unwrap_or("(no text)")
}

/// Each row of a table, `SCRIPT => ENDING`, ends as it says.
pub fn check_rows(rt: &impl Abort, alloc: Global, table: &str, given: Given) -> Result<(), Fail> {
    for line in table.lines() {
        let (script, wanted) = line.split_once(" => ").ok_or("a row without its ending")?;
        let told = run_script(alloc, script, given).ok().ok_or("refused")?;
        assert_eq!(rt; text_of(told.as_slice()), wanted, "{script}");
    }
    Ok(())
}
