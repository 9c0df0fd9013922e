//! Steps in turn on a new World, each beside what it is to answer.

ghost use Rattle.std.specs.Prelude.{◌≤◌};

use crate::model::{Told, what_it_tells};
use crate::words::{number_of, step_of};
use rr_base::Limits;
use rr_world::World;
use std::alloc::Global;
use std::process::Abort;
use std::test::Fail;

/// Makes the step of a row, and compares what it answers.
///
/// A row has the number of the ractor that makes the step, and the step; and, where that is not `Done`, a colon and what it
/// answers.
fn check_row(rt: &impl Abort, alloc: Global, world: &mut World, row: &str) -> Result<(), Fail> {
    let (words, wanted) = row.split_once(": ").unwrap_or((row, "Done"));
    let (who, words) = words.split_once(" ").unwrap_or(("", words));
    let step = step_of(alloc, number_of(who), words)?;
    let told = what_it_tells(&world.step(alloc, &step));
    let text = format!(in alloc; "{told:?}")?;
    assert_eq!(rt; text.as_str(), wanted, "{row}");
    Ok(())
}

pub fn check_rows(
    rt: &impl Abort,
    alloc: Global,
    world: &mut World,
    rows: &str,
) -> Result<(), Fail> {
    for row in rows.lines() {
        check_row(rt, alloc, world, row)?;
    }
    Ok(())
}

/// A part of a table on a new World: a line that says what it shows, and its rows.
fn check_part(rt: &impl Abort, alloc: Global, limits: Limits, part: &str) -> Result<(), Fail>
    requires { 3 ≤ limits.events }
{
    let mut world = World::new(alloc, limits)?;
    let (_, rows) = part.split_once("\n").unwrap_or((part, ""));
    check_rows(rt, alloc, &mut world, rows)
}

/// The parts of a table, with an empty line between any two.
pub fn check(rt: &impl Abort, alloc: Global, limits: Limits, table: &str) -> Result<(), Fail>
    requires { 3 ≤ limits.events }
{
    for part in table.split("\n\n") {
        check_part(rt, alloc, limits, part)?;
    }
    Ok(())
}

/// None of the steps, of which each line has one, is enabled for the ractor of this number.
pub fn none_is_enabled(
    rt: &impl Abort,
    alloc: Global,
    world: &mut World,
    who: u32,
    steps: &str,
) -> Result<(), Fail> {
    for words in steps.lines() {
        let step = step_of(alloc, who, words)?;
        let told = what_it_tells(&world.step(alloc, &step));
        assert!(rt; told == Told::NotEnabled, "{who} {words}");
    }
    Ok(())
}
