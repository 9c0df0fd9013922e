//! A script's tokens, tree and steps.

use crate::clock::Laps;
use crate::reading::{Script, read};
use rr_base::{Fault, Limits, RactorNo};
use rr_eval::{Machine, Prepared, Response, Turn};
use rr_space::{Ref, Space};
use rr_tree::Program;
use std::alloc::Global;
use std::io;

const STEPS: u64 = 100_000_000;

const LIMITS: Limits = Limits {
    steps: STEPS,
    ..Limits::DEFAULT
};

/// How often a program is run.
const ROUNDS: u32 = 50;

/// Runs the program by turns of so many steps, and answers after how many of them it went on.
fn run_once(alloc: Global, program: &Prepared, budget: u32) -> Result<u64, Fault> {
    let mut space = Space::new(alloc, RactorNo(1), u32::MAX);
    let mut machine = Machine::new(alloc, program, LIMITS, Ref::Nil)?;
    let mut turns = 0u64;
    for _turn in 0..u64::MAX {
        match machine.turn(program, &mut space, budget)? {
            Turn::More => turns = turns.wrapping_add(1),
            Turn::Ask(_) => machine.answer(Response::Gives(Ref::Nil)),
            Turn::Done(_) | Turn::Raised(_) | Turn::StepLimit => break,
        }
    }
    Ok(turns)
}

fn run(alloc: Global, program: &Prepared) -> Result<(), Fault> {
    for _ in 0..ROUNDS {
        run_once(alloc, program, 1_000_000)?;
    }
    Ok(())
}

fn measure_steps(rt: &HostRuntime, program: Program) -> io::Result<()> {
    let Ok(program) = Prepared::of(rt.alloc(), program) else {
        return println!(rt; "not enough memory");
    };
    let steps = run_once(rt.alloc(), &program, 1).unwrap_or(0);
    let mut laps = Laps::begin(rt)?;
    let ended = run(rt.alloc(), &program).is_ok();
    let each = laps.each(rt, ROUNDS)? / u128::from(steps.max(1));
    println!(rt; "{steps} steps, {each} ns each, ended: {ended}")
}

pub fn measure(rt: &HostRuntime, file: &str) -> io::Result<()> {
    let Some(script) = read(rt, file)? else {
        return Ok(());
    };
    let Script {
        bytes,
        tokens,
        lexed,
        parsed,
        program,
    } = script;
    println!(rt; "{bytes} bytes, {tokens} tokens: {lexed} ms; tree: {parsed} ms")?;
    measure_steps(rt, program)
}
