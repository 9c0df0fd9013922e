//! A script from its bytes to its printed bytes.

ghost use Rattle.std.specs.Prelude.{◌≡◌, ◌+◌, ◌<◌, ◌≤◌, ◌^◌, [], length, Some, IfOk, IfErr};
ghost use Rattle.rr_base.specs.declared.name.TheConstants.ClassId.{OBJECT};
ghost use Rattle.rr_lexer.specs.Tokens.{AreTokensOf};
ghost use Rattle.rr_text.specs.Reads.{IsReadWith};
ghost use Rattle.rr_builtin.specs.Acts.{with_array, with_object};
ghost use Rattle.rr_builtin.specs.News.{new_plain};
ghost use Rattle.rr_eval.specs.Acts.{IsRefusal, Passes};
ghost use Rattle.rr_eval.specs.Counted.{failures, counted};
ghost use Rattle.rr_eval.specs.Written.{written_to};
ghost use Rattle.rr_eval.specs.Turns.{context_of, remaining};
ghost use Rattle.rr_eval.specs.Within.{AreReached, AreWithin, reach};
ghost use Rattle.rr_eval.specs.Runs.{EndsRaised, Reads, IsRun, Meets, first_course, program_meaning};
ghost use Rattle.rr_eval.specs.Script.{World};

use crate::alone::{assigned_field, call_alone, own_call, serve_alone, set_alone};
use crate::counted::Counted;
use crate::engine::{Turn, TurnedApart};
use crate::exception::report;
use crate::known::make_registry;
use crate::machine::Machine;
use crate::making::make_plain;
use crate::output::{Output, put};
use crate::prepared::Prepared;
use rr_base::{ClassId, Fault, Limits, RactorNo};
use rr_builtin::Methods;
use rr_lexer::{Token, lex, tokens_are_one};
use rr_parser::parse;
use rr_space::{Ref, Space};
use rr_store::StoreState;
use rr_tree::Program;
use std::alloc::Global;
use std::io::Write;
use std::mem;

/// How a run ended.
#[derive(Drop)]
pub enum Outcome {
    /// With the last statement.
    Done,
    /// With an exception that nothing rescues: `MESSAGE (CLASS)`.
    Raised(Vec<u8>),
    /// With all its steps spent.
    StepLimit,
    /// With a write that failed.
    OutputFailed,
    /// With a fault that no script sees: `Memory`, or `Limit(Slots)` where the script makes more objects than there may be.
    Stopped(Fault),
}

/// The steps of one turn, where nothing else is asked for.
const TURN: u32 = 1_000_000;

/// The program that the tokens of a source spell.
fn parse_program(alloc: Global, source: &[u8], tokens: &[Token]) -> Result<Program, Fault>
    requires { AreTokensOf source.now tokens.now }
    ensures { Reads source.now result }
{
    tokens_are_one();
    match parse(alloc, source, tokens) {
        Ok(program) => Ok(program),
        Err(fault) => Err(fault),
    }
}

/// The program that a source spells.
fn read_program(alloc: Global, source: &[u8]) -> Result<Program, Fault>
    ensures { Reads source.now result }
{
    match lex(alloc, source) {
        Ok(tokens) => parse_program(alloc, source, tokens.as_slice()),
        Err(fault) => Err(fault),
    }
}

/// Makes the first objects of a ractor's space, which has no object yet: the `self` of a program, which is given, the object that has its
/// global variables and constants, both of class Object and without fields, and the array in which the slots stand that published
/// objects were in. Another ractor than the main one uses the array alone.
///
/// The faults are `Memory`, and `Limit(Slots)` where there may be fewer objects.
pub fn make_first(alloc: Global, space: &mut Space) -> Result<Ref, Fault>
    ensures name { IfOk result (λ itself. itself ≡ Ref.Local (length space.old.slots)) }
    ensures made { IfOk result (λ _. space.new ≡ with_array [] (with_object (new_plain OBJECT.0) [] (with_object (new_plain OBJECT.0) [] space.old))) }
    ensures read { IfOk result (λ _. IsReadWith space.old [] → IsReadWith space.new []) }
    ensures refused { IfErr result IsRefusal }
    ensures full { IfErr result (λ f. Passes f space.old.limit (length (with_array [] (with_object (new_plain OBJECT.0) [] (with_object (new_plain OBJECT.0) [] space.old))).slots)) }
{
    let itself = make_plain(alloc, space, ClassId::OBJECT)?;
    make_plain(alloc, space, ClassId::OBJECT)?;
    make_registry(alloc, space)?;
    Ok(itself)
}

/// There are no more objects than there may be.
fn objects_fit(space: &Space)
    ensures { length space.now.slots ≤ space.now.limit }
{
    let _count = space.len();
}

/// How a run ends with an exception that nothing rescues.
fn raised(alloc: Global, program: &Program, space: &Space, exception: Ref) -> Outcome
    ensures { EndsRaised space.now exception result }
{
    match report(alloc, program, space, exception) {
        Ok(told) => Outcome::Raised(told),
        Err(_) => Outcome::Stopped(Fault::Memory),
    }
}

/// Runs a machine that has a whole program still to do, in turns of so many steps. The limits are those of the program.
fn run_machine<O: Output>(
    alloc: Global,
    prepared: &Prepared,
    limits: Limits,
    turn: u32,
    space: &mut Space,
    mut machine: Machine,
    output: &mut O,
) -> Outcome
    requires some { 0 < turn }
    requires room { O.failures output.old + 1 < 2 ^ 64 }
    requires within { AreWithin (length space.old.slots) machine }
    requires reached { AreReached (reach (length space.old.slots) (Some [])) machine }
    requires read { IsReadWith space.old [] }
    requires limit { space.old.limit ≡ limits.slots }
    requires whole { (w : World) → program_meaning prepared.now.program limits w ≡ remaining prepared.now.program machine space.old (first_course w) }
    ensures { IsRun (context_of prepared.now.program) (program_meaning prepared.now.program limits) limits (written_to O.contents O.failures output.old) (written_to O.contents O.failures output.new) result }
{
    let program = &prepared.program;
    let methods = &prepared.methods;
    let mut store = StoreState::new(alloc, limits.events);
    loop {
        let apart = machine.turn_apart(prepared, space, turn);
        objects_fit(space);
        match apart {
            TurnedApart::Assigns(set) => {
                match set_alone(space, &store, program, set.object, set.name, set.value) {
                    Ok(response) => machine.answer(response),
                    Err(fault) => return Outcome::Stopped(fault),
                }
            }
            TurnedApart::Other(Ok(Turn::More)) => {}
            TurnedApart::Other(Ok(Turn::Ask(request))) => {
                if let Some((object, name, value)) = assigned_field(&request) {
                    match set_alone(space, &store, program, object, name, value) {
                        Ok(response) => machine.answer(response),
                        Err(fault) => return Outcome::Stopped(fault),
                    }
                    continue;
                }
                if let Some(call) = own_call(&request) {
                    match call_alone(alloc, space, &store, program, methods, call) {
                        Ok(response) => machine.answer(response),
                        Err(fault) => return Outcome::Stopped(fault),
                    }
                    continue;
                }
                match serve_alone(alloc, space, &mut store, program, methods, request) {
                    Ok(served) => {
                        if !put(output, served.piece.as_slice()) {
                            return Outcome::OutputFailed;
                        }
                        machine.answer(served.response);
                    }
                    Err(fault) => return Outcome::Stopped(fault),
                }
            }
            TurnedApart::Other(Ok(Turn::Done(_))) => return Outcome::Done,
            TurnedApart::Other(Ok(Turn::Raised(exception))) => {
                return raised(alloc, program, space, exception);
            }
            TurnedApart::Other(Ok(Turn::StepLimit)) => return Outcome::StepLimit,
            TurnedApart::Other(Err(fault)) => return Outcome::Stopped(fault),
        }
    }
}

/// What becomes of a script's objects when it has ended.
#[derive(Clone, Copy)]
enum Remains {
    /// They are freed.
    Freed,
    /// They are left to the system, which takes back all memory of a process at once when that ends.
    Left,
}

/// Parts with the objects of a script that has ended.
fn part_with(space: Space, remains: Remains) {
    match remains {
        Remains::Freed => drop(space),
        Remains::Left => mem::forget(space),
    }
}

/// Runs a program on the main ractor, in turns of so many steps.
fn run_program<O: Output>(
    alloc: Global,
    prepared: &Prepared,
    limits: Limits,
    turn: u32,
    remains: Remains,
    output: &mut O,
) -> Outcome
    requires some { 0 < turn }
    requires room { O.failures output.old + 1 < 2 ^ 64 }
    ensures { IsRun (context_of prepared.now.program) (program_meaning prepared.now.program limits) limits (written_to O.contents O.failures output.old) (written_to O.contents O.failures output.new) result }
{
    let mut space = Space::new(alloc, RactorNo(1), limits.slots);
    let itself = match make_first(alloc, &mut space) {
        Ok(itself) => itself,
        Err(fault) => return Outcome::Stopped(fault),
    };
    match Machine::new(alloc, prepared, limits, itself) {
        Ok(machine) => {
            let ended = run_machine(alloc, prepared, limits, turn, &mut space, machine, output);
            part_with(space, remains);
            ended
        }
        Err(fault) => Outcome::Stopped(fault),
    }
}

/// Makes a program ready and runs it.
fn run_prepared<O: Output>(
    alloc: Global,
    program: Program,
    limits: Limits,
    turn: u32,
    remains: Remains,
    output: &mut O,
) -> Outcome
    requires some { 0 < turn }
    requires room { O.failures output.old + 1 < 2 ^ 64 }
    ensures { IsRun (context_of program) (program_meaning program limits) limits (written_to O.contents O.failures output.old) (written_to O.contents O.failures output.new) result }
{
    match Prepared::of(alloc, program) {
        Ok(prepared) => run_program(alloc, &prepared, limits, turn, remains, output),
        Err(_) => Outcome::Stopped(Fault::Memory),
    }
}

/// Reads a script and runs it.
fn run_within<O: Output>(
    alloc: Global,
    limits: Limits,
    turn: u32,
    remains: Remains,
    source: &[u8],
    output: &mut O,
) -> Result<Outcome, Fault>
    requires some { 0 < turn }
    requires room { O.failures output.old + 1 < 2 ^ 64 }
    ensures { Meets (record { source = source.now; limits = limits; before = written_to O.contents O.failures output.old; after = written_to O.contents O.failures output.new; ended = result }) }
{
    match read_program(alloc, source) {
        Ok(program) => Ok(run_prepared(alloc, program, limits, turn, remains, output)),
        Err(fault) => Err(fault),
    }
}

/// Runs a script within limits, of which it takes the steps, the frames and the slots.
///
/// A fault means that the source was not read, and nothing was written: `Syntax`, `Limit` of `Source`, of `Nesting` or, where the
/// program needs too many parts, of `Slots`, and `Memory`. Once it is read, the outcome says how the run ended.
pub fn run_source_within<W: Write>(
    alloc: Global,
    limits: Limits,
    source: &[u8],
    output: &mut Counted<W>,
) -> Result<Outcome, Fault>
    requires { failures output.old + 1 < 2 ^ 64 }
    ensures { Meets (record { source = source.now; limits = limits; before = counted W.contents output.old; after = counted W.contents output.new; ended = result }) }
{
    run_within(alloc, limits, TURN, Remains::Freed, source, output)
}

/// Runs a script within limits, in turns of so many steps, of one step where none is asked for. What a script does, does not depend
/// on it.
pub fn run_source_in_turns<W: Write>(
    alloc: Global,
    limits: Limits,
    turn: u32,
    source: &[u8],
    output: &mut Counted<W>,
) -> Result<Outcome, Fault>
    requires { failures output.old + 1 < 2 ^ 64 }
    ensures { Meets (record { source = source.now; limits = limits; before = counted W.contents output.old; after = counted W.contents output.new; ended = result }) }
{
    match turn {
        0 => run_within(alloc, limits, 1, Remains::Freed, source, output),
        _ => run_within(alloc, limits, turn, Remains::Freed, source, output),
    }
}

/// Runs a script within the limits that hold where nothing else is asked for. The faults are those of `run_source_within`.
pub fn run_source<W: Write>(
    alloc: Global,
    source: &[u8],
    output: &mut Counted<W>,
) -> Result<Outcome, Fault>
    requires { failures output.old + 1 < 2 ^ 64 }
    ensures { Meets (record { source = source.now; limits = Limits.DEFAULT; before = counted W.contents output.old; after = counted W.contents output.new; ended = result }) }
{
    run_source_within(alloc, Limits::DEFAULT, source, output)
}

/// Runs a script as `run_source` does, for a process that ends with it: its objects are left to the system, which takes them back at once,
/// where to free one after the other takes a twentieth of the time of a script that makes many. The faults are those of
/// `run_source_within`.
pub fn run_source_leaving_objects<W: Write>(
    alloc: Global,
    source: &[u8],
    output: &mut Counted<W>,
) -> Result<Outcome, Fault>
    requires { failures output.old + 1 < 2 ^ 64 }
    ensures { Meets (record { source = source.now; limits = Limits.DEFAULT; before = counted W.contents output.old; after = counted W.contents output.new; ended = result }) }
{
    run_within(alloc, Limits::DEFAULT, TURN, Remains::Left, source, output)
}
