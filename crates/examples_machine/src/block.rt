//! The block of a ractor, on a machine of its own that asks for nothing but constants.

ghost use Rattle.std.specs.Prelude.{length, None, IfSome};
ghost use Rattle.std.specs.List.{All};
ghost use Rattle.rr_eval.specs.Within.{reach, AreWithin, IsReached, IsRequestReached, IsResponseReached};

use crate::scripts::last_block;
use rr_base::{Fault, Limits, RactorNo};
use rr_eval::{Arguments, Machine, Prepared, Problem, Request, Response, Task, Turn, get_constant};
use rr_space::{Label, Ref, Space};
use rr_store::StoreState;
use std::alloc::{AllocError, Global};

/// Another ractor than the main one.
pub const SECOND: RactorNo = RactorNo(2);

/// The main ractor.
pub const MAIN: RactorNo = RactorNo(1);

/// The reply to a request for a constant.
fn reply(space: &Space, store: &StoreState, request: Request) -> Option<Response>
    requires { IsRequestReached (reach (length space.now.slots) None) request }
    ensures { IfSome result (IsResponseReached (reach (length space.now.slots) None)) }
{
    match request {
        Request::Do(Task::GetConstant(name), _) => {
            let missing = Response::Fails(Problem::MissingConstant(name));
            Some(get_constant(space, store, name, missing))
        }
        Request::Do(Task::FindConstant(name), _) => {
            Some(get_constant(space, store, name, Response::Gives(Ref::Nil)))
        }
        Request::Do(Task::SetConstant(_), Arguments::One(value)) => Some(Response::Gives(value)),
        _ => None,
    }
}

/// A value as it is told: a digit for a small integer.
fn value_told(value: Ref) -> &'static [u8] {
    match value {
        Ref::Nil => b"nil",
        Ref::Int(number) => match number {
            1 => b"1",
            2 => b"2",
            3 => b"3",
            4 => b"4",
            _ => b"another integer",
        },
        Ref::Class(_) => b"a class",
        Ref::Ractor(RactorNo(2)) => b"the second ractor",
        Ref::Local(3) => b"the fourth object",
        _ => b"another value",
    }
}

/// An exception as it is told: `MESSAGE (CLASS)`.
fn exception_told(
    alloc: Global,
    prepared: &Prepared,
    space: &Space,
    exception: Ref,
) -> Result<Vec<u8>, AllocError> {
    let mut told = Vec::new(alloc);
    if let Some(message) = space.read(exception, Label::Message) {
        told.extend_from_slice(space.text_bytes(message))?;
    }
    told.extend_from_slice(b" (")?;
    told.extend_from_slice(prepared.program.class_name(space.class_of(exception)))?;
    told.extend_from_slice(b")")?;
    Ok(told)
}

/// Runs a machine to its end, and tells how it ended.
fn run_machine(
    alloc: Global,
    prepared: &Prepared,
    space: &mut Space,
    store: &StoreState,
    machine: &mut Machine,
) -> Result<Vec<u8>, Fault>
    requires { AreWithin (length space.old.slots) machine.old }
{
    for _turn in 0..1000 {
        match machine.turn(prepared, space, 7)? {
            Turn::More => {}
            Turn::Ask(request) => match reply(space, store, request) {
                Some(response) => machine.answer(response),
                None => return Ok(Vec::from_slice(alloc, b"another request")?),
            },
            Turn::Done(value) => return Ok(Vec::from_slice(alloc, value_told(value))?),
            Turn::Raised(exception) => {
                return Ok(exception_told(alloc, prepared, space, exception)?);
            }
            Turn::StepLimit => return Ok(Vec::from_slice(alloc, b"step limit")?),
        }
    }
    Ok(Vec::from_slice(alloc, b"too many turns")?)
}

/// Runs the last block of a program as the ractor whose space it is, which has its first objects, and tells how it ended.
pub fn run_block(
    alloc: Global,
    prepared: &Prepared,
    store: &StoreState,
    limits: Limits,
    space: &mut Space,
    arguments: &[Ref],
) -> Result<Vec<u8>, Fault>
    requires { All (IsReached (reach (length space.old.slots) None)) arguments.now }
{
    let Some(block) = last_block(&prepared.program) else {
        return Ok(Vec::from_slice(alloc, b"no block")?);
    };
    let itself = Ref::Ractor(space.owner());
    let mut machine = Machine::for_block(alloc, prepared, space, limits, itself, block, arguments)?;
    run_machine(alloc, prepared, space, store, &mut machine)
}
