//! Calls of rows, and what they come to.

ghost use Rattle.std.specs.Prelude.{length};
ghost use Rattle.rr_space.specs.Parts.{IsWithin};

use crate::values::{own, value};
use rr_base::{RactorNo, Sym};
use rr_builtin::{
    Built, BuiltInMethod, ContentMethod, Methods, Problem, Receiver, call, make_hash, write_missing,
};
use rr_space::{Ref, Space};
use rr_text::{Form, Text, text};
use rr_tree::Program;
use std::alloc::Global;
use std::test::Fail;

/// A program with this name, and two others.
pub fn program(alloc: Global, name: &[u8]) -> Result<Program, Fail> {
    let mut symbols = Vec::new(alloc);
    symbols.push(name.to_vec(alloc)?)?;
    symbols.push(b"b".to_vec(alloc)?)?;
    symbols.push(b"c".to_vec(alloc)?)?;
    Ok(Program {
        nodes: Vec::new(alloc),
        root: 0,
        symbols,
        texts: Vec::new(alloc),
        freezes: false,
        definitions: Vec::new(alloc),
        classes: Vec::new(alloc),
        sites: 0,
    })
}

pub fn inspected(
    alloc: Global,
    space: &Space,
    program: &Program,
    value: Ref,
) -> Result<Vec<u8>, Fail> {
    match text(alloc, space, program, value, Form::Inspect)? {
        Text::Bytes(bytes) => Ok(bytes),
        Text::Deep => Err(Fail::from("deep")),
        Text::Shell => Ok(b"shell".to_vec(alloc)?),
    }
}

/// `MESSAGE (CLASS)`
pub fn raised(alloc: Global, program: &Program, problem: Problem) -> Result<Vec<u8>, Fail> {
    let mut out = Vec::new(alloc);
    problem.write(&mut out, program)?;
    out.extend_from_slice(b" (")?;
    out.extend_from_slice(problem.class().name().as_bytes())?;
    out.extend_from_slice(b")")?;
    Ok(out)
}

pub fn missing(alloc: Global, program: &Program, receiver: Receiver) -> Result<Vec<u8>, Fail> {
    let mut out = Vec::new(alloc);
    write_missing(&mut out, program, program.symbol_bytes(Sym(0)), receiver)?;
    Ok(out)
}

/// What the message of a missing method calls a value.
pub fn receiver_of(space: &Space, value: Ref) -> Receiver {
    match value {
        Ref::Class(class) => Receiver::Class(class),
        _ => Receiver::Instance(space.class_of(value)),
    }
}

/// Calls the method on the first value with those behind it.
pub fn called(
    alloc: Global,
    space: &mut Space,
    program: &Program,
    method: BuiltInMethod,
    values: &[Ref],
) -> Result<Built, Fail> {
    let Some(receiver) = values.get(0) else {
        return Err(Fail::from("no receiver"));
    };
    let receiver = own(space, *receiver)?;
    let built = match values.len() {
        1 => call(alloc, space, program, receiver, method, &[])?,
        2 => {
            let first = own(space, values[1])?;
            call(alloc, space, program, receiver, method, &[first])?
        }
        _ => {
            let first = own(space, values[1])?;
            let second = own(space, values[2])?;
            call(alloc, space, program, receiver, method, &[first, second])?
        }
    };
    Ok(built)
}

/// What a call comes to: `RECEIVER METHOD ARGUMENTS`, and then the receiver.
pub fn outcome(alloc: Global, line: &str) -> Result<Vec<u8>, Fail> {
    let mut space = Space::new(alloc, RactorNo(1), 10);
    let mut values = Vec::new(alloc);
    let mut name = b"".as_slice();
    for (place, word) in line.split(' ').enumerate() {
        if place == 1 {
            name = word.as_bytes();
        } else {
            values.push(value(alloc, &mut space, word)?)?;
        }
    }
    let Some(receiver) = values.first() else {
        return Err(Fail::from("no receiver"));
    };
    let receiver = *receiver;
    let program = program(alloc, name)?;
    let methods = Methods::of(alloc, &program)?;
    let Some(method) = methods.find(Sym(0)) else {
        return missing(alloc, &program, Receiver::Nil);
    };
    let mut out = match called(alloc, &mut space, &program, method, &values)? {
        Built::Value(value) => inspected(alloc, &space, &program, value)?,
        Built::Raised(problem) => raised(alloc, &program, problem)?,
        Built::Missing => missing(alloc, &program, receiver_of(&space, receiver))?,
    };
    out.extend_from_slice(b" | ")?;
    out.extend_from_slice(&inspected(alloc, &space, &program, receiver)?)?;
    Ok(out)
}

/// The value of a call that gives one.
pub fn given(built: Built) -> Result<Ref, Fail> {
    match built {
        Built::Value(value) => Ok(value),
        Built::Raised(_) => Err(Fail::from("raised")),
        Built::Missing => Err(Fail::from("missing")),
    }
}

/// Calls a method of hashes with integers, and writes what it gives.
pub fn told(
    alloc: Global,
    space: &mut Space,
    program: &Program,
    method: ContentMethod,
    values: &[Ref],
) -> Result<Vec<u8>, Fail> {
    let built = called(
        alloc,
        space,
        program,
        BuiltInMethod::Content(method),
        values,
    )?;
    inspected(alloc, space, program, given(built)?)
}

/// A hash that is made empty, with its size; the same with two pairs; a value that is there, and one that is not.
pub fn made_hash(alloc: Global) -> Result<Vec<u8>, Fail> {
    let mut space = Space::new(alloc, RactorNo(1), 10);
    let program = program(alloc, b"a")?;
    let hash = given(make_hash(alloc, &mut space)?)?;
    let mut out = inspected(alloc, &space, &program, hash)?;
    out.push(b' ')?;
    out.extend_from_slice(&told(alloc, &mut space, &program, ContentMethod::Size, &[hash])?)?;
    let first = [hash, Ref::Int(7), Ref::Int(8)];
    told(alloc, &mut space, &program, ContentMethod::SetAt, &first)?;
    let second = [hash, Ref::Int(9), Ref::Int(10)];
    told(alloc, &mut space, &program, ContentMethod::SetAt, &second)?;
    out.extend_from_slice(b" | ")?;
    out.extend_from_slice(&inspected(alloc, &space, &program, hash)?)?;
    out.push(b' ')?;
    out.extend_from_slice(&told(alloc, &mut space, &program, ContentMethod::Size, &[hash])?)?;
    out.extend_from_slice(b" | ")?;
    let there = [hash, Ref::Int(9)];
    out.extend_from_slice(&told(alloc, &mut space, &program, ContentMethod::At, &there)?)?;
    out.push(b' ')?;
    let absent = [hash, Ref::Int(8)];
    out.extend_from_slice(&told(alloc, &mut space, &program, ContentMethod::At, &absent)?)?;
    Ok(out)
}
